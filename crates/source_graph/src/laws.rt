//! What is so of the graphs of C texts.
ghost use Rattle.source_graph.specs.ReadBack.{GraphsReadBack, NamesAreNames};
ghost use Rattle.source_graph.specs.Sources.{HaveOneGraph};

use c_lexer::tokens_stand_in_their_text;
use emit_list::list_reads_back;
use graph_emit::graphs_keep_rules_and_names;

/// A text has one graph for each kind.
pub fn texts_have_one_graph()
    ensures { HaveOneGraph }
{}

/// The names that the program of a text declares are names: no other bytes are in them than letters, digits and `_`.
pub fn declared_names_are_names()
    ensures { NamesAreNames }
{
    tokens_stand_in_their_text();
}

/// The printed graph of a text is an edge file that says exactly the graph's edges.
pub fn graphs_read_back()
    ensures { GraphsReadBack }
{
    declared_names_are_names();
    graphs_keep_rules_and_names();
    list_reads_back();
}
