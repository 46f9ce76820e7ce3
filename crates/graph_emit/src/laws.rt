//! What is so of the graphs of programs.
ghost use Rattle.graph_emit.specs.Names.{GraphsAreNamed, GraphsKeepRules};

/// A program's graph keeps the rules of such graphs, and its vertices have names that the program declares, or none.
pub fn graphs_keep_rules_and_names()
    ensures rules { GraphsKeepRules }
    ensures names { GraphsAreNamed }
{}
