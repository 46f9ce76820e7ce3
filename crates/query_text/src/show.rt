//! Which edges are shown, and how.
ghost use Rattle.std.specs.Prelude.{◌≡◌, ◌∷◌, [], length, IfOk};
ghost use Rattle.std.specs.Option.{option_map};
ghost use Rattle.faults.specs.Counts.{HasCause};
ghost use Rattle.text_page.specs.Gathered.{Gathers};
ghost use Rattle.query_text.specs.Text as text;
ghost use Rattle.query_text.specs.Shown.{IsLineOf, shown_in, shown_text};

use crate::lines::{Line, answer_line, edge_line};
use graph_words::{Born, LabelId};
use io_edge::{Failed, Sink};
use label_table::LabelTable;
use text_page::Page;

/// Which edges are shown.
#[derive(Clone, Copy, Debug)]
pub(crate) enum Show {
    /// Each edge whose label has a name, with its name.
    Named,
    /// Those of a label, from one vertex and to one where these are asked for.
    Label {
        label: LabelId,
        from: Option<u32>,
        to: Option<u32>,
    },
}

// Whether a vertex is the one that is asked for, if one is.
fn is_asked(asked: Option<u32>, v: u32) -> bool
    ensures { result ≡ text.is_asked asked v }
{
    match asked {
        None => true,
        Some(u) => v == u,
    }
}

// Whether an edge has the label and the ends that are asked for.
fn is_answer(label: LabelId, from: Option<u32>, to: Option<u32>, born: &Born) -> bool
    ensures { result ≡ text.is_answer label from to born.now }
{
    born.edge.label.0 == label.0
        && (is_asked(from, born.edge.src.0) && is_asked(to, born.edge.dst.0))
}

// The line of an edge of a label, if it is an answer.
fn answer_of(label: LabelId, from: Option<u32>, to: Option<u32>, born: &Born) -> Option<Line>
    ensures { IsLineOf (Show.Label label from to) [] born.now (option_map (λ l. l.items) result) }
{
    if is_answer(label, from, to, born) {
        return Some(answer_line(born));
    }
    None
}

impl Show {
    // The line of an edge, if it is shown.
    fn line(&self, table: &LabelTable, born: &Born) -> Option<Line>
        ensures { IsLineOf self.now table.now born.now (option_map (λ l. l.items) result) }
    {
        match *self {
            Show::Named => match table.name_of(born.edge.label) {
                Some(name) => Some(edge_line(born, name)),
                None => None,
            },
            Show::Label { label, from, to } => answer_of(label, from, to, born),
        }
    }

    // Puts the line of an edge, if it is shown, and answers how many lines that are.
    fn put_edge<O: Sink>(
        &self,
        page: &mut Page,
        sink: &mut O,
        table: &LabelTable,
        born: &Born,
    ) -> Result<u64, Failed>
        ensures gathered { Gathers (O.told sink.old) page.old (O.told sink.new) page.new result (shown_text self.now table.now (born.now ∷ [])) }
        ensures number { IfOk result (λ n. n ≡ length (shown_in self.now table.now (born.now ∷ []))) }
        ensures cause { HasCause (O.faults sink.old) (O.faults sink.new) result }
    {
        match self.line(table, born) {
            None => Ok(0),
            Some(line) => {
                page.put(sink, line.as_slice())?;
                Ok(1)
            }
        }
    }

    /// Puts the lines of the edges that are shown, in order, and answers how many they are.
    pub(crate) fn put_edges<O: Sink>(
        &self,
        page: &mut Page,
        sink: &mut O,
        table: &LabelTable,
        edges: &[Born],
    ) -> Result<u64, Failed>
        ensures gathered { Gathers (O.told sink.old) page.old (O.told sink.new) page.new result (shown_text self.now table.now edges.now) }
        ensures number { IfOk result (λ n. n ≡ length (shown_in self.now table.now edges.now)) }
        ensures cause { HasCause (O.faults sink.old) (O.faults sink.new) result }
    {
        let mut shown = 0;
        for born in edges {
            shown += self.put_edge(page, sink, table, born)?;
        }
        Ok(shown)
    }
}
