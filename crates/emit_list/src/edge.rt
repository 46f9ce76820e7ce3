//! The edges of a graph, and their labels.
ghost use Rattle.std.specs.Prelude.{◌≡◌};
ghost use Rattle.graph_words.specs.Text.{IsLabel};
ghost use Rattle.emit_list.specs.Printed.{label_bytes};
ghost use Rattle.emit_list.specs.Vertices.{inverse as inverse_of};

/// The label of an edge: an assignment, a dereference, the flow of a `NULL`, and the inverse of each.
#[derive(Clone, Copy, PartialEq, Eq, Debug)]
pub enum EmitLabel {
    /// `a`, from the right side's expression to the left side's.
    A,
    /// `-a`
    MinusA,
    /// `d`, from an expression to what it points to.
    D,
    /// `-d`
    MinusD,
    /// `n`, from a `NULL` to what it is assigned to.
    N,
    /// `-n`
    MinusN,
}

impl EmitLabel {
    /// The label of an edge the other way round.
    pub fn inverse(self) -> EmitLabel
        ensures { result ≡ inverse_of self }
    {
        match self {
            EmitLabel::A => EmitLabel::MinusA,
            EmitLabel::MinusA => EmitLabel::A,
            EmitLabel::D => EmitLabel::MinusD,
            EmitLabel::MinusD => EmitLabel::D,
            EmitLabel::N => EmitLabel::MinusN,
            EmitLabel::MinusN => EmitLabel::N,
        }
    }

    /// The label as it is printed.
    pub(crate) fn text(self) -> &'static [u8]
        ensures text { result.now ≡ label_bytes self }
        ensures label { IsLabel result.now }
    {
        match self {
            EmitLabel::A => b"a",
            EmitLabel::MinusA => b"-a",
            EmitLabel::D => b"d",
            EmitLabel::MinusD => b"-d",
            EmitLabel::N => b"n",
            EmitLabel::MinusN => b"-n",
        }
    }
}

/// An edge: the number of its source, its label and the number of its destination.
#[derive(Clone, Copy, PartialEq, Eq, Debug)]
pub struct EmitEdge {
    pub src: u32,
    pub label: EmitLabel,
    pub dst: u32,
}
