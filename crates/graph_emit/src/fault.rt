//! The kinds of graphs, and why a program has none.
use io_edge::InputKind;
use std::alloc::AllocError;

/// What a graph is made for.
#[derive(Clone, Copy, PartialEq, Eq, Debug)]
pub enum EmitKind {
    /// What points to what: a `NULL` flows by no edge.
    Alias,
    /// Where a `NULL` may flow to: it flows by the label `n`.
    Null,
}

/// Why a program has no graph.
#[derive(Clone, Copy, PartialEq, Eq, Debug)]
pub enum EmitFault {
    /// The first refusal.
    At {
        /// The line of the token that is refused, counted from 1.
        line: u64,
        /// `Repeated`, `Undeclared`, `WrongArguments`, `NoValue` or `TooManyVertices`.
        kind: InputKind,
    },
    /// Memory was wanted.
    NoMemory,
}

impl From<AllocError> for EmitFault {
    ghost use Rattle.std.specs.Prelude.{◌≡◌};
    ghost use Rattle.graph_emit.specs.declared.fault.EmitFault.TheVariants.{NoMemory};

    ghost from_gives = { λ _ e. e ≡ NoMemory };

    fn from(_: AllocError) -> Self {
        EmitFault::NoMemory
    }
}
