//! Why a text has no tokens.
use io_edge::InputKind;
use std::alloc::AllocError;

/// Why a text has no tokens.
#[derive(Clone, Copy, PartialEq, Eq, Debug)]
pub enum LexFault {
    /// The piece that begins here is no blank, no comment and no token.
    At {
        /// The line of its first byte, counted from 1.
        line: u64,
        /// The column of its first byte, in bytes and counted from 1.
        column: u64,
        /// What is wrong with it.
        kind: InputKind,
    },
    /// Memory was wanted.
    NoMemory,
}

impl From<AllocError> for LexFault {
    ghost use Rattle.std.specs.Prelude.{◌≡◌};
    ghost use Rattle.c_lexer.specs.declared.fault.LexFault.TheVariants.{NoMemory};

    ghost from_gives = { λ _ e. e ≡ NoMemory };

    fn from(_: AllocError) -> Self {
        LexFault::NoMemory
    }
}
