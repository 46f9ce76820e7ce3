//! Why tokens are no program.
use c_tree::{ReadFault, Wrong};
use io_edge::InputKind;

/// Why tokens are no program.
#[derive(Clone, Copy, PartialEq, Eq, Debug)]
pub enum ParseFault {
    /// The first token that no program goes on with.
    At {
        /// Its number, counted from 0; the number of all tokens where they end too early.
        token: usize,
        /// `TooDeep` where only the bound on levels forbids it, else `Unexpected`.
        kind: InputKind,
    },
    /// Memory was wanted.
    NoMemory,
}

impl From<ReadFault> for ParseFault {
    ghost use Rattle.std.specs.Prelude.{◌≡◌};
    ghost use Rattle.c_parser.specs.Faults.{fault_of};

    ghost from_gives = { λ fault e. e ≡ fault_of fault };

    fn from(fault: ReadFault) -> Self {
        match fault {
            ReadFault::At { token, wrong } => ParseFault::At {
                token,
                kind: match wrong {
                    Wrong::Unexpected => InputKind::Unexpected,
                    Wrong::TooDeep => InputKind::TooDeep,
                },
            },
            ReadFault::NoMemory => ParseFault::NoMemory,
        }
    }
}
