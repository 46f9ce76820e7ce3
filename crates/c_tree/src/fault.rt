//! What a reader of tokens refuses.
ghost use Rattle.std.specs.Prelude.{◌≡◌};
ghost use Rattle.c_tree.specs.declared.fault.ReadFault.TheVariants.{NoMemory};

use std::alloc::AllocError;

/// Why no tree goes on with a token.
#[derive(Clone, Copy, PartialEq, Eq, Debug, Drop)]
pub enum Wrong {
    /// Another token was due.
    Unexpected,
    /// Only the bound on levels forbids it.
    TooDeep,
}

/// The first token that no tree goes on with, or no memory.
#[derive(Clone, Copy, Debug, Drop)]
pub enum ReadFault {
    /// The token with this number, counted from 0; the number of all tokens is their end.
    At { token: usize, wrong: Wrong },
    /// Memory was wanted.
    NoMemory,
}

impl From<AllocError> for ReadFault {
    ghost from_gives = { λ _ e. e ≡ NoMemory };

    fn from(_: AllocError) -> ReadFault {
        ReadFault::NoMemory
    }
}

/// Another token was due.
pub fn unexpected(token: usize) -> ReadFault
    ensures { result ≡ ReadFault.At token Wrong.Unexpected }
{
    ReadFault::At {
        token,
        wrong: Wrong::Unexpected,
    }
}

/// The token opens a level too many.
pub fn too_deep(token: usize) -> ReadFault
    ensures { result ≡ ReadFault.At token Wrong.TooDeep }
{
    ReadFault::At {
        token,
        wrong: Wrong::TooDeep,
    }
}
