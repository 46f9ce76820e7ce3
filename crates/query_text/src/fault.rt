//! Why what a store says and lists was not printed.
ghost use Rattle.std.specs.Prelude.{◌≡◌};
ghost use Rattle.query_text.specs.declared.fault.AnswerFault.TheVariants.{NoMemory, WriteFault};

use disk_model::FormKind;
use io_edge::Failed;
use std::alloc::{AllocError, AllocFailed};

/// Why what a store says and lists was not printed, or not all of it.
#[derive(Clone, Copy, Debug, PartialEq, Eq)]
pub enum AnswerFault {
    /// A call of the disk failed: its count rose.
    DiskFault,
    /// The bytes of a partition's file break a rule, at this place, in bytes from 0.
    BadStore {
        file: u32,
        place: u64,
        kind: FormKind,
    },
    /// A write of the sink failed: its count rose.
    WriteFault,
    /// Memory was wanted.
    NoMemory,
}

impl From<AllocError> for AnswerFault {
    ghost from_gives = { λ _ e. e ≡ NoMemory };

    fn from(_e: AllocError) -> AnswerFault {
        AnswerFault::NoMemory
    }
}

impl<T: Drop> From<AllocFailed<T>> for AnswerFault {
    ghost from_gives = { λ _ e. e ≡ NoMemory };

    fn from(_e: AllocFailed<T>) -> AnswerFault {
        AnswerFault::NoMemory
    }
}

impl From<Failed> for AnswerFault {
    ghost from_gives = { λ _ e. e ≡ WriteFault };

    fn from(_e: Failed) -> AnswerFault {
        AnswerFault::WriteFault
    }
}
