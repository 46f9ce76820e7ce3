//! Why a call of a store has no answer.
ghost use Rattle.std.specs.Prelude.{◌≡◌};
ghost use Rattle.store_fault.specs.declared.fault.StoreFault.TheVariants.{DiskFault, NoMemory, ReadFault};
ghost use Rattle.store_fault.specs.Faults.{of_edges, of_open, of_switch};

use disk_model::Failed;
use edge_text::EdgesFault;
use faults::{FormKind, InputFile, InputKind};
use manifest_switch::{OpenFault, SwitchFault};
use std::alloc::{AllocError, AllocFailed};
use thiserror::Error;

/// Why a call of a store has no answer. After a fault the disk is opened again.
///
/// Its texts are for people: no clause and no line of the program rests on them.
#[derive(Debug, Drop, Error)]
pub enum StoreFault {
    /// A read of an input failed: the count of its name rose.
    #[error("an input could not be read")]
    ReadFault,
    /// A call of the disk failed: its count rose.
    #[error("a call of the disk failed")]
    DiskFault,
    /// An input's text has this first fault, in the line with this number, counted from 1.
    #[error("line {line} of the input {file:?} has the fault {kind:?}")]
    InputFault {
        file: InputFile,
        line: u64,
        kind: InputKind,
    },
    /// An input isn't the text of the store. They differ first at this place, in bytes from 0.
    #[error("the input {file:?} is not that of the store: they differ first at byte {place}")]
    OtherInput {
        file: InputFile,
        place: u64,
    },
    /// The bytes of a file of the store break a rule, at this place, in bytes from 0.
    #[error("file {file} of the store is broken at byte {place}: {kind:?}")]
    BadStore {
        file: u32,
        place: u64,
        kind: FormKind,
    },
    /// Memory was wanted.
    #[error("out of memory")]
    NoMemory,
}

impl From<AllocError> for StoreFault {
    ghost from_gives = { λ _ e. e ≡ NoMemory };

    fn from(_e: AllocError) -> StoreFault {
        StoreFault::NoMemory
    }
}

impl<T: Drop> From<AllocFailed<T>> for StoreFault {
    ghost from_gives = { λ _ e. e ≡ NoMemory };

    fn from(_e: AllocFailed<T>) -> StoreFault {
        StoreFault::NoMemory
    }
}

impl From<Failed> for StoreFault {
    ghost from_gives = { λ _ e. e ≡ DiskFault };

    fn from(_e: Failed) -> StoreFault {
        StoreFault::DiskFault
    }
}

impl From<io_edge::Failed> for StoreFault {
    ghost from_gives = { λ _ e. e ≡ ReadFault };

    fn from(_e: io_edge::Failed) -> StoreFault {
        StoreFault::ReadFault
    }
}

impl From<SwitchFault> for StoreFault {
    ghost from_gives = { λ f e. e ≡ of_switch f };

    fn from(fault: SwitchFault) -> StoreFault {
        match fault {
            SwitchFault::DiskFault => StoreFault::DiskFault,
            SwitchFault::NoMemory => StoreFault::NoMemory,
        }
    }
}

impl From<OpenFault> for StoreFault {
    ghost from_gives = { λ f e. e ≡ of_open f };

    fn from(fault: OpenFault) -> StoreFault {
        match fault {
            OpenFault::DiskFault => StoreFault::DiskFault,
            OpenFault::BadStore { file, place, kind } => StoreFault::BadStore { file, place, kind },
            OpenFault::NoMemory => StoreFault::NoMemory,
        }
    }
}

impl From<EdgesFault> for StoreFault {
    ghost from_gives = { λ f e. e ≡ of_edges f };

    fn from(fault: EdgesFault) -> StoreFault {
        match fault {
            EdgesFault::ReadFailed => StoreFault::ReadFault,
            EdgesFault::Text { line, kind } => StoreFault::InputFault {
                file: InputFile::Edges,
                line,
                kind,
            },
            EdgesFault::NoMemory => StoreFault::NoMemory,
        }
    }
}
