//! The slots, and what calls on them answer.
ghost use Rattle.std.specs.Prelude.{◌≡◌, ◌<◌};
ghost use Rattle.manifest_switch.specs.Slots.{file_of, other};
ghost use Rattle.manifest_switch.specs.declared.slot.OpenFault.TheVariants as open_faults;
ghost use Rattle.manifest_switch.specs.declared.slot.SwitchFault.TheVariants as switch_faults;

use disk_model::{Failed, FormKind};
use manifest_codec::{Manifest, ManifestFault};
use std::alloc::{AllocError, AllocFailed};

/// One of the two files that hold a manifest behind a gate. The gate is the file's first byte, and
/// the slot is open where the file has at least 2 bytes and the gate is 1.
#[derive(Clone, Copy, Debug, PartialEq, Eq)]
pub enum Slot {
    /// File 0.
    Zero,
    /// File 1.
    One,
}

impl Slot {
    /// The number of its file.
    pub fn file(self) -> u32
        ensures number { result ≡ file_of self }
        ensures within { result < 1024 }
    {
        match self {
            Slot::Zero => 0,
            Slot::One => 1,
        }
    }

    /// The other one.
    pub fn other(self) -> Slot
        ensures { result ≡ other self }
    {
        match self {
            Slot::Zero => Slot::One,
            Slot::One => Slot::Zero,
        }
    }
}

/// What a store holds.
#[derive(Drop)]
pub enum Found {
    /// No slot is open.
    Blank,
    /// The slot that is current, and its manifest.
    At(Slot, Manifest),
}

/// Why no manifest was found.
#[derive(Debug, Drop)]
pub enum OpenFault {
    /// A call of the disk failed.
    DiskFault,
    /// The bytes of a file break a rule: that of an open slot's format, or, at the generation of
    /// file 1, that two open slots have different ones.
    BadStore {
        /// The number of the file, 0 or 1.
        file: u32,
        /// The place of the first byte of the field that breaks it, in bytes from 0.
        place: u64,
        /// The rule.
        kind: FormKind,
    },
    /// There was no memory for the bytes or for what they say.
    NoMemory,
}

impl From<AllocError> for OpenFault {
    ghost from_gives = { λ _ e. e ≡ open_faults.NoMemory };

    fn from(_e: AllocError) -> OpenFault {
        OpenFault::NoMemory
    }
}

impl<T: Drop> From<AllocFailed<T>> for OpenFault {
    ghost from_gives = { λ _ e. e ≡ open_faults.NoMemory };

    fn from(_e: AllocFailed<T>) -> OpenFault {
        OpenFault::NoMemory
    }
}

impl From<Failed> for OpenFault {
    ghost from_gives = { λ _ e. e ≡ open_faults.DiskFault };

    fn from(_e: Failed) -> OpenFault {
        OpenFault::DiskFault
    }
}

/// Why no switch was made, or none that is known to be whole.
#[derive(Clone, Copy, Debug, PartialEq, Eq)]
pub enum SwitchFault {
    /// A call of the disk failed.
    DiskFault,
    /// There was no memory for the manifest's bytes. No call of the disk was made.
    NoMemory,
}

impl From<AllocError> for SwitchFault {
    ghost from_gives = { λ _ e. e ≡ switch_faults.NoMemory };

    fn from(_e: AllocError) -> SwitchFault {
        SwitchFault::NoMemory
    }
}

impl From<Failed> for SwitchFault {
    ghost from_gives = { λ _ e. e ≡ switch_faults.DiskFault };

    fn from(_e: Failed) -> SwitchFault {
        SwitchFault::DiskFault
    }
}
