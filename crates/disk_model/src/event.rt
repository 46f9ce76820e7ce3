//! The record of the calls on a disk in memory.

/// A call that changed a file, or tried to, or a sync; and whether it was made or failed.
#[derive(Drop)]
pub(crate) enum Event {
    Write {
        file: u32,
        at: u64,
        bytes: Vec<u8>,
        made: bool,
    },
    Cut {
        file: u32,
        len: u64,
        made: bool,
    },
    Sync {
        made: bool,
    },
}
