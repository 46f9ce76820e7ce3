//! The lock on the folder of a store: one process at a time changes it. The trusted edge, of which no clause speaks.
use std::fs::{File, TryLockError};
use std::os::unix::fs::MetadataExt as _;
use std::rt::Files;
use std::{fs, io};

/// The lock on a folder, as far as this process knows of it.
#[derive(Drop)]
pub(crate) enum FolderLock {
    /// It wasn't asked for yet.
    Unasked,
    /// It is held as long as the folder is open here. The system releases it where the process ends, also by a kill.
    Held(File),
    /// Another process held it: its number, where the system tells it.
    Refused(Option<u32>),
}

// The words by which the system's list of locks names a file: its device's two numbers and its own.
fn place_of<R: AllocGlobal>(rt: &R, file: &File) -> Option<String> {
    let metadata = file.metadata().ok()?;
    let device = metadata.dev();
    let major = (device >> 8) & 0xfff;
    let minor = (device & 0xff) | ((device >> 12) & 0xfff00);
    format!(in rt.alloc(); "{major:02x}:{minor:02x}:{}", metadata.ino()).ok()
}

// The process in a line of that list, as `3: FLOCK  ADVISORY  WRITE 4711 fe:00:1234 0 EOF`, where it locks this file.
fn process_in(line: &str, place: &str) -> Option<u32> {
    let mut words = line.split_whitespace();
    if words.nth(1)? != "FLOCK" {
        return None;
    }
    let process = words.nth(2)?;
    if words.next()? != place {
        return None;
    }
    process.parse().ok()
}

// The process that holds the lock on a folder. A system without that list, or one that names the file otherwise there,
// doesn't tell it.
fn holder_of<R: Files + AllocGlobal>(rt: &R, folder: &File) -> Option<u32> {
    let place = place_of(rt, folder)?;
    let list = fs::read_to_string(rt, "/proc/locks").ok()?;
    for line in list.as_str().lines() {
        if let Some(process) = process_in(line, place.as_str()) {
            return Some(process);
        }
    }
    None
}

/// Asks for the lock on a folder, and waits for no one.
///
/// The folder itself is locked (`flock`), so that no file is added to those of the store.
pub(crate) fn lock_folder<R: Files<File = File> + AllocGlobal>(
    rt: &R,
    path: &str,
) -> io::Result<FolderLock> {
    let folder = File::open(rt, path)?;
    match folder.try_lock() {
        Ok(()) => Ok(FolderLock::Held(folder)),
        Err(TryLockError::WouldBlock) => Ok(FolderLock::Refused(holder_of(rt, &folder))),
        Err(TryLockError::Error(e)) => Err(e),
    }
}
