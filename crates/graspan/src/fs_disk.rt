//! A folder of the system as a disk: the trusted edge. No clause says what its files hold.
ghost use Rattle.std.specs.Prelude.{◌≡◌, ◌+◌, ◌<◌, ◌≤◌, ◌^◌, false, [], length, IfOk};
ghost use Rattle.std.proofs.lemmas.Bool.{false≢true};
ghost use Rattle.faults.specs.Counts.{HasFailed};

use crate::failure::Reason;
use crate::folder_lock::{FolderLock, lock_folder};
use crate::heading::heading_of;
use crate::progress::Progress;
use disk_model::{Disk, Failed};
use std::fs::{File, OpenFile, OpenOptions};
use std::io::{ErrorKind, Read, Seek, SeekFrom, Write};
use std::rt::Files;
use std::time::Clock;
use std::{fs, io};

/// The number of files that a disk has.
const FILES: usize = 1024;

/// The files below are the slots of the manifest, whose body begins at a place.
const SLOTS: u32 = 2;

const BODY: u64 = 1;

/// The bytes that are written again at a time.
const PIECE: usize = 4096;

/// The first file that may hold a partition.
const FIRST_PARTITION: u32 = 4;

/// A file that is open.
#[derive(Drop)]
struct Held<F: Drop> {
    number: u32,
    may_write: bool,
    file: F,
}

/// A folder with the files `g0000` to `g1023`. A file that isn't there is an empty one.
///
/// The one that was used last is kept open. Each call of a disk whose folder couldn't be made fails. The first call
/// that changes a file or syncs locks the folder until the disk is gone; where another process holds the lock, this and
/// each such call fails. Calls that only read want no lock.
#[derive(Drop)]
pub(crate) struct FsDisk<'a, R: Files<File = File> + AllocGlobal + Clock + Eprint> {
    rt: &'a R,
    folder: Option<String>,
    lock: FolderLock,
    last: Option<Held<R::File>>,
    // The files that may have changed since the last sync: all of them before the first one.
    unsynced: [bool; 1024],
    has_synced: bool,
    faults: u64,
    // What a person is told of a call that failed.
    reason: Reason,
    progress: &'a Progress<'a, R>,
}

// Makes the folder where it isn't there.
fn make_folder<R: Files + AllocGlobal>(rt: &R, path: &str) -> io::Result<String> {
    if let Err(e) = fs::create_dir(rt, path) {
        if e.kind() != ErrorKind::AlreadyExists || !fs::metadata(rt, path)?.is_dir() {
            return Err(e);
        }
    }
    Ok(String::from_str(rt.alloc(), path)?)
}

// Reads until the buffer is full or the file ends, and answers how many bytes came.
fn read_on<F: Read>(file: &mut F, buf: &mut [u8]) -> io::Result<usize>
    ensures { IfOk result (λ n. n ≤ length buf.new) }
{
    let mut done = 0;
    while done < buf.len() {
        let n = file.read(&mut buf[done..])?;
        if n == 0 {
            return Ok(done);
        }
        done += n;
    }
    Ok(done)
}

// Writes a piece of a file again at its place.
fn rewrite_piece<F: Read + Write + Seek>(file: &mut F, at: u64) -> io::Result<()> {
    let mut buf = [0u8; PIECE];
    file.seek(SeekFrom::Start(at))?;
    let n = read_on(file, &mut buf)?;
    file.seek(SeekFrom::Start(at))?;
    file.write_all(&buf[..n])
}

// Writes each piece of a file of this length again at its place.
fn rewrite_all<F: Read + Write + Seek>(file: &mut F, len: u64) -> io::Result<()> {
    for piece in 0..len.div_ceil(PIECE as u64) {
        rewrite_piece(file, piece.saturating_mul(PIECE as u64))?;
    }
    Ok(())
}

// None where the file isn't there.
fn if_there<T: Drop>(opened: io::Result<T>) -> io::Result<Option<T>> {
    match opened {
        Ok(value) => Ok(Some(value)),
        Err(e) if e.kind() == ErrorKind::NotFound => Ok(None),
        Err(e) => Err(e),
    }
}

impl<'a, R: Files<File = File> + AllocGlobal + Clock + Eprint> FsDisk<'a, R> {
    /// The disk in this folder, which is made where it isn't there.
    pub(crate) fn new(rt: &'a R, path: &str, progress: &'a Progress<'a, R>) -> Self {
        let mut disk = Self::without_folder(rt, progress);
        match make_folder(rt, path) {
            Ok(folder) => disk.folder = Some(folder),
            Err(e) => disk.reason.note(e.kind()),
        }
        disk
    }

    /// The disk of a command that leaves its folder alone: each call fails.
    pub(crate) fn without_folder(rt: &'a R, progress: &'a Progress<'a, R>) -> Self {
        FsDisk {
            rt,
            folder: None,
            lock: FolderLock::Unasked,
            last: None,
            unsynced: [true; FILES],
            has_synced: false,
            faults: 0,
            reason: Reason::none(),
            progress,
        }
    }

    /// Whether the folder is there.
    pub(crate) fn is_there(&self) -> bool {
        self.folder.is_some()
    }

    /// Why the first call that failed did so.
    pub(crate) fn reason(&self) -> Reason {
        self.reason
    }

    /// What is known of the lock on the folder.
    pub(crate) fn lock(&self) -> &FolderLock {
        &self.lock
    }

    // The path of the folder.
    fn folder(&self) -> io::Result<&str> {
        match &self.folder {
            Some(folder) => Ok(folder.as_str()),
            None => Err(io::Error::from(ErrorKind::InvalidInput)),
        }
    }

    // Holds the lock on the folder from now on, or fails. What was refused once stays refused, since files that were read
    // may have changed meanwhile.
    fn hold_lock(&mut self) -> io::Result<()>
        ensures faults { self.new.faults ≡ self.old.faults }
    {
        if let FolderLock::Unasked = self.lock {
            self.lock = lock_folder(self.rt, self.folder()?)?;
        }
        match self.lock {
            FolderLock::Held(_) => Ok(()),
            _ => Err(io::Error::from(ErrorKind::WouldBlock)),
        }
    }

    // The path of a file.
    fn path(&self, number: u32) -> io::Result<String> {
        let folder = self.folder()?;
        Ok(format!(in self.rt.alloc(); "{folder}/g{number:04}")?)
    }

    // Opens a file, which is made only where it is to be written.
    fn open(&self, number: u32, may_write: bool) -> io::Result<Held<R::File>> {
        let path = self.path(number)?;
        let mut how = OpenOptions::new();
        how.read(true);
        how.write(may_write);
        how.create(may_write);
        Ok(Held {
            number,
            may_write,
            file: how.open(self.rt, path.as_str())?,
        })
    }

    // The file that is open, or opens it.
    fn held(&mut self, number: u32, may_write: bool) -> io::Result<Held<R::File>>
        ensures faults { self.new.faults ≡ self.old.faults }
    {
        match self.last.take() {
            Some(held) if held.number == number && (held.may_write || !may_write) => Ok(held),
            _ => self.open(number, may_write),
        }
    }

    fn len_of(&mut self, number: u32) -> io::Result<u64>
        ensures faults { self.new.faults ≡ self.old.faults }
    {
        let Some(held) = if_there(self.held(number, false))? else {
            return Ok(0);
        };
        let len = held.file.metadata()?.len();
        self.last = Some(held);
        Ok(len)
    }

    fn read_from(&mut self, number: u32, at: u64, buf: &mut [u8]) -> io::Result<usize>
        ensures count { IfOk result (λ n. n ≤ length buf.new) }
        ensures faults { self.new.faults ≡ self.old.faults }
    {
        let Some(mut held) = if_there(self.held(number, false))? else {
            return Ok(0);
        };
        held.file.seek(SeekFrom::Start(at))?;
        let n = read_on(&mut held.file, buf)?;
        self.last = Some(held);
        self.watch(number, at, &buf[..n], false);
        Ok(n)
    }

    // A file that may have changed is synced by the next sync.
    fn note(&mut self, number: u32)
        requires { number < 1024 }
        ensures faults { self.new.faults ≡ self.old.faults }
    {
        self.unsynced[number as usize] = true;
    }

    fn write_from(&mut self, number: u32, at: u64, bytes: &[u8]) -> io::Result<()>
        requires { number < 1024 }
        ensures faults { self.new.faults ≡ self.old.faults }
    {
        if bytes.is_empty() {
            return Ok(());
        }
        self.hold_lock()?;
        self.note(number);
        let mut held = self.held(number, true)?;
        held.file.seek(SeekFrom::Start(at))?;
        held.file.write_all(bytes)?;
        self.last = Some(held);
        self.watch(number, at, bytes, true);
        Ok(())
    }

    fn cut_to(&mut self, number: u32, len: u64) -> io::Result<()>
        requires { number < 1024 }
        ensures faults { self.new.faults ≡ self.old.faults }
    {
        if self.len_of(number)? <= len {
            return Ok(());
        }
        self.hold_lock()?;
        self.note(number);
        let held = self.held(number, true)?;
        held.file.set_len(len)?;
        self.last = Some(held);
        Ok(())
    }

    // Tells the line of progress what was read or written. Slots of the manifest are read and written whole.
    fn watch(&self, number: u32, at: u64, bytes: &[u8], is_written: bool) {
        if !self.progress.is_on() {
            return;
        }
        if is_written {
            self.progress.wrote(bytes.len());
        } else if number >= FIRST_PARTITION {
            self.progress.loaded(bytes.len());
        }
        if number < SLOTS && at == BODY {
            if let Some(heading) = heading_of(self.rt.alloc(), bytes) {
                self.progress.heading(heading, is_written);
            }
        }
    }

    // Writes the bytes of a file again as they read.
    fn write_again(&mut self, number: u32) -> io::Result<()>
        ensures faults { self.new.faults ≡ self.old.faults }
    {
        let len = self.len_of(number)?;
        if len > 0 {
            let mut held = self.held(number, true)?;
            rewrite_all(&mut held.file, len)?;
            self.last = Some(held);
        }
        Ok(())
    }

    // Writes the slots of the manifest again before the first sync that succeeds.
    //
    // Where a sync of an earlier run failed, the system may have kept what it couldn't write as if it were written:
    // reads give it, and no later sync takes it to the disk. Then this run would read a slot that a power cut takes
    // away, and close the other one. Bytes that are written again are synced again. Other files need none of it: a
    // manifest names them only after a sync that succeeded.
    fn refresh_slots(&mut self) -> io::Result<()>
        ensures faults { self.new.faults ≡ self.old.faults }
    {
        if !self.has_synced {
            self.write_again(0)?;
            self.write_again(1)?;
        }
        Ok(())
    }

    // Syncs a file, where it is there.
    fn sync_file(&mut self, number: u32) -> io::Result<()>
        requires { number < 1024 }
        ensures faults { self.new.faults ≡ self.old.faults }
    {
        if let Some(held) = if_there(self.held(number, false))? {
            held.file.sync_all()?;
            self.last = Some(held);
        }
        self.unsynced[number as usize] = false;
        Ok(())
    }

    // Syncs the folder, so that it knows its files.
    fn sync_folder(&self) -> io::Result<()> {
        File::open(self.rt, self.folder()?)?.sync_all()
    }

    // Syncs under the lock.
    fn sync_held(&mut self) -> io::Result<()>
        ensures faults { self.new.faults ≡ self.old.faults }
    {
        self.hold_lock()?;
        self.refresh_slots()?;
        self.sync_all()?;
        self.has_synced = true;
        Ok(())
    }

    // Syncs each file that may have changed since the last sync, and the folder.
    fn sync_all(&mut self) -> io::Result<()>
        ensures faults { self.new.faults ≡ self.old.faults }
    {
        for number in 0..FILES {
            if self.unsynced[number] {
                self.sync_file(number as u32)?;
            }
        }
        self.sync_folder()
    }

    // A call that failed raises the count.
    fn fail(&mut self, error: io::Error) -> Failed
        ensures { HasFailed self.old.faults self.new.faults }
    {
        self.reason.note(error.kind());
        self.faults = self.faults.saturating_add(1);
        Failed
    }
}

impl<R: Files<File = File> + AllocGlobal + Clock + Eprint> Disk for FsDisk<'_, R> {
    ghost tells = { false };

    ghost seen = { λ disk f. [] };

    ghost may_leave = { λ disk c. ⊥ };

    ghost moment = { λ disk. 0 };

    ghost left_since = { λ disk t c. ⊥ };

    ghost faults = { λ disk. disk.faults };

    ghost told = { λ disk c image. absurd image };

    ghost honest = { λ disk tells. absurd (false≢true tells) };

    ghost mixes = { λ disk a b c image. absurd image };

    ghost counts_now = { λ disk t c le image. image };

    ghost only_now = { λ disk c image. image };

    fn len(&mut self, file: u32) -> Result<u64, Failed> {
        match self.len_of(file) {
            Ok(len) => Ok(len),
            Err(e) => Err(self.fail(e)),
        }
    }

    fn read(&mut self, file: u32, at: u64, buf: &mut [u8]) -> Result<usize, Failed> {
        match self.read_from(file, at, buf) {
            Ok(n) => Ok(n),
            Err(e) => Err(self.fail(e)),
        }
    }

    fn write_at(&mut self, file: u32, at: u64, bytes: &[u8]) -> Result<(), Failed> {
        match self.write_from(file, at, bytes) {
            Ok(()) => Ok(()),
            Err(e) => Err(self.fail(e)),
        }
    }

    fn cut(&mut self, file: u32, len: u64) -> Result<(), Failed> {
        match self.cut_to(file, len) {
            Ok(()) => Ok(()),
            Err(e) => Err(self.fail(e)),
        }
    }

    fn sync(&mut self) -> Result<(), Failed> {
        match self.sync_held() {
            Ok(()) => Ok(()),
            Err(e) => Err(self.fail(e)),
        }
    }
}
