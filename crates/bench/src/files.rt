//! Files of the system as an import's input and disk. No clause says what they hold.
ghost use Rattle.std.specs.Prelude.{◌≡◌, ◌≤◌, false, [], length, None, IfOk};
ghost use Rattle.std.proofs.lemmas.Bool.{false≢true};
ghost use Rattle.faults.specs.Counts.{HasFailed};

use disk_model::Disk;
use io_edge::Inputs;
use std::fs::{File, OpenFile, OpenOptions};
use std::io::{ErrorKind, Read, Seek, SeekFrom, Write};
use std::rt::Files;
use std::{fs, io};

/// Files of the system by their paths. Each call opens its file.
#[derive(Drop)]
pub(crate) struct PathInputs<'a, R: Files + AllocGlobal> {
    rt: &'a R,
    faults: u64,
}

impl<'a, R: Files + AllocGlobal> PathInputs<'a, R> {
    /// No read has failed yet.
    pub(crate) fn new(rt: &'a R) -> Self {
        PathInputs { rt, faults: 0 }
    }
}

// The bytes of a file from a place on, as many as one read gives.
fn read_at<R: Files + AllocGlobal>(rt: &R, path: &str, at: u64, buf: &mut [u8]) -> io::Result<usize>
    ensures { IfOk result (λ n. n ≤ length buf.new) }
{
    let mut file = File::open(rt, path)?;
    file.seek(SeekFrom::Start(at))?;
    file.read(buf)
}

impl<R: Files + AllocGlobal> Inputs for PathInputs<'_, R> {
    ghost told = { λ _ _. None };

    ghost faults = { λ f _. f.faults };

    fn read(&mut self, name: &str, at: u64, buf: &mut [u8]) -> Result<usize, io_edge::Failed> {
        match read_at(self.rt, name, at, buf) {
            Ok(n) => Ok(n),
            Err(_) => {
                self.faults = self.faults.saturating_add(1);
                Err(io_edge::Failed)
            }
        }
    }
}

/// A folder whose files `g0`, `g1` and so on are those of a disk. A file that isn't there is an empty one.
///
/// Each call opens its file. A sync does nothing: what is timed is the program, and not the device.
#[derive(Drop)]
pub(crate) struct FolderDisk<'a, R: Files + AllocGlobal> {
    rt: &'a R,
    folder: &'a str,
    faults: u64,
}

impl<'a, R: Files + AllocGlobal> FolderDisk<'a, R> {
    /// The disk of a folder, which is there.
    pub(crate) fn new(rt: &'a R, folder: &'a str) -> Self {
        FolderDisk {
            rt,
            folder,
            faults: 0,
        }
    }

    fn path(&self, number: u32) -> io::Result<String> {
        let folder = self.folder;
        Ok(format!(in self.rt.alloc(); "{folder}/g{number}")?)
    }

    // Opens a file to write it, which is made where it isn't there.
    fn open(&self, number: u32) -> io::Result<R::File> {
        let path = self.path(number)?;
        let mut how = OpenOptions::new();
        how.read(true);
        how.write(true);
        how.create(true);
        how.open(self.rt, path.as_str())
    }

    fn read_from(&self, number: u32, at: u64, buf: &mut [u8]) -> io::Result<usize>
        ensures { IfOk result (λ n. n ≤ length buf.new) }
    {
        let path = self.path(number)?;
        match read_at(self.rt, path.as_str(), at, buf) {
            Err(e) if e.kind() == ErrorKind::NotFound => Ok(0),
            read => read,
        }
    }

    fn write_to(&self, number: u32, at: u64, bytes: &[u8]) -> io::Result<()> {
        let mut file = self.open(number)?;
        file.seek(SeekFrom::Start(at))?;
        file.write_all(bytes)
    }

    fn len_of(&self, number: u32) -> io::Result<u64> {
        let path = self.path(number)?;
        match fs::metadata(self.rt, path.as_str()) {
            Ok(found) => Ok(found.len()),
            Err(e) if e.kind() == ErrorKind::NotFound => Ok(0),
            Err(e) => Err(e),
        }
    }

    fn cut_to(&self, number: u32, len: u64) -> io::Result<()> {
        let file = self.open(number)?;
        if file.metadata()?.len() <= len {
            return Ok(());
        }
        file.set_len(len)
    }

    fn fail(&mut self) -> disk_model::Failed
        ensures { HasFailed self.old.faults self.new.faults }
    {
        self.faults = self.faults.saturating_add(1);
        disk_model::Failed
    }
}

impl<R: Files + AllocGlobal> Disk for FolderDisk<'_, R> {
    ghost tells = { false };

    ghost seen = { λ disk f. [] };

    ghost may_leave = { λ disk c. ⊥ };

    ghost moment = { λ disk. 0 };

    ghost left_since = { λ disk t c. ⊥ };

    ghost faults = { λ disk. disk.faults };

    ghost told = { λ disk c image. absurd image };

    ghost honest = { λ disk tells. absurd (false≢true tells) };

    ghost mixes = { λ disk a b c image. absurd image };

    ghost counts_now = { λ disk t c le image. image };

    ghost only_now = { λ disk c image. image };

    fn len(&mut self, file: u32) -> Result<u64, disk_model::Failed> {
        match self.len_of(file) {
            Ok(len) => Ok(len),
            Err(_) => Err(self.fail()),
        }
    }

    fn read(&mut self, file: u32, at: u64, buf: &mut [u8]) -> Result<usize, disk_model::Failed> {
        match self.read_from(file, at, buf) {
            Ok(n) => Ok(n),
            Err(_) => Err(self.fail()),
        }
    }

    fn write_at(&mut self, file: u32, at: u64, bytes: &[u8]) -> Result<(), disk_model::Failed> {
        match self.write_to(file, at, bytes) {
            Ok(()) => Ok(()),
            Err(_) => Err(self.fail()),
        }
    }

    fn cut(&mut self, file: u32, len: u64) -> Result<(), disk_model::Failed> {
        match self.cut_to(file, len) {
            Ok(()) => Ok(()),
            Err(_) => Err(self.fail()),
        }
    }

    fn sync(&mut self) -> Result<(), disk_model::Failed> {
        Ok(())
    }
}
