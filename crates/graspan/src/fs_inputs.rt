//! Files of the system as inputs: the trusted edge. No clause says what they hold.
ghost use Rattle.std.specs.Prelude.{◌≡◌, ◌+◌, ◌<◌, ◌≤◌, ◌^◌, None, IfOk, length};

use crate::failure::Reason;
use crate::progress::Progress;
use io_edge::{Failed, Inputs};
use std::fs::{File, OpenFile as _};
use std::io;
use std::io::{ErrorKind, Read, Seek, SeekFrom};
use std::rt::Files;
use std::time::Clock;

/// A file that is open, and the place from which its next read gives bytes.
#[derive(Drop)]
struct OpenFile<F: Drop> {
    name: String,
    file: F,
    place: u64,
    // How long it was when it was opened, and 0 where the system doesn't say.
    len: u64,
}

/// Files of the system by their paths. The one that was read last is kept open, so that a pipe can be read too.
#[derive(Drop)]
pub(crate) struct FsInputs<'a, R: Files + AllocGlobal + Clock + Eprint> {
    rt: &'a R,
    last: Option<OpenFile<R::File>>,
    faults: u64,
    // What a person is told of a read that failed.
    failed_name: Option<String>,
    reason: Reason,
    progress: &'a Progress<'a, R>,
}

impl<'a, R: Files + AllocGlobal + Clock + Eprint> FsInputs<'a, R> {
    /// No file is open yet.
    pub(crate) fn new(rt: &'a R, progress: &'a Progress<'a, R>) -> Self {
        FsInputs {
            rt,
            last: None,
            faults: 0,
            failed_name: None,
            reason: Reason::none(),
            progress,
        }
    }

    /// The name of the first file that couldn't be read, empty where all could.
    pub(crate) fn failed_name(&self) -> &str {
        match &self.failed_name {
            Some(name) => name.as_str(),
            None => "",
        }
    }

    /// Why it couldn't be read.
    pub(crate) fn reason(&self) -> Reason {
        self.reason
    }

    // Keeps what is told of a read that failed.
    fn note(&mut self, name: &str, kind: ErrorKind)
        ensures faults { self.new.faults ≡ self.old.faults }
    {
        if self.failed_name.is_none() {
            self.failed_name = String::from_str(self.rt.alloc(), name).ok();
        }
        self.reason.note(kind);
    }

    // Opens a file at its first byte.
    fn open(&self, name: &str) -> io::Result<OpenFile<R::File>>
        ensures { IfOk result (λ held. held.place ≡ 0) }
    {
        let file = File::open(self.rt, name)?;
        let len = match file.metadata() {
            Ok(metadata) => metadata.len(),
            Err(_) => 0,
        };
        Ok(OpenFile {
            name: String::from_str(self.rt.alloc(), name)?,
            file,
            place: 0,
            len,
        })
    }

    fn read_at(&mut self, name: &str, at: u64, buf: &mut [u8]) -> io::Result<usize>
        requires { at + length buf.old < 2 ^ 64 }
        ensures count { IfOk result (λ n. n ≤ length buf.new) }
        ensures faults { self.new.faults ≡ self.old.faults }
    {
        let mut open = match self.last.take() {
            Some(open) if open.name.as_str() == name => open,
            _ => self.open(name)?,
        };
        if open.place != at {
            open.file.seek(SeekFrom::Start(at))?;
        }
        let n = open.file.read(buf)?;
        open.place = at + n as u64;
        self.progress.read(open.place, open.len);
        self.last = Some(open);
        Ok(n)
    }
}

impl<R: Files + AllocGlobal + Clock + Eprint> Inputs for FsInputs<'_, R> {
    ghost told = { λ _ _. None };

    ghost faults = { λ f _. f.faults };

    fn read(&mut self, name: &str, at: u64, buf: &mut [u8]) -> Result<usize, Failed> {
        match self.read_at(name, at, buf) {
            Ok(n) => Ok(n),
            Err(e) => {
                self.note(name, e.kind());
                self.faults = self.faults.saturating_add(1);
                Err(Failed)
            }
        }
    }
}
