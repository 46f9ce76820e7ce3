//! Inputs in memory that never fail.
ghost use Rattle.std.specs.Prelude.{◌≡◌, ◌+◌, ◌-◌, ◌<◌, ◌≤◌, ◌^◌, ℕ, List, Option, Some, length, IfOk, IsOk};
ghost use Rattle.faults.specs.Counts.{HasCause};
ghost use Rattle.io_edge.specs.Devices.{GivesBytes};
ghost use Rattle.io_edge.specs.MemFiles.{first_named, bytes_or_none, sure_bytes, read_len};

use crate::named_bytes::{NamedBytes, copy_part, find_file};
use crate::{Failed, Inputs};
use std::marker::Model;

/// Files in memory. Of a name that stands there more than once the first file counts, and a name
/// that isn't there is an empty file. No read fails.
#[derive(Drop)]
pub struct SureInputs {
    files: Vec<NamedBytes>,
}

impl Model for SureInputs {
    ghost use Rattle.std.specs.Prelude.{List};
    ghost use Rattle.io_edge.specs.MemFiles.{NamedFile};

    ghost Value = { List NamedFile };

    ghost view = { λ s. s.files.items };
}

impl SureInputs {
    /// These files. Takes no memory.
    pub fn new(files: Vec<NamedBytes>) -> SureInputs
        ensures { result ≡ files.items }
    {
        SureInputs { files }
    }
}

impl Inputs for SureInputs {
    ghost told = { sure_bytes };

    ghost faults = { λ _ _. 0 };

    fn read(&mut self, name: &str, at: u64, buf: &mut [u8]) -> Result<usize, Failed>
        requires { at + length buf.old < 2 ^ 64 }
        ensures count { IfOk result (λ n. n ≤ length buf.new) }
        ensures bytes { IfOk result (λ n. (file : List ℕ) → sure_bytes self.old name.now ≡ Some file → GivesBytes file at buf.new n) }
        // It reads all that is there and fits.
        ensures whole { IfOk result (λ n. n ≡ read_len (bytes_or_none (first_named self.old name.now)) at (length buf.new)) }
        ensures sure { IsOk result }
        ensures same { self.new ≡ self.old }
        ensures kept { sure_bytes self.new ≡ sure_bytes self.old }
        ensures others { (other : List ℕ) → 0 ≤ 0 }
        ensures cause { HasCause 0 0 result }
    {
        match find_file(&self.files, name) {
            None => Ok(0),
            Some(bytes) => Ok(copy_part(bytes, at, buf)),
        }
    }
}
