//! Inputs in memory, of which chosen calls fail.
ghost use Rattle.std.specs.Prelude.{◌≡◌, ◌⊎◌, ◌+◌, ◌-◌, ◌<◌, ◌≤◌, ◌^◌, ◌↔◌, ℕ, List, [], Option, Some, None, length, Contains, IfOk, IsErr, is_ok};
ghost use Rattle.faults.specs.Counts.{HasCause};
ghost use Rattle.io_edge.specs.Devices.{GivesBytes};
ghost use Rattle.io_edge.specs.MemFiles.{first_named, after_read, read_len};

use crate::named_bytes::{NamedBytes, copy_part, find_file};
use crate::{Failed, Inputs};
use std::marker::Model;

/// Files in memory. Of a name that stands there more than once the first file counts.
///
/// The calls of `read` are counted from 0; chosen calls fail, and so does a read of a name that
/// isn't there. One count of faults serves all names.
#[derive(Drop)]
pub struct MemInputs {
    files: Vec<NamedBytes>,
    failing: Vec<u64>,
    calls: u64,
    faults: u64,
}

impl Model for MemInputs {
    ghost use Rattle.io_edge.specs.MemFiles.{FilesRead};

    ghost Value = { FilesRead };

    ghost view = { λ m. record { files = m.files.items; failing = m.failing.items; calls = m.calls; faults = m.faults } };
}

impl MemInputs {
    /// These files, and no failing calls. Takes no memory.
    pub fn new(files: Vec<NamedBytes>) -> MemInputs
        ensures { result ≡ record { files = files.items; failing = []; calls = 0; faults = 0 } }
    {
        let failing = Vec::new(*files.allocator());
        MemInputs {
            files,
            failing,
            calls: 0,
            faults: 0,
        }
    }

    /// From now on the calls of `read` with these numbers, counted from 0 since `new`, fail, and
    /// no others of names that are there.
    pub fn fail_calls(&mut self, calls: Vec<u64>)
        ensures { self.new ≡ record self.old { failing = calls.items } }
    {
        self.failing = calls;
    }
}

impl Inputs for MemInputs {
    ghost told = { λ m. first_named m.files };

    ghost faults = { λ m _. m.faults };

    fn read(&mut self, name: &str, at: u64, buf: &mut [u8]) -> Result<usize, Failed>
        requires { at + length buf.old < 2 ^ 64 }
        ensures count { IfOk result (λ n. n ≤ length buf.new) }
        ensures bytes { IfOk result (λ n. (file : List ℕ) → first_named self.old.files name.now ≡ Some file → GivesBytes file at buf.new n) }
        ensures kept { first_named self.new.files ≡ first_named self.old.files }
        ensures others { self.old.faults ≤ self.new.faults }
        ensures cause { HasCause self.old.faults self.new.faults result }
        // It reads all that is there and fits.
        ensures whole { IfOk result (λ n. (file : List ℕ) → first_named self.old.files name.now ≡ Some file → n ≡ read_len file at (length buf.new)) }
        ensures failed { IsErr result ↔ (Contains self.old.failing self.old.calls ⊎ (first_named self.old.files name.now ≡ None)) }
        ensures step { self.new ≡ after_read self.old (is_ok result) }
    {
        let call = self.calls;
        self.calls = call.saturating_add(1);
        let outcome = read_call(&self.files, &self.failing, call, name, at, buf);
        if outcome.is_err() {
            self.faults = self.faults.saturating_add(1);
        }
        outcome
    }
}

// A read as the call with this number.
fn read_call(
    files: &[NamedBytes],
    failing: &[u64],
    call: u64,
    name: &str,
    at: u64,
    buf: &mut [u8],
) -> Result<usize, Failed>
    ensures failed { IsErr result ↔ (Contains failing.now call ⊎ (first_named files.now name.now ≡ None)) }
    ensures bytes { IfOk result (λ n. (file : List ℕ) → first_named files.now name.now ≡ Some file
        → GivesBytes file at buf.new n × (n ≡ read_len file at (length buf.new))) }
    ensures count { IfOk result (λ n. n ≤ length buf.new) }
{
    if failing.contains(&call) {
        return Err(Failed);
    }
    match find_file(files, name) {
        None => Err(Failed),
        Some(bytes) => Ok(copy_part(bytes, at, buf)),
    }
}
