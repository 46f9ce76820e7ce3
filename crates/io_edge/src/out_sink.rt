//! A sink over a writer of std.
ghost use Rattle.std.specs.Prelude.{◌≡◌, ◌+◌, ◌-◌, ◌^◌, ◌≤◌, min, drop, length, is_ok, if◌then◌else◌};
ghost use Rattle.faults.specs.Counts.{HasCause, one_more};
ghost use Rattle.io_edge.specs.Devices.{Takes};

use crate::{Failed, Sink};
use std::io::Write;

/// Prints to a writer, and tells what the writer tells.
///
/// A write that takes nothing of a piece that isn't empty has failed.
#[derive(Drop)]
pub struct OutSink<W: Write> {
    to: W,
    faults: u64,
}

impl<W: Write> OutSink<W> {
    /// A sink over this writer, and no faults yet.
    pub fn new(to: W) -> OutSink<W>
        ensures { result ≡ record { to = to; faults = 0 } }
    {
        OutSink { to, faults: 0 }
    }
}

impl<W: Write> Sink for OutSink<W> {
    ghost told = { λ s. W.contents s.to };

    ghost faults = { λ s. s.faults };

    fn write(&mut self, bytes: &[u8]) -> Result<(), Failed>
        ensures taken { Takes (W.contents self.old.to) (W.contents self.new.to) result bytes.now }
        ensures cause { HasCause self.old.faults self.new.faults result }
        ensures count { self.new.faults ≡ (if is_ok result then self.old.faults else one_more self.old.faults) }
    {
        let outcome = write_whole(&mut self.to, bytes);
        if outcome.is_err() {
            self.faults = self.faults.saturating_add(1);
        }
        outcome
    }
}

// Writes on until all is taken, and fails where a write does or takes nothing.
fn write_whole<W: Write>(to: &mut W, bytes: &[u8]) -> Result<(), Failed>
    ensures { Takes (W.contents to.old) (W.contents to.new) result bytes.now }
{
    let mut done = 0;
    while done < bytes.len() {
        match to.write(&bytes[done..]) {
            Ok(0) => return Err(Failed),
            Ok(n) => done += n,
            Err(_) => return Err(Failed),
        }
    }
    Ok(())
}
