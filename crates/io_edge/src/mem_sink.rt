//! Sinks in memory: one that keeps what it takes, and one that drops it.
ghost use Rattle.std.specs.Prelude.{◌≡◌, [], Some, None, Contains, IsErr, IsOk, is_ok};
ghost use Rattle.faults.specs.Counts.{HasCause};
ghost use Rattle.io_edge.specs.Devices.{Takes};
ghost use Rattle.io_edge.specs.MemBytes.{after_write};

use crate::{Failed, Sink};
use std::alloc::Global;
use std::marker::Model;

/// Keeps the bytes that it takes.
///
/// The calls of `write` are counted from 0; chosen calls fail, and so does one whose piece finds no
/// memory. A call that fails takes nothing.
#[derive(Drop)]
pub struct MemSink {
    bytes: Vec<u8>,
    failing: Vec<u64>,
    calls: u64,
    faults: u64,
}

impl Model for MemSink {
    ghost use Rattle.io_edge.specs.MemBytes.{BytesTaken};

    ghost Value = { BytesTaken };

    ghost view = { λ s. record { bytes = s.bytes.items; failing = s.failing.items; calls = s.calls; faults = s.faults } };
}

impl MemSink {
    /// No bytes yet, and no failing calls. Takes no memory.
    pub fn new(alloc: Global) -> MemSink
        ensures { result ≡ record { bytes = []; failing = []; calls = 0; faults = 0 } }
    {
        MemSink {
            bytes: Vec::new(alloc),
            failing: Vec::new(alloc),
            calls: 0,
            faults: 0,
        }
    }

    /// From now on the calls of `write` with these numbers, counted from 0 since `new`, fail, and
    /// others only where memory is wanting.
    pub fn fail_calls(&mut self, calls: Vec<u64>)
        ensures { self.new ≡ record self.old { failing = calls.items } }
    {
        self.failing = calls;
    }

    /// The bytes taken so far.
    pub fn bytes(&self) -> &[u8]
        ensures { result.now ≡ self.now.bytes }
    {
        self.bytes.as_slice()
    }
}

impl Sink for MemSink {
    ghost told = { λ s. Some s.bytes };

    ghost faults = { λ s. s.faults };

    fn write(&mut self, bytes: &[u8]) -> Result<(), Failed>
        ensures taken { Takes (Some self.old.bytes) (Some self.new.bytes) result bytes.now }
        ensures cause { HasCause self.old.faults self.new.faults result }
        ensures failing { Contains self.old.failing self.old.calls → IsErr result }
        ensures step { self.new ≡ after_write self.old (is_ok result) bytes.now }
    {
        let fails = self.failing.contains(&self.calls);
        self.calls = self.calls.saturating_add(1);
        if !fails && self.bytes.extend_from_slice(bytes).is_ok() {
            return Ok(());
        }
        self.faults = self.faults.saturating_add(1);
        Err(Failed)
    }
}

/// Drops the bytes that it takes, and tells nothing of them. It never fails.
#[derive(Clone, Copy, Debug, PartialEq, Eq)]
pub struct NullSink;

impl Sink for NullSink {
    ghost told = { λ _. None };

    ghost faults = { λ _. 0 };

    fn write(&mut self, _: &[u8]) -> Result<(), Failed>
        ensures { IsOk result }
    {
        Ok(())
    }
}
