//! Standard output, before which the line of progress is taken away.
use crate::progress::Progress;
use io_edge::{Failed, Sink};
use std::time::Clock;

/// A sink in front of which no line of progress stands.
#[derive(Drop)]
pub(crate) struct ClearSink<'a, 'b, O: Sink + Drop, R: Clock + Eprint> {
    out: O,
    progress: &'a Progress<'b, R>,
}

impl<'a, 'b, O: Sink + Drop, R: Clock + Eprint> ClearSink<'a, 'b, O, R> {
    /// A sink over another one.
    pub(crate) fn new(out: O, progress: &'a Progress<'b, R>) -> Self {
        ClearSink { out, progress }
    }
}

impl<O: Sink + Drop, R: Clock + Eprint> Sink for ClearSink<'_, '_, O, R> {
    ghost told = { λ s. O.told s.out };

    ghost faults = { λ s. O.faults s.out };

    fn write(&mut self, bytes: &[u8]) -> Result<(), Failed> {
        self.progress.clear();
        self.out.write(bytes)
    }
}
