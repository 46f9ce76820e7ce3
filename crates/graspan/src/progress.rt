//! The line on standard error that shows how far a call is.
use crate::heading::Heading;
use hints::{Line, Phase, Seen, budget_line, progress_line};
use std::cell::Cell;
use std::time::{Clock, Instant};

/// The least time between two lines, in milliseconds.
const PAUSE: u64 = 200;

/// Where the line is shown.
#[derive(Clone, Copy, PartialEq, Eq)]
pub(crate) enum Shown {
    Nowhere,
    /// On a terminal, which cuts a line that is longer than it is wide.
    Terminal,
    /// On what isn't a terminal.
    Plain,
}

/// What was seen of a call, and the line that shows it. Objects of the outside share it.
#[derive(Drop)]
pub(crate) struct Progress<'a, R: Clock + Eprint> {
    rt: &'a R,
    shown: Shown,
    start: Option<Instant>,
    // When the line was last shown, in milliseconds since the start, and how long it is.
    last: Cell<u64>,
    width: Cell<usize>,
    seen: Cell<Seen>,
    // The edges of two partitions, at most.
    most: Cell<u64>,
    // Whether a manifest was written by this call.
    has_store: Cell<bool>,
}

// Nothing is seen yet.
fn nothing() -> Seen {
    Seen {
        phase: Phase::Compare,
        read: 0,
        total: 0,
        written: 0,
        steps: 0,
        edges: 0,
        pairs: 0,
        left: 0,
        seconds: 0,
    }
}

impl<'a, R: Clock + Eprint> Progress<'a, R> {
    /// A line that isn't shown yet.
    pub(crate) fn new(rt: &'a R, shown: Shown) -> Self {
        Progress {
            rt,
            shown,
            start: Instant::now(rt).ok(),
            last: Cell::new(0),
            width: Cell::new(0),
            seen: Cell::new(nothing()),
            most: Cell::new(0),
            has_store: Cell::new(false),
        }
    }

    /// Whether anything is shown. Where it isn't, nothing need be told.
    pub(crate) fn is_on(&self) -> bool {
        self.shown != Shown::Nowhere
    }

    // Milliseconds since the start.
    fn now(&self) -> u64 {
        let Some(start) = self.start else {
            return 0;
        };
        match start.elapsed(self.rt) {
            Ok(time) => time
                .as_secs()
                .saturating_mul(1000)
                .saturating_add(u64::from(time.subsec_millis())),
            Err(_) => 0,
        }
    }

    /// Bytes of an input were read up to this place. Its length is 0 where it isn't known.
    pub(crate) fn read(&self, place: u64, len: u64) {
        if !self.is_on() {
            return;
        }
        let mut seen = self.seen.get();
        seen.phase = if seen.written > 0 {
            Phase::Import
        } else {
            Phase::Compare
        };
        seen.read = place;
        seen.total = len;
        self.see(seen);
    }

    /// Bytes were written to the store.
    pub(crate) fn wrote(&self, count: usize) {
        if !self.is_on() {
            return;
        }
        let mut seen = self.seen.get();
        seen.written = seen.written.saturating_add(count as u64);
        self.see(seen);
    }

    /// A manifest was written or read.
    pub(crate) fn heading(&self, heading: Heading, is_written: bool) {
        let mut seen = self.seen.get();
        if is_written && (self.has_store.get() || seen.phase != Phase::Import) {
            seen.steps = seen.steps.saturating_add(1);
        }
        self.has_store.set(true);
        self.most.set(self.most.get().max(heading.most));
        seen.edges = heading.edges;
        seen.pairs = heading.pairs;
        seen.left = heading.left;
        seen.phase = if heading.left > 0 {
            Phase::Closing
        } else {
            Phase::Printing
        };
        seen.read = 0;
        seen.total = heading.bytes;
        self.see(seen);
    }

    /// Bytes of a partition were loaded.
    pub(crate) fn loaded(&self, count: usize) {
        if !self.is_on() {
            return;
        }
        let mut seen = self.seen.get();
        if seen.left == 0 && self.has_store.get() {
            seen.phase = Phase::Printing;
            seen.read = seen.read.saturating_add(count as u64);
        } else if self.has_store.get() {
            seen.phase = Phase::Closing;
        }
        self.see(seen);
    }

    // Keeps what is seen, and shows it where the last line stands long enough.
    fn see(&self, mut seen: Seen) {
        let now = self.now();
        seen.seconds = now / 1000;
        self.seen.set(seen);
        if now.saturating_sub(self.last.get()) >= PAUSE {
            self.last.set(now);
            self.show(progress_line(&seen));
        }
    }

    // Shows a line in the place of the one before.
    fn show(&self, mut line: Line) {
        let len = line.len();
        if self.shown == Shown::Terminal {
            let text = line.as_str();
            let _ = eprint!(self.rt; "\r\x1b[?7l{text}\x1b[K\x1b[?7h");
        } else {
            line.pad(self.width.get());
            let text = line.as_str();
            let _ = eprint!(self.rt; "\r{text}");
        }
        self.width.set(len);
    }

    /// Takes the line away, where one stands.
    pub(crate) fn clear(&self) {
        if self.width.get() == 0 {
            return;
        }
        if self.shown == Shown::Terminal {
            let _ = self.rt.eprint("\r\x1b[K");
        } else {
            let mut line = Line::new();
            line.pad(self.width.get());
            let text = line.as_str();
            let _ = eprint!(self.rt; "\r{text}\r");
        }
        self.width.set(0);
    }

    /// Says at the end of a closing what another choice would do, where two partitions had more edges than the budget.
    pub(crate) fn say_budget(&self, budget: u64) {
        let has_closed = self.seen.get().steps > 0;
        if self.is_on() && has_closed && self.most.get() > budget {
            let line = budget_line(self.most.get(), budget);
            let _ = self.rt.eprintln(line.as_str());
        }
    }
}
