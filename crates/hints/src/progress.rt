//! The line that shows how far a call is.
use crate::line::Line;

/// What a call is at.
#[derive(Clone, Copy, PartialEq, Eq)]
pub enum Phase {
    /// The edge file is read and copied.
    Import,
    /// The edge file is compared with the store's copy.
    Compare,
    /// Pairs of partitions are joined.
    Closing,
    /// Partitions are read and printed.
    Printing,
}

/// How far a call is, as far as it can be seen from outside. Bytes are counted, and seconds since the call began.
#[derive(Clone, Copy)]
pub struct Seen {
    pub phase: Phase,
    /// The bytes that were read of the file, or of the partitions that are printed.
    pub read: u64,
    /// All of them, and 0 where that isn't known.
    pub total: u64,
    /// The bytes that were written to the store.
    pub written: u64,
    /// The steps of the closing that this call made.
    pub steps: u64,
    /// The edges of all partitions, with those of fresh labels.
    pub edges: u64,
    /// The pairs of partitions, and how many of them have work left.
    pub pairs: u64,
    pub left: u64,
    pub seconds: u64,
}

// One decimal below a hundred, and none from there on.
fn say_tenths(line: &mut Line, tenths: u64) {
    line.number(tenths / 10);
    if tenths < 1000 {
        line.text(".");
        line.number(tenths % 10);
    }
}

// Millions of bytes.
fn say_megabytes(line: &mut Line, bytes: u64) {
    say_tenths(line, bytes / 100_000);
}

// A number of edges: in millions, from a million on.
fn say_edges(line: &mut Line, edges: u64) {
    if edges < 1_000_000 {
        line.number(edges);
        line.text(" edges");
    } else {
        say_tenths(line, edges / 100_000);
        line.text(" M edges");
    }
}

fn say_two_digits(line: &mut Line, number: u64) {
    if number < 10 {
        line.text("0");
    }
    line.number(number);
}

// Minutes and seconds, and hours where there are some.
fn say_time(line: &mut Line, seconds: u64) {
    if seconds >= 3600 {
        line.number(seconds / 3600);
        line.text(":");
    }
    say_two_digits(line, seconds / 60 % 60);
    line.text(":");
    say_two_digits(line, seconds % 60);
}

// How many hundredths a part is of the whole.
fn percent(part: u64, whole: u64) -> u64 {
    if part >= whole {
        return 100;
    }
    if whole < 1_000_000 {
        return part.saturating_mul(100) / whole;
    }
    (part / (whole / 100)).min(100)
}

fn say_percent(line: &mut Line, seen: &Seen) {
    if seen.total > 0 {
        line.text(" ");
        line.number(percent(seen.read, seen.total));
        line.text(" %");
    }
}

// What was read of a file, and what was written.
fn say_reading(line: &mut Line, seen: &Seen) {
    say_percent(line, seen);
    line.text("  ");
    say_megabytes(line, seen.read);
    line.text(" MB");
    if seen.total > 0 {
        line.text(" of ");
        say_megabytes(line, seen.total);
    }
    if seen.written > seen.read {
        line.text("  ");
        say_megabytes(line, seen.written);
        line.text(" MB written");
    }
}

fn say_closing(line: &mut Line, seen: &Seen) {
    line.text("  step ");
    line.number(seen.steps);
    line.text("  ");
    say_edges(line, seen.edges);
    line.text(", ");
    line.number(seen.left);
    line.text(" of ");
    line.number(seen.pairs);
    line.text(" pairs left  ");
    say_megabytes(line, seen.written);
    line.text(" MB written  ");
    say_time(line, seen.seconds);
}

/// The line of what is seen.
pub fn progress_line(seen: &Seen) -> Line {
    let mut line = Line::new();
    match seen.phase {
        Phase::Import => {
            line.text("import");
            say_reading(&mut line, seen);
        }
        Phase::Compare => {
            line.text("compare");
            say_reading(&mut line, seen);
        }
        Phase::Closing => {
            line.text("closing");
            say_closing(&mut line, seen);
        }
        Phase::Printing => {
            line.text("printing");
            say_percent(&mut line, seen);
        }
    }
    line
}

/// What is said at the end of a closing whose two largest partitions had more edges together than the budget. Where there
/// is one partition, these are its edges.
pub fn budget_line(edges: u64, budget: u64) -> Line {
    let mut line = Line::new();
    line.text("graspan: a step loads up to ");
    say_edges(&mut line, edges);
    line.text(", above the ");
    line.number(budget);
    line.text(
        " of --budget; in an empty folder a smaller --part-edges needs less memory and more time (docs/USAGE.md)",
    );
    line
}
