//! What a manifest says of how far a closing is.
use manifest_codec::{Manifest, decode};
use std::alloc::Global;

/// The numbers of a manifest that are shown.
#[derive(Clone, Copy)]
pub(crate) struct Heading {
    /// The edges of all partitions.
    pub(crate) edges: u64,
    /// The pairs of partitions, and how many have work left.
    pub(crate) pairs: u64,
    pub(crate) left: u64,
    /// The edges of the two largest partitions.
    pub(crate) most: u64,
    /// The bytes of all partition files.
    pub(crate) bytes: u64,
}

// The edges in a row of counts.
fn sum_of(counts: &[u64]) -> u64 {
    let mut sum: u64 = 0;
    for count in counts {
        sum = sum.saturating_add(*count);
    }
    sum
}

/// The greatest number so far and the one behind it.
#[derive(Clone, Copy)]
struct Largest {
    first: u64,
    second: u64,
}

impl Largest {
    // They with one number more.
    fn with(self, number: u64) -> Self {
        Largest {
            first: self.first.max(number),
            second: self.second.max(self.first.min(number)),
        }
    }
}

// The edges of the two partitions that have most, among so many with these counts.
fn most_of(counts: &[u64], size: usize) -> u64 {
    let mut largest = Largest {
        first: 0,
        second: 0,
    };
    for i in 0..size {
        let from = i.saturating_mul(size);
        let row = counts.get(from..from.saturating_add(size));
        largest = largest.with(sum_of(row.unwrap_or(&[])));
    }
    largest.first.saturating_add(largest.second)
}

// A number of a list, and 0 behind its end.
fn at(numbers: &[u64], place: usize) -> u64 {
    numbers.get(place).copied().unwrap_or(0)
}

// The greater of the newest births of the two partitions whose count stands at a place of so many rows.
fn last_of(newest: &[u64], place: usize, size: usize) -> u64 {
    if size == 0 {
        return 0;
    }
    at(newest, place / size).max(at(newest, place % size))
}

// How many pairs have work left: some edge leads over, and one of the two has an edge that isn't joined.
fn count_left(manifest: &Manifest) -> u64 {
    let size = manifest.marks.len();
    let joined = manifest.marks.joined_rows();
    let newest = manifest.marks.newest_rows();
    let mut left: u64 = 0;
    for (place, count) in manifest.map.counts().iter().enumerate() {
        if *count > 0 && last_of(newest, place, size) >= at(joined, place) {
            left = left.saturating_add(1);
        }
    }
    left
}

// What a manifest says.
fn numbers_of(manifest: &Manifest) -> Heading {
    let counts = manifest.map.counts();
    let edges = sum_of(counts);
    let vertices = u64::from(manifest.vertices);
    Heading {
        edges,
        pairs: counts.len() as u64,
        left: count_left(manifest),
        most: most_of(counts, manifest.marks.len()),
        bytes: edges
            .saturating_mul(14)
            .saturating_add(vertices.saturating_mul(8)),
    }
}

/// What the body of a slot says, where it is a manifest and memory is there.
pub(crate) fn heading_of(alloc: Global, body: &[u8]) -> Option<Heading> {
    match decode(alloc, body) {
        Ok((manifest, _)) => Some(numbers_of(&manifest)),
        Err(_) => None,
    }
}
