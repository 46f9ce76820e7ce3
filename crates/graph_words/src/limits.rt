//! How large a graph and its texts may be.

/// A graph has at most so many vertices: their numbers end at 16,777,215.
pub const MOST_VERTICES: usize = 16_777_216;

/// How many bytes a label's name has at most.
pub const MOST_LABEL_BYTES: usize = 255;

/// A grammar's text has at most so many bytes.
pub const LONGEST_GRAMMAR: usize = 16_777_216;

/// Edge files have at most so many bytes together.
pub const LONGEST_EDGES: u64 = 1_099_511_627_776;
