//! The layout of a store: which files it has, and of what its manifest consists. All numbers have their low byte first.
//!
//! A manifest stands behind the gate of a slot, so its first byte is at place 1:
//!
//! | bytes | field | rule, and the kind of fault where it is broken |
//! |---|---|---|
//! | 4 | the magic, `GSM1` | BadMagic |
//! | 1 | the generation | 0, 1 or 2 (BadNumber) |
//! | 8 | the round | at least 1, and at most 1 plus the sum of the counts (BadNumber) |
//! | 4 | how many vertices | at most 16,777,216 (BadNumber) |
//! | 8 | the length of the grammar's copy | at most 16,777,216 (BadNumber) |
//! | 8 | the length of the edges' copy | at most 2^40 (BadNumber) |
//! | 2 | how many labels | at most 1,000 (BadNumber) |
//! | 1 and so many, each | a label | a label (BadLabel), and none twice (RepeatedLabel) |
//! | 2 | how many partitions | at most 256, and as many as vertices allow; none only where there is no vertex (BadParts) |
//! | 16 each | a partition: the vertex behind its last one (4), its file (4), its greatest birth (8) | ends ascend to the number of vertices (BadParts); a file from 4 to 1,023 that no other has (BadFile); a birth below the round (BadMark) |
//! | 8 each | for each partition a row of counts of its edges into each | at most width times width times 63,000 (BadCount) |
//! | 8 each | for each partition a row of marks with each | at most the round (BadMark) |
//!
//! Fields are read in this order, and the first that breaks its rule is the fault, at the place of its first byte. Where
//! the bytes end within a field the kind is Short. Bytes behind the last field are no part of it.

/// The file of the copy of the grammar's text. The slots are the two files below it.
pub const GRAMMAR_FILE: u32 = 2;

/// The file of the copy of the edge file.
pub const EDGES_FILE: u32 = 3;

/// The least file that a partition may have.
pub const FIRST_PART_FILE: u32 = 4;

/// The magic of the first version, the bytes `GSM1`.
pub(crate) const FIRST_MAGIC: u32 = 0x314D_5347;

/// Where the first version has the number of labels, in bytes from the gate.
pub(crate) const LABELS_PLACE: u64 = 34;
