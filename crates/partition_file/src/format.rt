//! The layout of a partition file, in both formats. Which of them a file has, its magic tells.
//!
//! | bytes | field | rule, and the kind of fault where it is broken |
//! |---|---|---|
//! | 4 | the magic, `GSP1` or `GSP2` | BadMagic |
//! | 4 | the interval's first vertex | the expected one (BadBounds) |
//! | 4 | the vertex behind its last one | the expected one (BadBounds) |
//!
//! Then comes a row for each vertex of the interval, also for one without edges:
//!
//! | format 1 | format 2 | field | rule, and the kind of fault where it is broken |
//! |---|---|---|---|
//! | 8 | a group number | how many edges the vertex has | so many follow |
//! | 2 each | a group number each | label | it has a name or is a fresh one (BadLabel) |
//! | 4 each | a group number each | destination | below the number of vertices (BadVertex); (label, destination) above those of the edge before in the row (BadOrder) |
//! | 8 each | a group number each | birth | below the round (BadBirth) |
//!
//! Numbers of a fixed width have their low byte first. A group number has 7 bits in each byte
//! (BadNumber where it has more than 64, or a spare group). In format 2 the number that stands for a
//! label is what the label before it in the row is less, and the one for a destination counts from
//! behind the destination of the edge before where the label is the same: so BadOrder can't come.
//!
//! Fields are read in this order, and the first that breaks its rule is the fault, at the place of its
//! first byte. Where the bytes end within a field the kind is Short, and Extra where one comes behind
//! the last field. A partition has one spelling in each format, so equal partitions have equal files.

/// The first bytes of a file of format 1.
pub(crate) const FIRST_MAGIC: [u8; 4] = *b"GSP1";

/// The first bytes of a file of format 2.
pub(crate) const SECOND_MAGIC: [u8; 4] = *b"GSP2";

/// How many bytes stand in front of the rows: the magic, the first vertex and the one behind the last.
pub(crate) const HEAD_LEN: usize = 12;

/// How many bytes a row's number of edges has in format 1.
pub(crate) const COUNT_LEN: usize = 8;

/// How many bytes a label has in format 1.
pub(crate) const LABEL_LEN: usize = 2;

/// How many bytes a destination has in format 1.
pub(crate) const DESTINATION_LEN: usize = 4;

/// How many bytes a birth has in format 1.
pub(crate) const BIRTH_LEN: usize = 8;

/// How many bytes an edge has in format 1: its label, its destination and its birth.
pub(crate) const EDGE_LEN: usize = 14;

/// Where an edge has its destination in format 1.
pub(crate) const DESTINATION: usize = 2;

/// Where an edge has its birth in format 1.
pub(crate) const BIRTH: usize = 6;

/// How many bytes an edge has at least, in either format: one for each of its numbers.
pub(crate) const LEAST_EDGE_LEN: usize = 3;

/// How many bytes an edge has at most in format 2: 3 for its label, 5 for its destination and 10 for its birth.
pub(crate) const MOST_EDGE_LEN: usize = 18;
