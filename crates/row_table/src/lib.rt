//! The edges of one or two loaded partitions, row after row: the joins of a round, and the edges that it adds.
#![tactic(auto)]

mod blocks;
mod centre_joins;
mod centres;
mod in_edges;
mod number_set;
mod ordered_edges;
mod round;
mod row_starts;
mod rows;
mod sieve;
mod span;

pub use in_edges::InEdges;
pub use rows::Rows;
pub use sieve::Sieve;
pub use span::Span;
