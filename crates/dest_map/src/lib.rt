//! How many edges lead from each partition of a graph into each.
#![tactic(auto)]

mod map;

pub use map::{DestMap, parent_of};
