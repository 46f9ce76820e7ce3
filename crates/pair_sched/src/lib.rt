//! What is joined already, and which pair of partitions is joined next.
#![tactic(auto)]

mod choice;
mod marks;

pub use choice::{is_dirty, least_dirty, pick};
pub use marks::Marks;
