//! The names that are visible at a place of a program.
#![tactic(auto)]

mod names;

pub use names::VisibleNames;
