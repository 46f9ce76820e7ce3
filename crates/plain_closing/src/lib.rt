//! The closure of a graph in memory, by the plainest way: a list to which joins are added until none is new.
#![tactic(auto)]

mod begin;
mod closing;
mod edge_set;
mod joins;

pub use closing::closure;
