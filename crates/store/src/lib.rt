//! The store of a graph under a grammar: it is made of two texts, opened, loaded, compared and changed.
#![tactic(auto)]

mod counts;
mod new_store;
mod parts;
mod prepared;
mod source;
mod tables;

pub use new_store::import;
pub use open_store::{OpenMode, Opened, Store, StoreFault, open, same_input};
