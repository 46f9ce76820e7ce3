//! The normal form of a grammar: rules of two labels, the labels above each label, and those that derive the empty word.
#![tactic(auto)]

mod above;
mod apart;
mod empties;
mod grammar;
mod joins;
mod label_row;
mod normal;

pub use grammar::{Grammar, is_grammar};
pub use normal::{Normal, normalise};
