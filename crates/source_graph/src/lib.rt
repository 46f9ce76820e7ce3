//! The graph of a C text: its tokens, its program and the walk in turn, or its first refusal.
#![tactic(auto)]

mod graph;
mod laws;
mod lines;

pub use graph::{LONGEST_SOURCE, SourceFault, source_graph};
pub use laws::{declared_names_are_names, graphs_read_back, texts_have_one_graph};
