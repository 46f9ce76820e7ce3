//! What a store says and lists, printed: its head and state, how many edges each label has, the answers of a label, all edges.
#![tactic(auto)]

mod edge_lines;
mod fault;
mod head_lines;
mod label_counts;
mod laws;
mod lines;
mod load;
mod show;
mod walk;

pub use edge_lines::{answers, dump};
pub use fault::AnswerFault;
pub use head_lines::{head, parts};
pub use label_counts::tally;
pub use laws::{answers_stand_in_their_partition, edges_are_those_listed};
