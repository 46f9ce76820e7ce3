//! The commands of graspan, over inputs, a disk and a sink that are handed in.
#![tactic(auto)]

mod command;
mod emission;
mod grammar_file;
mod labels;
mod looks;
mod print;
mod ready_store;
mod run;
mod runs_law;
mod status;

pub use command::graspan;
pub use runs_law::runs_in_a_row;
pub use status::Status;
