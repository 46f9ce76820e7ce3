//! The words of a command line: the command that they mean.
#![tactic(auto)]

mod clap_numbers;
mod command;
mod command_line;
mod cut_words;
mod fault;
mod kind;
mod run_numbers;
mod run_options;

pub use command::{Command, GraphKind};
pub use command_line::{one_reading, read_command};
pub use fault::WordsFault;
