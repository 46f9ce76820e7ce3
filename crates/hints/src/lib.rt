//! What is said to a person: one sentence about each fault, made of the words of the call and of what the program knows
//! of its cause; and a line that shows how far a call is.
#![tactic(auto)]

mod fault;
mod line;
mod nearest;
mod progress;
mod reason;
mod saying;
mod store;
mod text;
mod words;

pub use fault::Fault;
pub use line::Line;
pub use progress::{Phase, Seen, budget_line, progress_line};
pub use saying::sentence;
