//! Edge files brought to a disk: read once, checked and copied, and read again from the copy for one partition at a time.
#![tactic(auto)]

mod copy;
mod degrees;
mod gathered;
mod given;
mod given_part;
mod laws;
mod part;
mod tally;

pub use copy::{Copied, copy_edges};
pub use given_part::given_edges;
pub use laws::copies_are_good;
