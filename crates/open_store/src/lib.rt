//! A store that is open: how it is opened, its partitions loaded and put, its texts compared, and another manifest committed.
#![tactic(auto)]

mod commit;
mod comparison;
mod grammar_copy;
mod load;
mod opened;
mod put_part;
mod store;
mod store_tally;
mod stream;
mod tally;

pub use comparison::same_input;
pub use opened::{OpenMode, Opened, open};
pub use store::Store;
pub use store_fault::StoreFault;
pub use tally::Tally;
