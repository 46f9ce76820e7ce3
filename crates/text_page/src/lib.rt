//! Text on its way to a sink, gathered in a page.
#![tactic(auto)]

mod page;

pub use page::{PAGE_LEN, Page};
