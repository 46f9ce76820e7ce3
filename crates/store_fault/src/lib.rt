//! Why a call of a store has no answer, as the layers from the import to the closing say it.
#![tactic(auto)]

mod fault;

pub use fault::StoreFault;
