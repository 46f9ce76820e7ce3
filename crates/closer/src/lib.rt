//! The closing of a store, step by step: a pair of partitions with work left is picked, loaded, run and put.
#![tactic(auto)]

mod changed_parts;
mod laws;
mod next_manifest;
mod one_step;
mod pair;
mod to_end;

pub use laws::{
    held_stores_have_the_rules_of_their_texts, passes_are_steps_of_the_machine, steps_keep_a_store,
    stops_leave_a_store, stores_are_not_refused,
};
pub use one_step::{Stepped, step};
pub use to_end::run_to_end;
