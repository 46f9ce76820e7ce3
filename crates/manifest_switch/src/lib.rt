//! The two slots of a store's manifest: which of them is current, and how another one takes its place at once.
#![tactic(auto)]

mod current_slot;
mod gates;
mod law;
mod other_gate;
mod slot;
mod slot_switch;

pub use current_slot::current;
pub use gates::{close_gate, open_gate, write_body};
pub use law::{current_in_words, current_is_held};
pub use other_gate::close_other;
pub use slot::{Found, OpenFault, Slot, SwitchFault};
pub use slot_switch::switch;
