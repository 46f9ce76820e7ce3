//! What can be wrong, and why a call fails: the kinds of faults, the reasons, and what each reason means.
#![tactic(auto)]

mod form_kind;
mod kinds;
mod line_fault;

pub use form_kind::FormKind;
pub use kinds::{InputFile, InputKind};
pub use line_fault::LineFault;
