//! The graph of a program of the C subset.
#![tactic(auto)]

mod emitter;
mod expr;
mod fault;
mod functions;
mod laws;
mod program;
mod stmt;

pub use emit_list::{EmitEdge, EmitLabel, EmitList, VertexForm, print_edges};
pub use fault::{EmitFault, EmitKind};
pub use laws::graphs_keep_rules_and_names;
pub use program::emit;
