//! The graph of a C program as a list of vertices and edges, and its text.
#![tactic(auto)]

mod edge;
mod laws;
mod list;
mod print;
mod vertex;

pub use edge::{EmitEdge, EmitLabel};
pub use laws::list_reads_back;
pub use list::EmitList;
pub use print::print_edges;
pub use vertex::{MOST_VERTICES, Vertex, VertexForm};
