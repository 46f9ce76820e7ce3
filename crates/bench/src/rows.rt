//! The edges of a graph as the rows of one partition.
ghost use Rattle.std.specs.Prelude.{◌≡◌, ◌+◌, ◌<◌, ◌≤◌, ◌^◌, All, IsTrue, IfOk, IfSome};
ghost use Rattle.graph_words.specs.Reach.{IsAscending, IsBefore};
ghost use Rattle.superstep.specs.Room.{IsInFormat, capacity_of};
ghost use Rattle.bench.specs.Fits.{FitsEdge};

use graph_words::{Edge, EdgeList};
use partition_file::Partition;
use row_table::Rows;
use std::alloc::{AllocError, Global};

/// Whether the first edge stands before the second.
fn is_before(x: Edge, y: Edge) -> bool
    ensures { IsTrue result → IsBefore x y }
{
    x.src.0 < y.src.0
        || (x.src.0 == y.src.0
            && (x.label.0 < y.label.0 || (x.label.0 == y.label.0 && x.dst.0 < y.dst.0)))
}

/// Whether the edges ascend.
fn ascend(edges: &[Edge]) -> bool
    ensures { IsTrue result → IsAscending edges.now }
{
    for place in 1..edges.len() {
        if !is_before(edges[place - 1], edges[place]) {
            return false;
        }
    }
    true
}

/// Whether each edge begins at a vertex, and has the store's format.
fn fit(edges: &[Edge], vertices: u32) -> bool
    ensures { IsTrue result → All (FitsEdge vertices) edges.now }
{
    edges.iter().all(|e| e.src.0 < vertices && e.label.0 < 63_000 && e.dst.0 < 16_777_216)
}

/// The rows of these edges, born in round 0, and `None` where they are no such edges in order.
pub(crate) fn load(
    alloc: Global,
    vertices: u32,
    edges: Vec<Edge>,
) -> Result<Option<Rows>, AllocError>
    ensures format { IfOk result (λ o. IfSome o (λ rows. All IsInFormat rows.edges)) }
    ensures room { IfOk result (λ o. IfSome o (λ rows. 1 + capacity_of rows < 2 ^ 64)) }
{
    if vertices == 0 || vertices > 16_777_216 || !ascend(&edges) || !fit(&edges, vertices) {
        return Ok(None);
    }
    let empty = Partition::new(0, vertices, Vec::new(alloc));
    let mut rows = Rows::of_two(alloc, empty, None)?;
    let first = EdgeList::from_vec(edges);
    rows.absorb(&first, 0)?;
    Ok(Some(rows))
}
