//! The edges with which a closing begins.
ghost use Rattle.std.specs.Prelude.{◌≡◌, ◌<◌, ◌≤◌, ℕ, All, IfOk, OnOk};
ghost use Rattle.graph_words.specs.Reach.{graph_with};
ghost use Rattle.normal_law.specs.Closure.{IsNamed};
ghost use Rattle.normal_law.specs.NormalForm.{normal_form};
ghost use Rattle.plain_closing.specs.Joins.{BeginsClosing, HasAbove, HasLoops};
ghost use Rattle.plain_closing.specs.Begin.{AddsOf, IsAboveSome, IsLoop};

use crate::edge_set::EdgeSet;
use graph_words::{Edge, Vertex};
use normal_form::Normal;
use std::alloc::{AllocError, Global};

/// The labels above those of the edges, each between its edge's ends.
fn above_edges(alloc: Global, normal: &Normal, graph: &[Edge]) -> Result<EdgeSet, AllocError>
    requires { All (λ e. IsNamed e.label) graph.now }
    ensures above { IfOk result (λ edges. All (HasAbove (normal_form normal.now) edges) graph.now) }
    ensures only { IfOk result (λ edges. All (IsAboveSome (normal_form normal.now) graph.now) edges) }
{
    let mut edges = EdgeSet::new(alloc);
    for edge in graph {
        edges.add_each(edge.src, normal.up(edge.label), edge.dst)?;
    }
    Ok(edges)
}

/// Adds a loop at each vertex below a number for each label that derives the empty word.
fn add_loops(normal: &Normal, vertices: u32, edges: &mut EdgeSet) -> Result<(), AllocError>
    ensures added { OnOk result (AddsOf (IsLoop (normal_form normal.now) vertices) edges.old edges.new) }
    ensures loops { OnOk result ((v : ℕ) → v < vertices → HasLoops (normal_form normal.now) edges.new v) }
{
    for v in 0..vertices {
        edges.add_each(Vertex(v), normal.empties(), Vertex(v))?;
    }
    Ok(())
}

/// The edges that the closing of a graph begins with: the labels above each edge, and the loops.
pub(crate) fn first_edges(
    alloc: Global,
    normal: &Normal,
    vertices: u32,
    graph: &[Edge],
) -> Result<EdgeSet, AllocError>
    requires { All (λ e. IsNamed e.label) graph.now }
    ensures { IfOk result (BeginsClosing (normal_form normal.now) (graph_with vertices graph.now)) }
{
    let mut edges = above_edges(alloc, normal, graph)?;
    add_loops(normal, vertices, &mut edges)?;
    Ok(edges)
}
