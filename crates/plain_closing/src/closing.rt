ghost use Rattle.std.specs.Prelude.{◌≡◌, [], ◌∷◌, All, Contains, IfOk, filter};
ghost use Rattle.graph_words.specs.declared.types.Vertex.{Vertex as AVertex};
ghost use Rattle.graph_words.specs.declared.types.LabelId.{LabelId as ALabel};
ghost use Rattle.graph_words.specs.Reach.{edge, graph_with, IsGraph, IsAscending, Reach};
ghost use Rattle.normal_law.specs.Closure.{IsNamed};
ghost use Rattle.plain_closing.specs.Joins.{IsOnce, is_named};

use crate::begin::first_edges;
use crate::joins::add_all_joins;
use graph_words::{Edge, EdgeList};
use normal_form::{Grammar, normalise};
use std::alloc::{AllocError, Global};

/// Leaves the edges with named labels, in their order.
fn keep_named(listed: &mut Vec<Edge>)
    ensures { listed.new.items ≡ filter is_named listed.old.items }
{
    listed.retain(|edge| edge.label.0 < 1000);
}

/// The closure of a graph under a grammar: each (u, A, v), for a named label A, such that some path from u to v
/// spells a word that A derives, once, by source, then label, then destination.
///
/// The vertices are those below the given number, the labels of the graph's edges are named ones, and only want of
/// memory is refused. The closing runs over the grammar's normal form, and its fresh labels are left out at the end.
/// The list is walked as it grows, so the time is that of a look at each two of its edges.
pub fn closure(
    alloc: Global,
    vertices: u32,
    graph: &EdgeList,
    grammar: &Grammar,
) -> Result<EdgeList, AllocError>
    requires graph { IsGraph (graph_with vertices graph.now) }
    requires labels { All (λ e. IsNamed e.label) graph.now }
    ensures reached { IfOk result (All (λ e. Reach (graph_with vertices graph.now) grammar.now e.src (e.label ∷ []) e.dst)) }
    ensures all { IfOk result (λ edges. (u v : AVertex) (a : ALabel)
        → Reach (graph_with vertices graph.now) grammar.now u (a ∷ []) v → Contains edges (edge u a v)) }
    ensures ascending { IfOk result IsAscending }
{
    let normal = normalise(alloc, grammar)?;
    let mut edges = first_edges(alloc, &normal, vertices, graph.as_slice())?;
    add_all_joins(&normal, &mut edges)?;
    // What is listed is what reaches.
    normal.limits();
    normal.closure_is_reach();
    let mut listed = edges.into_edges();
    keep_named(&mut listed);
    listed.sort()?;
    Ok(EdgeList::from_vec(listed))
}
