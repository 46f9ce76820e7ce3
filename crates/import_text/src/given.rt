//! The edges with which a closing begins, of the vertices of one interval.
ghost use Rattle.std.specs.Prelude.{◌≡◌, ◌↔◌, ◌<◌, ◌≤◌, ◌∷◌, [], All, Contains, OnOk, IfOk};
ghost use Rattle.graph_words.specs.declared.types.Edge.{Edge as AnEdge};
ghost use Rattle.graph_words.specs.Reach.{IsAscending};
ghost use Rattle.normal_law.specs.NormalForm.{normal_form};
ghost use Rattle.closing_machine.specs.Rounds.{all_born};
ghost use Rattle.plain_closing.specs.Begin.{IsEdgeBetween};
ghost use Rattle.import_text.specs.Given.{AddsJust, IsAboveIn, IsLoopIn};

use graph_words::{Born, Edge, LabelId, Vertex};
use normal_form::Normal;
use std::alloc::{AllocError, Global};

/// Adds an edge between two vertices for each of the labels.
fn push_each(
    edges: &mut Vec<Edge>,
    src: Vertex,
    labels: &[LabelId],
    dst: Vertex,
) -> Result<(), AllocError>
    ensures { OnOk result (AddsJust (IsEdgeBetween src labels.now dst) edges.old.items edges.new.items) }
{
    for label in labels {
        edges.push(Edge {
            src,
            label: *label,
            dst,
        })?;
    }
    Ok(())
}

/// Adds the labels above an edge, if its source lies in the interval.
fn add_above_one(
    given: &mut Vec<Edge>,
    normal: &Normal,
    lo: u32,
    hi: u32,
    edge: Edge,
) -> Result<(), AllocError>
    requires { edge.label.0 < 1000 }
    ensures { OnOk result (AddsJust (IsAboveIn (normal_form normal.now) lo hi (edge ∷ [])) given.old.items given.new.items) }
{
    if edge.src.0 < lo {
        return Ok(());
    }
    if hi <= edge.src.0 {
        return Ok(());
    }
    push_each(given, edge.src, normal.up(edge.label), edge.dst)
}

/// Adds the labels above each of the edges whose source lies in the interval.
pub(crate) fn add_above(
    given: &mut Vec<Edge>,
    normal: &Normal,
    lo: u32,
    hi: u32,
    found: &[Edge],
) -> Result<(), AllocError>
    requires { All (λ e. e.label.0 < 1000) found.now }
    ensures { OnOk result (AddsJust (IsAboveIn (normal_form normal.now) lo hi found.now) given.old.items given.new.items) }
{
    for edge in found {
        add_above_one(given, normal, lo, hi, *edge)?;
    }
    Ok(())
}

/// Adds a loop at each vertex of the interval for each label that derives the empty word.
pub(crate) fn add_loops(
    given: &mut Vec<Edge>,
    normal: &Normal,
    lo: u32,
    hi: u32,
) -> Result<(), AllocError>
    requires { lo ≤ hi }
    ensures { OnOk result (AddsJust (IsLoopIn (normal_form normal.now) lo hi) given.old.items given.new.items) }
{
    for v in lo..hi {
        push_each(given, Vertex(v), normal.empties(), Vertex(v))?;
    }
    Ok(())
}

/// Sorts edges, and leaves each once. It takes no memory.
pub(crate) fn make_once(edges: &mut Vec<Edge>)
    ensures same { (e : AnEdge) → Contains edges.new.items e ↔ Contains edges.old.items e }
    ensures ascending { IsAscending edges.new.items }
{
    edges.sort_unstable();
    edges.dedup();
}

/// The edges with birth 0, in their order.
pub(crate) fn born_first(alloc: Global, edges: &[Edge]) -> Result<Vec<Born>, AllocError>
    ensures { IfOk result (λ born. born.items ≡ all_born edges.now 0) }
{
    let mut born = Vec::with_capacity(alloc, edges.len())?;
    for edge in edges {
        born.push(Born {
            edge: *edge,
            birth: 0,
        })?;
    }
    Ok(born)
}
