//! Edges that are put among others in order.
ghost use Rattle.std.specs.Prelude.{◌≡◌, ◌++◌, ◌+◌, ◌↔◌, ◌<◌, ◌≤◌, length, take, All, IsTrue, OnOk, OnErr};
ghost use Rattle.graph_words.specs.Reach.{IsBefore, IsAscending};
ghost use Rattle.closing_machine.specs.Rounds.{HasEdge, IsOrdered, IsInOrder, all_born};
ghost use Rattle.row_table.specs.Index.{NoneBefore, PartsBefore, PutsEdge, StandBefore};

use graph_words::{Born, Edge, LabelId, Vertex};
use std::alloc::AllocError;

/// What stands at a place that is still to be filled.
const ROOM: Born = Born {
    edge: Edge {
        src: Vertex(0),
        label: LabelId(0),
        dst: Vertex(0),
    },
    birth: 0,
};

/// Whether the first edge stands before the second: by source, then label, then destination.
pub(crate) fn is_before(x: Edge, y: Edge) -> bool
    ensures { IsTrue result ↔ IsBefore x y }
{
    x.src.0 < y.src.0
        || (x.src.0 == y.src.0
            && (x.label.0 < y.label.0 || (x.label.0 == y.label.0 && x.dst.0 < y.dst.0)))
}

/// How many of the edges stand before this one, which are at least `low` and at most `high`. A binary search.
fn search_between(edges: &[Born], mut low: usize, mut high: usize, edge: Edge) -> usize
    requires ordered { IsOrdered edges.now }
    requires front { StandBefore edges.now edge low }
    requires order { low ≤ high }
    requires within { high ≤ length edges.now }
    requires behind { NoneBefore edges.now edge high }
    ensures { PartsBefore edges.now edge result }
{
    while low < high {
        let middle = low + (high - low) / 2;
        if is_before(edges[middle].edge, edge) {
            low = middle + 1;
        } else {
            high = middle;
        }
    }
    low
}

/// How many of the edges stand before this one. A binary search.
pub(crate) fn search(edges: &[Born], edge: Edge) -> usize
    requires { IsOrdered edges.now }
    ensures { PartsBefore edges.now edge result }
{
    search_between(edges, 0, edges.len(), edge)
}

/// How many of the edges stand before this one. It steps back from the end in strides that double, so that few steps
/// are made where few edges stand behind.
fn search_back(edges: &[Born], edge: Edge) -> usize
    requires { IsOrdered edges.now }
    ensures { PartsBefore edges.now edge result }
{
    let mut high = edges.len();
    let mut stride = 1usize;
    while stride <= high {
        let middle = high - stride;
        if is_before(edges[middle].edge, edge) {
            return search_between(edges, middle + 1, high, edge);
        }
        high = middle;
        stride = stride.saturating_mul(2);
    }
    search_between(edges, 0, high, edge)
}

/// Whether the edge is among these, with whatever birth.
pub(crate) fn has_edge(edges: &[Born], edge: Edge) -> bool
    requires { IsOrdered edges.now }
    ensures { IsTrue result ↔ HasEdge edges.now edge }
{
    let place = search(edges, edge);
    if place == edges.len() {
        return false;
    }
    !is_before(edge, edges[place].edge)
}

/// Puts a new edge among the first `end` edges: those that stand behind it go up, to leave room for it and for `left`
/// edges before it. Answers how many stand before it.
fn put_edge(edges: &mut Vec<Born>, end: usize, left: usize, new: Born) -> usize
    requires ordered { IsOrdered (take end edges.old.items) }
    requires room { end + left < length edges.old.items }
    ensures { PutsEdge edges.old.items end left new result edges.new.items }
{
    let place = search_back(&edges[..end], new.edge);
    edges.copy_within(place..end, place + left + 1);
    edges[place + left] = new;
    place
}

/// Puts new edges among the others, each with this birth, from behind, so that each edge moves once. Where memory ends,
/// nothing is changed.
pub(crate) fn merge(edges: &mut Vec<Born>, new: &[Edge], birth: u64) -> Result<(), AllocError>
    requires ordered { IsOrdered edges.old.items }
    requires ascending { IsAscending new.now }
    requires absent { All (λ e. HasEdge edges.old.items e → ⊥) new.now }
    ensures ok { OnOk result (IsInOrder (edges.old.items ++ all_born new.now birth) edges.new.items) }
    ensures err { OnErr result (edges.new.items ≡ edges.old.items) }
{
    let mut end = edges.len();
    let mut left = new.len();
    let Some(total) = end.checked_add(left) else {
        return Err(AllocError);
    };
    edges.resize(total, ROOM)?;
    while left > 0 {
        left -= 1;
        let edge = new[left];
        end = put_edge(edges, end, left, Born { edge, birth });
    }
    Ok(())
}
