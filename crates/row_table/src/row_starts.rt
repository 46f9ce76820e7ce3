//! Where the row of each vertex begins among edges in order.
ghost use Rattle.std.specs.Prelude.{◌≡◌, ◌+◌, ◌-◌, ◌≤◌, length, slice_range, IfOk};
ghost use Rattle.partition_file.specs.Spelling.{row_of};
ghost use Rattle.closing_machine.specs.Rounds.{IsOrdered};
ghost use Rattle.row_table.specs.Loaded.{LiesInSpan};
ghost use Rattle.row_table.specs.Index.{AreBefore, AreStarts, NoneBelow, PartsEdgesAt};

use crate::span::Span;
use graph_words::Born;
use std::alloc::{AllocError, Global};

/// How many of the edges begin before the vertex, which are at least `low` and at most `high`. A binary search.
fn place_between(edges: &[Born], mut low: usize, mut high: usize, vertex: u32) -> usize
    requires ordered { IsOrdered edges.now }
    requires front { AreBefore edges.now vertex low }
    requires order { low ≤ high }
    requires within { high ≤ length edges.now }
    requires behind { NoneBelow edges.now vertex high }
    ensures { PartsEdgesAt edges.now vertex result }
{
    while low < high {
        let middle = low + (high - low) / 2;
        if edges[middle].edge.src.0 < vertex {
            low = middle + 1;
        } else {
            high = middle;
        }
    }
    low
}

/// How many of the edges begin before the vertex, where the first `low` do. It steps on in strides that double, so that
/// few steps are made where few more do.
fn place_from(edges: &[Born], mut low: usize, vertex: u32) -> usize
    requires ordered { IsOrdered edges.now }
    requires front { AreBefore edges.now vertex low }
    ensures { PartsEdgesAt edges.now vertex result }
{
    let mut stride = 1usize;
    while stride <= edges.len() - low {
        let middle = low + (stride - 1);
        if edges[middle].edge.src.0 >= vertex {
            return place_between(edges, low, middle, vertex);
        }
        low = middle + 1;
        stride = stride.saturating_mul(2);
    }
    place_between(edges, low, edges.len(), vertex)
}

/// Sets how many edges begin before each vertex of the interval, and before the vertex behind it.
pub(crate) fn set_starts(edges: &[Born], span: Span, starts: &mut Vec<usize>)
    requires ordered { IsOrdered edges.now }
    requires bounds { span.lo ≤ span.hi }
    requires len { length starts.old.items ≡ (span.hi - span.lo) + 1 }
    ensures { AreStarts edges.now span starts.new.items }
{
    let mut place = 0;
    for row in 0..starts.len() {
        place = place_from(edges, place, span.lo + row as u32);
        starts[row] = place;
    }
}

/// How many edges begin before each vertex of the interval, and before the vertex behind it.
pub(crate) fn starts_of(alloc: Global, edges: &[Born], span: Span) -> Result<Vec<usize>, AllocError>
    requires ordered { IsOrdered edges.now }
    requires bounds { span.lo ≤ span.hi }
    ensures { IfOk result (λ starts. AreStarts edges.now span starts.items) }
{
    let mut starts = Vec::from_elem(alloc, 0, (span.hi - span.lo) as usize + 1)?;
    set_starts(edges, span, &mut starts);
    Ok(starts)
}

/// The edges from one place to before another.
pub(crate) fn part(edges: &[Born], start: usize, end: usize) -> &[Born]
    requires order { start ≤ end }
    requires within { end ≤ length edges.now }
    ensures { result.now ≡ slice_range edges.now start end }
{
    &edges[start..end]
}

/// The row of a vertex of the interval: the edges that begin there.
pub(crate) fn row_in<'a>(edges: &'a [Born], span: Span, starts: &[usize], vertex: u32) -> &'a [Born]
    requires starts { AreStarts edges.now span starts.now }
    requires vertex { LiesInSpan span vertex }
    ensures { result.now ≡ row_of vertex edges.now }
{
    let row = (vertex - span.lo) as usize;
    part(edges, starts[row], starts[row + 1])
}
