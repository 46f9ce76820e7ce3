//! The joins of one vertex: what its blocks give, each edge once, less the edges that are there.
ghost use Rattle.std.specs.Prelude.{◌≡◌, ◌<◌, ◌≤◌, ◌⊎◌, ◌++◌, ◌∷◌, [], ℕ, All, OnOk, map};
ghost use Rattle.graph_words.specs.Reach.{edge};
ghost use Rattle.closing_machine.specs.Rounds.{HasEdge, IsOrdered};
ghost use Rattle.row_table.specs.Joined.{AppendsLabel, AppendsBelow, AppendsLacking, BlockGives, EndsHere};
ghost use Rattle.row_table.specs.Joined.{GivesEnd, IsNextLabel, MarksEnds, Sifts, vertex as vertex_of};

use crate::blocks::{Block, run_of};
use crate::number_set::NumberSet;
use crate::ordered_edges::has_edge;
use graph_words::{Born, Edge, LabelId, Vertex};
use std::alloc::{AllocError, Global};

/// No label has this number or a greater one.
const LABELS: u32 = 65_536;

/// About so many ends of a row are marked in the time in which one edge is looked for.
const MARKS_A_SEARCH: usize = 32;

/// Puts the ends of the edges into the set.
pub(crate) fn mark_run(run: &[Born], ends: &mut NumberSet) -> Result<(), AllocError>
    ensures { OnOk result (MarksEnds (EndsHere run.now) ends.old ends.new) }
{
    for born in run {
        ends.add(born.edge.dst.0)?;
    }
    Ok(())
}

/// Puts the ends of the edges to those found, each that is not in the set yet.
fn sift_run(run: &[Born], ends: &mut NumberSet, found: &mut Vec<u32>) -> Result<(), AllocError>
    ensures { OnOk result (Sifts (EndsHere run.now) ends.old ends.new found.old.items found.new.items) }
{
    for second in run {
        sift_end(second.edge.dst, ends, found)?;
    }
    Ok(())
}

/// Puts an end to those found, unless it is in the set.
fn sift_end(end: Vertex, ends: &mut NumberSet, found: &mut Vec<u32>) -> Result<(), AllocError>
    ensures { OnOk result (Sifts (λ w. w ≡ end.0) ends.old ends.new found.old.items found.new.items) }
{
    let new = ends.add(end.0)?;
    if !new {
        return Ok(());
    }
    found.push(end.0)?;
    Ok(())
}

/// Puts the ends of a block to those found, if it has this label.
fn sift_block(
    block: &Block<'_>,
    label: LabelId,
    ends: &mut NumberSet,
    found: &mut Vec<u32>,
) -> Result<(), AllocError>
    ensures { OnOk result (Sifts (BlockGives block.now label) ends.old ends.new found.old.items found.new.items) }
{
    if block.label.0 != label.0 {
        return Ok(());
    }
    sift_run(block.seconds, ends, found)?;
    Ok(())
}

/// Puts the ends of all blocks of a label to those found.
fn sift_blocks(
    blocks: &[Block<'_>],
    label: LabelId,
    ends: &mut NumberSet,
    found: &mut Vec<u32>,
) -> Result<(), AllocError>
    ensures { OnOk result (Sifts (GivesEnd blocks.now label) ends.old ends.new found.old.items found.new.items) }
{
    for block in blocks {
        sift_block(block, label, ends, found)?;
    }
    Ok(())
}

/// Adds an edge of the label to each of the ends.
fn push_edges(
    vertex: Vertex,
    label: LabelId,
    found: &[u32],
    out: &mut Vec<Edge>,
) -> Result<(), AllocError>
    ensures { OnOk result (out.new.items ≡ out.old.items ++ map (λ w. edge vertex label (vertex_of w)) found.now) }
{
    for end in found {
        out.push(Edge {
            src: vertex,
            label,
            dst: Vertex(*end),
        })?;
    }
    Ok(())
}

/// Adds an edge, unless the row has it.
fn push_unless(row: &[Born], edge: Edge, out: &mut Vec<Edge>) -> Result<(), AllocError>
    requires { IsOrdered row.now }
    ensures { OnOk result ((HasEdge row.now edge × (out.new.items ≡ out.old.items))
        ⊎ ((HasEdge row.now edge → ⊥) × (out.new.items ≡ out.old.items ++ edge ∷ []))) }
{
    if has_edge(row, edge) {
        return Ok(());
    }
    out.push(edge)?;
    Ok(())
}

/// Adds an edge of the label to each of the ends to which the row has none.
fn push_lacking(
    vertex: Vertex,
    label: LabelId,
    row: &[Born],
    found: &[u32],
    out: &mut Vec<Edge>,
) -> Result<(), AllocError>
    requires { IsOrdered row.now }
    ensures { OnOk result (AppendsLacking row.now vertex label found.now out.old.items out.new.items) }
{
    for end in found {
        let edge = Edge {
            src: vertex,
            label,
            dst: Vertex(*end),
        };
        push_unless(row, edge, out)?;
    }
    Ok(())
}

/// How many ends the blocks of a label give, each as often as it is given.
fn count_ends(blocks: &[Block<'_>], label: LabelId) -> usize {
    let mut count = 0usize;
    for block in blocks {
        if block.label.0 == label.0 {
            count = count.saturating_add(block.seconds.len());
        }
    }
    count
}

/// The least label of the blocks from a number on, and `LABELS` where there is none.
fn next_label(blocks: &[Block<'_>], from: u32) -> u32
    requires { from ≤ 65536 }
    ensures { IsNextLabel blocks.now from result }
{
    let mut next = LABELS;
    for block in blocks {
        let label = u32::from(block.label.0);
        if from <= label && label < next {
            next = label;
        }
    }
    next
}

/// What a search for joins needs, kept from one source to the next, and from one centre to the next. It grows to a
/// number for each vertex up to the greatest one that joins lead to.
#[derive(Drop)]
pub struct Sieve {
    /// The ends of the vertex's edges of one label, those that are there and those that are found.
    ends: NumberSet,
    /// The ends that are found.
    found: Vec<u32>,
}

impl Sieve {
    /// An empty one. It takes no memory.
    pub fn new(alloc: Global) -> Self {
        Sieve {
            ends: NumberSet::new(alloc),
            found: Vec::new(alloc),
        }
    }

    /// Adds the edges of one label that the blocks give and the row of the vertex lacks: each is looked for in the row.
    fn join_searched(
        &mut self,
        vertex: Vertex,
        row: &[Born],
        blocks: &[Block<'_>],
        label: LabelId,
        out: &mut Vec<Edge>,
    ) -> Result<(), AllocError>
        requires order { IsOrdered row.now }
        ensures { OnOk result (AppendsLabel row.now vertex blocks.now label out.old.items out.new.items) }
    {
        self.ends.clear();
        self.found.clear();
        sift_blocks(blocks, label, &mut self.ends, &mut self.found)?;
        self.found.sort_unstable();
        push_lacking(vertex, label, row, &self.found, out)?;
        Ok(())
    }

    /// The same. The ends of the row's edges are marked first, unless the blocks give few and the row has many.
    fn join_label(
        &mut self,
        vertex: Vertex,
        row: &[Born],
        blocks: &[Block<'_>],
        label: LabelId,
        out: &mut Vec<Edge>,
    ) -> Result<(), AllocError>
        requires order { IsOrdered row.now }
        requires source { All (λ b. b.edge.src ≡ vertex) row.now }
        ensures { OnOk result (AppendsLabel row.now vertex blocks.now label out.old.items out.new.items) }
    {
        let run = run_of(row, label);
        if run.len() / MARKS_A_SEARCH > count_ends(blocks, label) {
            return self.join_searched(vertex, row, blocks, label, out);
        }
        self.ends.clear();
        self.found.clear();
        mark_run(run, &mut self.ends)?;
        sift_blocks(blocks, label, &mut self.ends, &mut self.found)?;
        self.found.sort_unstable();
        push_edges(vertex, label, &self.found, out)?;
        Ok(())
    }

    /// Adds the edges that the blocks give and the row of the vertex lacks, label after label.
    pub(crate) fn join_row(
        &mut self,
        vertex: Vertex,
        row: &[Born],
        blocks: &[Block<'_>],
        out: &mut Vec<Edge>,
    ) -> Result<(), AllocError>
        requires order { IsOrdered row.now }
        requires source { All (λ b. b.edge.src ≡ vertex) row.now }
        ensures joins { OnOk result (AppendsBelow row.now vertex blocks.now 65536 out.old.items out.new.items) }
        ensures labels { OnOk result (All (λ k. k.label.0 < 65536) blocks.now) }
    {
        let mut next = next_label(blocks, 0);
        while next < LABELS {
            self.join_label(vertex, row, blocks, LabelId(next as u16), out)?;
            next = next_label(blocks, next + 1);
        }
        Ok(())
    }
}
