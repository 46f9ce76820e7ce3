//! A round of joins, row after row.
ghost use Rattle.std.specs.Prelude.{◌≡◌, ◌≤◌, IfSome, IfOk, OnOk};
ghost use Rattle.normal_law.specs.NormalForm.{normal_form};
ghost use Rattle.closing_machine.specs.Rounds.{IsRound};
ghost use Rattle.row_table.specs.Loaded.{LiesInSpan, LiesInHigh, newer_of};
ghost use Rattle.row_table.specs.Joined.{AppendsJoins, HasLabels, IsJoinOf};

use crate::blocks::{Block, Snapshot, mark_labels, set_blocks};
use crate::number_set::NumberSet;
use crate::rows::Rows;
use crate::sieve::Sieve;
use crate::span::Span;
use graph_words::{Edge, EdgeList, LabelId, Vertex};
use normal_form::Normal;
use std::alloc::{AllocError, Global};

/// Adds the joins from one vertex that the rows lack.
fn join_vertex<'a>(
    snapshot: &Snapshot<'a>,
    vertex: Vertex,
    labels: &mut Vec<LabelId>,
    blocks: &mut Vec<Block<'a>>,
    sieve: &mut Sieve,
    out: &mut Vec<Edge>,
) -> Result<(), AllocError>
    requires newer { snapshot.now.newer.now ≡ newer_of snapshot.now.since snapshot.now.rows.now }
    requires labels { HasLabels snapshot.now.newer.now.edges snapshot.now.newer_labels.now }
    ensures { OnOk result (AppendsJoins snapshot.now.rows.now.edges
        (IsJoinOf (normal_form snapshot.now.normal.now) snapshot.now.rows.now.edges snapshot.now.since)
        (λ v. v ≡ vertex.0) out.old.items out.new.items) }
{
    set_blocks(snapshot, vertex, labels, blocks)?;
    sieve.join_row(vertex, snapshot.rows.row(vertex.0), blocks, out)?;
    Ok(())
}

/// Adds the joins from the vertices of an interval, one after the other.
fn join_span<'a>(
    snapshot: &Snapshot<'a>,
    span: Span,
    labels: &mut Vec<LabelId>,
    blocks: &mut Vec<Block<'a>>,
    sieve: &mut Sieve,
    out: &mut Vec<Edge>,
) -> Result<(), AllocError>
    requires newer { snapshot.now.newer.now ≡ newer_of snapshot.now.since snapshot.now.rows.now }
    requires labels { HasLabels snapshot.now.newer.now.edges snapshot.now.newer_labels.now }
    requires bounds { span.lo ≤ span.hi }
    ensures { OnOk result (AppendsJoins snapshot.now.rows.now.edges
        (IsJoinOf (normal_form snapshot.now.normal.now) snapshot.now.rows.now.edges snapshot.now.since)
        (LiesInSpan span) out.old.items out.new.items) }
{
    for vertex in span.lo..span.hi {
        join_vertex(snapshot, Vertex(vertex), labels, blocks, sieve, out)?;
    }
    Ok(())
}

/// Adds the joins from the vertices of the second interval, where there is one.
fn join_high<'a>(
    snapshot: &Snapshot<'a>,
    high: Option<Span>,
    labels: &mut Vec<LabelId>,
    blocks: &mut Vec<Block<'a>>,
    sieve: &mut Sieve,
    out: &mut Vec<Edge>,
) -> Result<(), AllocError>
    requires newer { snapshot.now.newer.now ≡ newer_of snapshot.now.since snapshot.now.rows.now }
    requires labels { HasLabels snapshot.now.newer.now.edges snapshot.now.newer_labels.now }
    requires bounds { IfSome high (λ s. s.lo ≤ s.hi) }
    ensures { OnOk result (AppendsJoins snapshot.now.rows.now.edges
        (IsJoinOf (normal_form snapshot.now.normal.now) snapshot.now.rows.now.edges snapshot.now.since)
        (LiesInHigh high) out.old.items out.new.items) }
{
    match high {
        None => Ok(()),
        Some(span) => {
            join_span(snapshot, span, labels, blocks, sieve, out)?;
            Ok(())
        }
    }
}

impl Rows {
    /// All joins that the rows lack, in order: each edge that two consecutive edges of the rows join to, of which one
    /// is born at or after `since`.
    ///
    /// The round goes row by row, so that its edges come out in order: for each vertex, each new edge from there with
    /// the row of its end, and each old edge with the new edges of that row.
    pub fn joins(&self, alloc: Global, normal: &Normal, since: u64) -> Result<EdgeList, AllocError>
        ensures { IfOk result (IsRound (normal_form normal.now) self.now.edges since) }
    {
        let newer = self.newer(since)?;
        let mut newer_labels = NumberSet::new(alloc);
        mark_labels(newer.edges(), &mut newer_labels)?;
        let snapshot = Snapshot {
            rows: self,
            newer: &newer,
            newer_labels: &newer_labels,
            normal,
            since,
        };
        let mut labels = Vec::new(alloc);
        let mut blocks = Vec::new(alloc);
        let mut sieve = Sieve::new(alloc);
        let mut out = Vec::new(alloc);
        let (low, high) = self.spans();
        join_span(
            &snapshot,
            low,
            &mut labels,
            &mut blocks,
            &mut sieve,
            &mut out,
        )?;
        join_high(
            &snapshot,
            high,
            &mut labels,
            &mut blocks,
            &mut sieve,
            &mut out,
        )?;
        Ok(EdgeList::from_vec(out))
    }
}
