//! The joins at one centre, source after source.
ghost use Rattle.std.specs.Prelude.{◌≡◌, ◌<◌, [], length, IfOk, OnOk, OnErr};
ghost use Rattle.graph_words.specs.declared.types.Vertex.{Vertex as AVertex};
ghost use Rattle.normal_law.specs.NormalForm.{normal_form};
ghost use Rattle.partition_file.specs.Spelling.{row_of};
ghost use Rattle.closing_machine.specs.Rounds.{IsCandidate};
ghost use Rattle.closing_machine.specs.JoinsAt.{IsJoinsAt};
ghost use Rattle.row_table.specs.Chains.{AreLinks, AtSource, BeginsAt, IsNextOfRow, IsNextSource};
ghost use Rattle.row_table.specs.Loaded.{newer_edges};
ghost use Rattle.row_table.specs.Joined.{AddsThroughOne, AppendsJoins, GivesJoins, LabelsAscend};

use crate::blocks::{Block, add_row};
use crate::in_edges::InEdges;
use crate::rows::{Rows, born_since};
use crate::sieve::Sieve;
use graph_words::{Born, Edge, EdgeList, LabelId, Vertex};
use normal_form::Normal;
use std::alloc::AllocError;

/// A centre, with the edges that begin there and those of them that are new.
#[derive(Clone, Copy)]
struct Centre<'a> {
    rows: &'a Rows,
    /// Behind each edge, the place of the next one that ends where it does.
    next: &'a [usize],
    row: &'a [Born],
    newer: &'a [Born],
    normal: &'a Normal,
    since: u64,
    vertex: Vertex,
}

/// Adds the blocks of an edge into the centre: with each edge behind if it is new, and else with each new one.
fn add_in_edge<'a>(
    centre: &Centre<'a>,
    first: Born,
    labels: &mut Vec<LabelId>,
    blocks: &mut Vec<Block<'a>>,
) -> Result<(), AllocError>
    requires row { LabelsAscend centre.now.row.now }
    requires newer { LabelsAscend centre.now.newer.now }
    requires end { first.edge.dst.0 ≡ centre.now.vertex.0 }
    ensures { OnOk result (AddsThroughOne (normal_form centre.now.normal.now) centre.now.since centre.now.vertex
        centre.now.row.now centre.now.newer.now first blocks.old.items blocks.new.items) }
{
    labels.clear();
    centre.normal.seconds(first.edge.label, labels)?;
    if first.birth < centre.since {
        add_row(
            centre.normal,
            first.edge.label,
            labels,
            centre.newer,
            blocks,
        )?;
        return Ok(());
    }
    add_row(centre.normal, first.edge.label, labels, centre.row, blocks)?;
    Ok(())
}

/// Sets the blocks to those of the edges into the centre that begin where the one at this place does. Answers the place
/// of the next one that begins elsewhere.
fn set_source_blocks<'a>(
    centre: &Centre<'a>,
    mut place: usize,
    labels: &mut Vec<LabelId>,
    blocks: &mut Vec<Block<'a>>,
) -> Result<usize, AllocError>
    requires row { centre.now.row.now ≡ row_of centre.now.vertex.0 centre.now.rows.now.edges }
    requires newer { centre.now.newer.now ≡ newer_edges centre.now.since centre.now.row.now }
    requires links { AreLinks centre.now.rows.now.edges 0 centre.now.next.now }
    requires at { AtSource centre.now.rows.now.edges centre.now.vertex place }
    requires there { place < length centre.now.rows.now.edges }
    ensures next { IfOk result (λ end. IsNextSource centre.now.rows.now.edges centre.now.vertex place end) }
    ensures blocks { OnOk result ((u : AVertex) → BeginsAt centre.now.rows.now.edges place u.0
        → GivesJoins (IsCandidate (normal_form centre.now.normal.now) centre.now.rows.now.edges centre.now.since
        centre.now.vertex) u blocks.new.items) }
{
    blocks.clear();
    let edges = centre.rows.edges();
    let count = centre.rows.len();
    let source = edges[place].edge.src;
    while place < count && edges[place].edge.src.0 == source.0 {
        add_in_edge(centre, edges[place], labels, blocks)?;
        place = centre.next[place];
    }
    Ok(place)
}

/// Adds the joins through the centre that the rows lack from the source of the edge at a place. Answers the place of the
/// next edge into the centre that begins elsewhere.
fn join_source<'a>(
    centre: &Centre<'a>,
    place: usize,
    labels: &mut Vec<LabelId>,
    blocks: &mut Vec<Block<'a>>,
    sieve: &mut Sieve,
    out: &mut Vec<Edge>,
) -> Result<usize, AllocError>
    requires row { centre.now.row.now ≡ row_of centre.now.vertex.0 centre.now.rows.now.edges }
    requires newer { centre.now.newer.now ≡ newer_edges centre.now.since centre.now.row.now }
    requires links { AreLinks centre.now.rows.now.edges 0 centre.now.next.now }
    requires at { AtSource centre.now.rows.now.edges centre.now.vertex place }
    requires there { place < length centre.now.rows.now.edges }
    ensures next { IfOk result (λ end. IsNextSource centre.now.rows.now.edges centre.now.vertex place end) }
    ensures joins { OnOk result (AppendsJoins centre.now.rows.now.edges
        (IsCandidate (normal_form centre.now.normal.now) centre.now.rows.now.edges centre.now.since
        centre.now.vertex) (BeginsAt centre.now.rows.now.edges place) out.old.items out.new.items) }
{
    let vertex = centre.rows.edges()[place].edge.src;
    let end = set_source_blocks(centre, place, labels, blocks)?;
    sieve.join_row(vertex, centre.rows.row(vertex.0), blocks, out)?;
    Ok(end)
}

/// Adds the joins through the centre that the rows lack. The first edge into the centre is given.
fn join_sources<'a>(
    centre: &Centre<'a>,
    mut place: usize,
    sieve: &mut Sieve,
    out: &mut Vec<Edge>,
) -> Result<(), AllocError>
    requires row { centre.now.row.now ≡ row_of centre.now.vertex.0 centre.now.rows.now.edges }
    requires newer { centre.now.newer.now ≡ newer_edges centre.now.since centre.now.row.now }
    requires links { AreLinks centre.now.rows.now.edges 0 centre.now.next.now }
    requires first { IsNextOfRow centre.now.rows.now.edges centre.now.vertex.0 0 place }
    requires none { out.old.items ≡ [] }
    ensures { OnOk result (IsJoinsAt (normal_form centre.now.normal.now) centre.now.rows.now.edges centre.now.since centre.now.vertex out.new.items) }
{
    let alloc = centre.rows.alloc();
    let mut labels = Vec::new(alloc);
    let mut blocks = Vec::new(alloc);
    let count = centre.rows.len();
    while place < count {
        place = join_source(centre, place, &mut labels, &mut blocks, sieve, out)?;
    }
    Ok(())
}

impl<'a> InEdges<'a> {
    /// The joins at a centre that the rows lack, in order.
    fn joins_at(
        &self,
        vertex: Vertex,
        normal: &Normal,
        since: u64,
        sieve: &mut Sieve,
    ) -> Result<EdgeList, AllocError>
        ensures { IfOk result (IsJoinsAt (normal_form normal.now) self.now.edges since vertex) }
    {
        let rows = self.rows();
        let alloc = rows.alloc();
        let row = rows.row(vertex.0);
        let newer = born_since(alloc, row, since)?;
        let centre = Centre {
            rows,
            next: self.next(),
            row,
            newer: newer.as_slice(),
            normal,
            since,
            vertex,
        };
        let mut out = Vec::new(alloc);
        join_sources(&centre, self.first(vertex), sieve, &mut out)?;
        Ok(EdgeList::from_vec(out))
    }

    /// Sets `out` to the joins at a centre that the rows lack, in order: each edge that an edge into the centre and one
    /// out of it join to, of which one is born at or after `since`. After `AllocError` `out` is empty.
    ///
    /// Only the edges into the centre and those out of it are looked at, and for each join a few of its source's row.
    pub fn join_at(
        &self,
        centre: Vertex,
        normal: &Normal,
        since: u64,
        sieve: &mut Sieve,
        out: &mut EdgeList,
    ) -> Result<(), AllocError>
        ensures ok { OnOk result (IsJoinsAt (normal_form normal.now) self.now.edges since centre out.new) }
        ensures err { OnErr result (out.new ≡ []) }
    {
        out.clear();
        let joins = self.joins_at(centre, normal, since, sieve)?;
        *out = joins;
        Ok(())
    }
}

impl Rows {
    /// The same as `join_at` of the index, for one centre: it makes the index first, in a pass over all edges.
    pub fn join_at(
        &self,
        centre: Vertex,
        normal: &Normal,
        since: u64,
        out: &mut EdgeList,
    ) -> Result<(), AllocError>
        ensures ok { OnOk result (IsJoinsAt (normal_form normal.now) self.now.edges since centre out.new) }
        ensures err { OnErr result (out.new ≡ []) }
    {
        out.clear();
        let index = self.in_edges()?;
        let mut sieve = Sieve::new(self.alloc());
        index.join_at(centre, normal, since, &mut sieve, out)?;
        Ok(())
    }
}
