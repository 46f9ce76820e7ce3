//! The edges of loaded partitions, row after row.
ghost use Rattle.std.specs.Prelude.{Some, ◌≡◌, ◌↔◌, ◌≤◌, ◌++◌, ℕ, List, All, length, filter, IsTrue, IfSome, IfOk, OnOk, OnErr, nat_le};
ghost use Rattle.graph_words.specs.declared.types.Born.{Born as ABorn};
ghost use Rattle.graph_words.specs.Reach.{IsAscending};
ghost use Rattle.partition_file.specs.Spelling.{Part, IsPart, row_of};
ghost use Rattle.closing_machine.specs.Rounds.{HasEdge, IsOrdered};
ghost use Rattle.row_table.specs.Loaded.{Loaded, LiesInSpan, IsBehind, IsLoaded, IsRow, StandsBehind, loaded_of, newer_of, newer_edges, Absorbs};
ghost use Rattle.row_table.specs.Index.{PartsEdgesAt, AreStarts, AreHighStarts, AreRows};

use crate::ordered_edges::{has_edge, merge};
use crate::row_starts::{row_in, set_starts, starts_of};
use crate::span::Span;
use graph_words::{Born, Edge, EdgeList};
use partition_file::Partition;
use std::alloc::{AllocError, Global};
use std::marker::Model;

/// The edges of one partition, or of two, in order by source, label and destination, with the place where each row begins.
///
/// Contracts see them as `Loaded`: the bounds of the one or two intervals, and the edges.
#[derive(Drop)]
pub struct Rows {
    low: Span,
    high: Option<Span>,
    edges: Vec<Born>,
    /// How many edges stand before each row of the first interval, and behind its last row.
    low_starts: Vec<usize>,
    /// The same for the second interval, and nothing where there is none.
    high_starts: Vec<usize>,
}

impl Model for Rows {
    ghost use Rattle.row_table.specs.Loaded.{Loaded};

    ghost Value = { Loaded };

    ghost use Rattle.row_table.specs.Index.{AreRows};

    ghost view = { λ r. record { low = r.low; high = r.high; edges = r.edges.items } };

    ghost invariant = { λ r. AreRows (record { low = r.low; high = r.high; edges = r.edges.items }) r.low_starts.items r.high_starts.items };
}

/// Where the rows of the second interval begin.
fn high_starts_of(
    alloc: Global,
    edges: &[Born],
    low: Span,
    high: Option<Span>,
) -> Result<Vec<usize>, AllocError>
    requires ordered { IsOrdered edges.now }
    requires behind { IsBehind low high }
    ensures { IfOk result (λ starts. AreHighStarts edges.now high starts.items) }
{
    match high {
        None => Ok(Vec::new(alloc)),
        Some(span) => starts_of(alloc, edges, span),
    }
}

/// The edges of two intervals, cut where the first one ends.
fn two_parts(
    low: Span,
    high: Span,
    mut edges: Vec<Born>,
    count: usize,
) -> Result<(Partition, Option<Partition>), AllocError>
    requires loaded { IsLoaded (record { low = low; high = Some high; edges = edges.items }) }
    requires count { PartsEdgesAt edges.items low.hi count }
    ensures { IfOk result (λ parts. loaded_of parts.0 parts.1 ≡ record { low = low; high = Some high; edges = edges.items }) }
{
    let behind = edges.split_off(count)?;
    let low_part = Partition::new(low.lo, low.hi, edges);
    let high_part = Partition::new(high.lo, high.hi, behind);
    Ok((low_part, Some(high_part)))
}

/// The edges that were born at or after a birth.
pub(crate) fn born_since(alloc: Global, edges: &[Born], since: u64) -> Result<Vec<Born>, AllocError>
    ensures { IfOk result (λ v. v.items ≡ newer_edges since edges.now) }
{
    let mut newer = Vec::new(alloc);
    for born in edges {
        if since <= born.birth {
            newer.push(*born)?;
        }
    }
    Ok(newer)
}

impl Rows {
    /// The rows of these edges.
    fn of_edges(
        alloc: Global,
        low: Span,
        high: Option<Span>,
        edges: Vec<Born>,
    ) -> Result<Rows, AllocError>
        requires { IsLoaded (record { low = low; high = high; edges = edges.items }) }
        ensures { IfOk result (λ r. r ≡ record { low = low; high = high; edges = edges.items }) }
    {
        let low_starts = starts_of(alloc, &edges, low)?;
        let high_starts = high_starts_of(alloc, &edges, low, high)?;
        Ok(Rows {
            low,
            high,
            edges,
            low_starts,
            high_starts,
        })
    }

    /// The rows are in order, and lie in their intervals.
    pub fn limits(&self)
        ensures { IsLoaded self.now }
    {
        let _ = &self.edges;
    }

    /// The allocator of the rows.
    pub(crate) fn alloc(&self) -> Global {
        *self.edges.allocator()
    }

    /// The intervals.
    pub(crate) fn spans(&self) -> (Span, Option<Span>)
        ensures low { result.0 ≡ self.now.low }
        ensures high { result.1 ≡ self.now.high }
        ensures bounds { result.0.lo ≤ result.0.hi }
        ensures high_bounds { IfSome result.1 (λ s. s.lo ≤ s.hi) }
        ensures loaded { IsLoaded self.now }
    {
        (self.low, self.high)
    }

    /// How many edges there are.
    pub fn len(&self) -> usize
        ensures len { result ≡ length self.now.edges }
        ensures loaded { IsLoaded self.now }
    {
        self.edges.len()
    }

    /// The edges, in order.
    pub fn edges(&self) -> &[Born]
        ensures { result.now ≡ self.now.edges }
    {
        self.edges.as_slice()
    }

    /// The edges that begin at a vertex.
    pub(crate) fn row(&self, vertex: u32) -> &[Born]
        ensures row { result.now ≡ row_of vertex self.now.edges }
        ensures loaded { IsLoaded self.now }
    {
        if self.low.has(vertex) {
            return row_in(&self.edges, self.low, &self.low_starts, vertex);
        }
        match self.high {
            None => &[],
            Some(high) => {
                if !high.has(vertex) {
                    return &[];
                }
                row_in(&self.edges, high, &self.high_starts, vertex)
            }
        }
    }

    /// The edges of one partition, or of two, of which the first is the low one. Both are used up, also where memory
    /// ends.
    pub fn of_two(
        alloc: Global,
        low: Partition,
        high: Option<Partition>,
    ) -> Result<Rows, AllocError>
        requires { StandsBehind low high }
        ensures { IfOk result (λ r. r ≡ loaded_of low high) }
    {
        let low_span = Span {
            lo: low.lo(),
            hi: low.hi(),
        };
        match high {
            None => Rows::of_edges(alloc, low_span, None, low.into_edges()),
            Some(high) => {
                let high_span = Span {
                    lo: high.lo(),
                    hi: high.hi(),
                };
                let mut edges = low.into_edges();
                edges.extend_from_slice(high.edges())?;
                Rows::of_edges(alloc, low_span, Some(high_span), edges)
            }
        }
    }

    /// Adds new edges with their birth, which begin in the intervals, and none of which is there. After `AllocError` the
    /// rows are as they were.
    pub fn absorb(&mut self, new: &EdgeList, birth: u64) -> Result<(), AllocError>
        requires ascending { IsAscending new.now }
        requires absent { All (λ e. HasEdge self.old.edges e → ⊥) new.now }
        requires sources { All (λ e. IsRow self.old e.src.0) new.now }
        ensures ok { OnOk result (Absorbs self.old new.now birth self.new) }
        ensures err { OnErr result (self.new ≡ self.old) }
    {
        merge(&mut self.edges, new.as_slice(), birth)?;
        set_starts(&self.edges, self.low, &mut self.low_starts);
        if let Some(high) = self.high {
            set_starts(&self.edges, high, &mut self.high_starts);
        }
        Ok(())
    }

    /// Whether an edge is there, with whatever birth.
    pub fn has(&self, e: Edge) -> bool
        ensures { IsTrue result ↔ HasEdge self.now.edges e }
    {
        has_edge(self.row(e.src.0), e)
    }

    /// The rows with just the edges that were born at or after a birth.
    pub(crate) fn newer(&self, since: u64) -> Result<Rows, AllocError>
        ensures { IfOk result (λ r. r ≡ newer_of since self.now) }
    {
        let alloc = self.alloc();
        let edges = born_since(alloc, &self.edges, since)?;
        Rows::of_edges(alloc, self.low, self.high, edges)
    }

    /// The partitions that were taken, with the edges that were added. The rows are used up, also where memory ends.
    pub fn into_parts(self) -> Result<(Partition, Option<Partition>), AllocError>
        ensures { IfOk result (λ parts. loaded_of parts.0 parts.1 ≡ self) }
    {
        let low = self.low;
        let count = self.low_starts[(low.hi - low.lo) as usize];
        match self.high {
            None => Ok((Partition::new(low.lo, low.hi, self.edges), None)),
            Some(high) => two_parts(low, high, self.edges, count),
        }
    }
}
