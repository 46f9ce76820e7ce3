//! What the edges of a partition count.
ghost use Rattle.std.specs.Prelude.{◌≡◌, ◌+◌, ◌++◌, ◌∷◌, [], ◌^◌, ◌<◌, ◌≤◌, ℕ, List, length, slice_index_or, slice_set, IfOk};
ghost use Rattle.graph_words.specs.declared.types.Born.{Born as ABorn};
ghost use Rattle.closing_machine.specs.State.{place, target};
ghost use Rattle.intervals.specs.Bounds.{vertices_of, IsCut as IsCutAt};
ghost use Rattle.open_store.specs.PartRead.{count_below_of};
ghost use Rattle.open_store.specs.Stream.{IsTally};

use graph_words::Born;
use intervals::Intervals;
use std::alloc::{AllocError, Global};

/// How many edges end in each interval, and the greatest birth among them, 0 where there is none.
#[derive(Drop)]
pub struct Tally {
    /// The number of edges that end in each interval, in order.
    pub row: Vec<u64>,
    /// The greatest birth.
    pub newest: u64,
}

/// How many vertices the intervals have together.
fn covered(intervals: &Intervals) -> u32
    ensures vertices { result ≡ vertices_of intervals.now }
{
    let count = intervals.len();
    if count == 0 {
        return 0;
    }
    intervals.bounds(count - 1).1
}

/// The number of the interval that has the vertex, and how many there are where none has.
fn interval_of(intervals: &Intervals, vertices: u32, v: u32) -> usize
    requires { vertices ≡ vertices_of intervals.now }
    ensures { result ≡ place intervals.now v }
{
    let count = intervals.len();
    if v < vertices {
        intervals.find(v)
    } else {
        count
    }
}

/// How many of the edges end in interval `i` below a vertex.
pub(crate) fn count_below(intervals: &Intervals, i: usize, at: u32, edges: &[Born]) -> u64
    ensures count { result ≡ count_below_of intervals.now i at edges.now }
    ensures few { result ≤ length edges.now }
{
    let vertices = covered(intervals);
    let mut below = 0;
    for born in edges {
        let end = born.edge.dst.0;
        if end < at && interval_of(intervals, vertices, end) == i {
            below += 1;
        }
    }
    below
}

/// Counts one more at a place of a row, where it has the place.
fn count_at(row: &mut Vec<u64>, j: usize)
    requires room { slice_index_or row.old.items j 0 + 1 < 2 ^ 64 }
    ensures within { j < length row.old.items → row.new.items ≡ slice_set row.old.items j (slice_index_or row.old.items j 0 + 1) }
    ensures behind { length row.old.items ≤ j → row.new.items ≡ row.old.items }
    ensures little { (k : ℕ) → slice_index_or row.new.items k 0 ≤ slice_index_or row.old.items k 0 + 1 }
{
    if j < row.len() {
        row[j] += 1;
    }
}

impl Tally {
    /// No edge was counted.
    pub(crate) fn zero(alloc: Global, intervals: &Intervals) -> Result<Tally, AllocError>
        ensures { IfOk result (λ t. IsTally intervals.now [] t.row.items t.newest) }
    {
        Ok(Tally {
            row: vec![in alloc; 0; intervals.len()]?,
            newest: 0,
        })
    }

    /// Counts one edge more.
    fn add(&mut self, intervals: &Intervals, vertices: u32, born: &Born)
        requires vertices { vertices ≡ vertices_of intervals.now }
        requires room { (j : ℕ) → slice_index_or self.old.row.items j 0 + 1 < 2 ^ 64 }
        ensures tally { (before : List ABorn) → IsTally intervals.now before self.old.row.items self.old.newest
            → IsTally intervals.now (before ++ born.now ∷ []) self.new.row.items self.new.newest }
        ensures room { (j : ℕ) → slice_index_or self.new.row.items j 0 ≤ slice_index_or self.old.row.items j 0 + 1 }
    {
        let j = interval_of(intervals, vertices, born.edge.dst.0);
        count_at(&mut self.row, j);
        self.newest = self.newest.max(born.birth);
    }

    /// Counts each of the edges.
    pub(crate) fn add_all(&mut self, intervals: &Intervals, edges: &[Born])
        requires room { (j : ℕ) → slice_index_or self.old.row.items j 0 + length edges.now < 2 ^ 64 }
        ensures tally { (before : List ABorn) → IsTally intervals.now before self.old.row.items self.old.newest
            → IsTally intervals.now (before ++ edges.now) self.new.row.items self.new.newest }
    {
        let vertices = covered(intervals);
        for born in edges {
            self.add(intervals, vertices, born);
        }
    }
}
