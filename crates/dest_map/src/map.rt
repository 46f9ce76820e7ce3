ghost use Rattle.std.specs.Prelude.{◌≡◌, ◌+◌, ◌-◌, ◌*◌, ◌^◌, ◌<◌, ◌≤◌, ◌==◌, ◌&&◌, ◌||◌, ℕ, List, [], length, sum};
ghost use Rattle.std.specs.Prelude.{replicate, slice_index_or, if◌then◌else◌, IfOk, OnOk, OnErr, IsPermutation};
ghost use Rattle.std.specs.Prelude.{◌∷◌};
ghost use Rattle.graph_words.specs.declared.types.Born.{Born as ABorn};
ghost use Rattle.closing_machine.specs.State.{part, target};
ghost use Rattle.closing_machine.specs.Machine.{parent};
ghost use Rattle.dest_map.specs.Table.{IsFilled, IsPartOf, counts_of, is_child, share, split_count};
ghost use Rattle.dest_map.specs.Cut.{after_cut};
ghost use Rattle.dest_map.specs.Counts.{AreShares, IsCountsOf, cut_ends};

use std::alloc::{AllocError, Global};
use std::marker::Model;

/// How many edges lead from each partition into each.
///
/// A square table, kept row after row. Contracts see it as its size and the list of its counts.
#[derive(Drop)]
pub struct DestMap {
    size: usize,
    counts: Vec<u64>,
}

/// A partition that is cut in two, and what its low child has of its counts.
#[derive(Clone, Copy)]
struct Cut<'a> {
    i: usize,
    low_row: &'a [u64],
    low_column: &'a [u64],
    corner: [u64; 4],
}

impl Model for DestMap {
    ghost use Rattle.std.specs.Prelude.{◌≡◌, ◌*◌, ℕ, List, length};

    ghost Value = { ℕ × List ℕ };

    ghost view = { λ m. (m.size, m.counts.items) };

    ghost invariant = { λ m. length m.counts.items ≡ m.size * m.size };
}

impl DestMap {
    /// The map of `k` partitions without edges.
    pub fn zero(alloc: Global, k: usize) -> Result<DestMap, AllocError>
        ensures table { IfOk result (λ m. m ≡ (k, replicate (k * k) 0)) }
        ensures zero { IfOk result (λ m. (i j : ℕ) → counts_of m i j ≡ 0) }
        ensures counts { IfOk result (λ m. (ends : List ℕ) → length ends ≡ k → IsCountsOf ends [] m) }
    {
        let counts = vec![in alloc; 0; square(k)?]?;
        Ok(DestMap { size: k, counts })
    }

    /// The map of `size` partitions with these counts, row after row. It takes no memory.
    pub fn of_counts(size: usize, counts: Vec<u64>) -> DestMap
        requires { length counts.items ≡ size * size }
        ensures { result ≡ (size, counts.items) }
    {
        DestMap { size, counts }
    }

    /// The counts of a map, row after row, to be changed. It takes no memory.
    pub fn into_counts(self) -> Vec<u64>
        ensures { result.items ≡ self.1 }
    {
        self.counts
    }

    /// The counts, row after row.
    pub fn counts(&self) -> &[u64]
        ensures { result.now ≡ self.now.1 }
    {
        self.counts.as_slice()
    }

    /// The number of partitions.
    pub fn len(&self) -> usize
        ensures len { result ≡ self.now.0 }
        ensures table { length self.now.1 ≡ self.now.0 * self.now.0 }
    {
        self.size
    }

    /// How many edges of partition `i` have their destination in partition `j`.
    pub fn count(&self, i: usize, j: usize) -> u64
        requires i { i < self.now.0 }
        requires j { j < self.now.0 }
        ensures { result ≡ counts_of self.now i j }
    {
        self.counts[i * self.size + j]
    }

    /// Counts one more edge from partition `i` into partition `j`.
    pub fn add(&mut self, i: usize, j: usize)
        requires i { i < self.old.0 }
        requires j { j < self.old.0 }
        requires room { counts_of self.old i j + 1 < 2 ^ 64 }
        ensures size { self.new.0 ≡ self.old.0 }
        ensures entries { (a b : ℕ) → counts_of self.new a b ≡ (if a == i && b == j then counts_of self.old a b + 1 else counts_of self.old a b) }
        ensures counts { (ends : List ℕ) (before after : List ABorn) (b : ABorn) → IsCountsOf ends before self.old
            → part ends b ≡ i → target ends b ≡ j → IsPermutation (b ∷ before) after
            → IsCountsOf ends after self.new }
    {
        let place = i * self.size + j;
        self.counts[place] += 1;
    }

    /// Cuts partition `i` into a low child, which keeps its number, and a high child behind it. The
    /// partitions behind them move up by one number.
    ///
    /// `low_row[j]` counts the low child's edges into partition `j`, and `low_column[j]` those of `j`
    /// into the low child, both ignored at `i`. `corner` counts the edges between the children:
    /// low-low, low-high, high-low and high-high. The high child has the rest of its parent's counts,
    /// and every other count stays. After `AllocError` the map is as it was.
    pub fn split(
        &mut self,
        i: usize,
        low_row: &[u64],
        low_column: &[u64],
        corner: [u64; 4],
    ) -> Result<(), AllocError>
        requires number { i < self.old.0 }
        requires part { IsPartOf (counts_of self.old) self.old.0 i low_row.now low_column.now }
        requires corner { sum corner ≡ counts_of self.old i i }
        ensures size { OnOk result (self.new.0 ≡ self.old.0 + 1) }
        ensures entries { OnOk result ((a b : ℕ) → counts_of self.new a b
            ≡ split_count i low_row.now low_column.now corner (counts_of self.old) a b) }
        ensures counts { OnOk result ((ends : List ℕ) (edges : List ABorn) (at : ℕ) → IsCountsOf ends edges self.old
            → AreShares ends edges i at low_row.now low_column.now corner
            → IsCountsOf (cut_ends ends i at) edges self.new) }
        ensures err { OnErr result (self.new ≡ self.old) }
    {
        let cut = Cut {
            i,
            low_row,
            low_column,
            corner,
        };
        let size = self.size.checked_add(1).ok_or(AllocError)?;
        let cells = square(size)?;
        let mut counts = Vec::with_capacity(self.counts.allocator().clone()?, cells)?;
        for a in 0..size {
            self.push_row(&mut counts, &cut, a)?;
        }
        self.counts = counts;
        self.size = size;
        Ok(())
    }

    /// Pushes row `a` of the map after the cut.
    fn push_row(&self, counts: &mut Vec<u64>, cut: &Cut<'_>, a: usize) -> Result<(), AllocError>
        requires number { cut.now.i < self.now.0 }
        requires part { IsPartOf (counts_of self.now) self.now.0 cut.now.i cut.now.low_row.now cut.now.low_column.now }
        requires a { a ≤ self.now.0 }
        requires room { self.now.0 + 1 < 2 ^ 64 }
        requires before { IsFilled (after_cut cut.now (counts_of self.now)) (self.now.0 + 1) a 0 counts.old.items }
        ensures { OnOk result (IsFilled (after_cut cut.now (counts_of self.now)) (self.now.0 + 1) (a + 1) 0 counts.new.items) }
    {
        for b in 0..self.size + 1 {
            counts.push(self.split_count(cut, a, b))?;
        }
        Ok(())
    }

    /// The count of the partitions `a` and `b` after the cut.
    fn split_count(&self, cut: &Cut<'_>, a: usize, b: usize) -> u64
        requires number { cut.now.i < self.now.0 }
        requires part { IsPartOf (counts_of self.now) self.now.0 cut.now.i cut.now.low_row.now cut.now.low_column.now }
        requires a { a ≤ self.now.0 }
        requires b { b ≤ self.now.0 }
        ensures { result ≡ after_cut cut.now (counts_of self.now) a b }
    {
        let i = cut.i;
        let (from, into) = (parent_of(i, a), parent_of(i, b));
        match (is_child(i, a), is_child(i, b)) {
            (true, true) => cut.corner[2 * (a - i) + (b - i)],
            (true, false) => share(i, a, cut.low_row[into], self.count(i, into)),
            (false, true) => share(i, b, cut.low_column[from], self.count(from, i)),
            (false, false) => self.count(from, into),
        }
    }

    /// An equal map.
    pub fn copy(&self) -> Result<DestMap, AllocError>
        ensures { IfOk result (λ m. m ≡ self.now) }
    {
        Ok(DestMap {
            size: self.size,
            counts: self.counts.clone()?,
        })
    }
}

/// How many places a square table of this size has. More than a `usize` tells find no memory.
fn square(size: usize) -> Result<usize, AllocError>
    ensures { IfOk result (λ cells. cells ≡ size * size) }
{
    size.checked_mul(size).ok_or(AllocError)
}

/// The partition of which `a` is a part, where partition `i` was cut in two.
pub fn parent_of(i: usize, a: usize) -> usize
    ensures { result ≡ parent i a }
{
    if a <= i { a } else { a - 1 }
}

/// Whether `a` is one of the two children of partition `i`.
fn is_child(i: usize, a: usize) -> bool
    ensures { result ≡ is_child i a }
{
    a == i || (a > 0 && a - 1 == i)
}

/// The part of a whole that child `a` of partition `i` has, where the low child has `low`.
fn share(i: usize, a: usize, low: u64, whole: u64) -> u64
    requires { low ≤ whole }
    ensures { result ≡ share i a low whole }
{
    if a == i { low } else { whole - low }
}
