ghost use Rattle.std.specs.Prelude.{◌≡◌, ◌+◌, ◌*◌, ◌^◌, ◌<◌, ◌≤◌, ◌==◌, ◌&&◌, ℕ, List, length, replicate, if◌then◌else◌, IfOk, OnOk, OnErr};
ghost use Rattle.closing_machine.specs.Machine.{parent};
ghost use Rattle.dest_map.specs.Table.{IsFilled};
ghost use Rattle.pair_sched.specs.Marks.{joined_of, newest_of, split_newest};

use dest_map::parent_of;
use std::alloc::{AllocError, Global};
use std::marker::Model;

/// Up to which birth each ordered pair of partitions is joined, and the greatest birth of each partition.
///
/// The mark of a pair says that every two of its edges that are both born before it have their joins
/// among the edges. The marks are a square table, kept row after row. Contracts see the size, the list
/// of the marks and the list of the newest births.
#[derive(Drop)]
pub struct Marks {
    size: usize,
    joined: Vec<u64>,
    newest: Vec<u64>,
}

impl Model for Marks {
    ghost use Rattle.std.specs.Prelude.{◌≡◌, ◌*◌, ℕ, List, length};

    ghost Value = { ℕ × List ℕ × List ℕ };

    ghost view = { λ m. (m.size, m.joined.items, m.newest.items) };

    ghost invariant = { λ m. (length m.joined.items ≡ m.size * m.size) × (length m.newest.items ≡ m.size) };
}

impl Marks {
    /// The marks of `k` partitions of which nothing is joined, with birth 0 as the newest of each.
    pub fn zero(alloc: Global, k: usize) -> Result<Marks, AllocError>
        ensures table { IfOk result (λ m. m ≡ (k, replicate (k * k) 0, replicate k 0)) }
        ensures joined { IfOk result (λ m. (i j : ℕ) → joined_of m i j ≡ 0) }
        ensures newest { IfOk result (λ m. (i : ℕ) → newest_of m i ≡ 0) }
    {
        let cells = k.checked_mul(k).ok_or(AllocError)?;
        let joined = vec![in alloc; 0; cells]?;
        let newest = vec![in alloc; 0; k]?;
        Ok(Marks {
            size: k,
            joined,
            newest,
        })
    }

    /// The marks of `size` partitions, row after row, and their newest births. It takes no memory.
    pub fn of_rows(size: usize, joined: Vec<u64>, newest: Vec<u64>) -> Marks
        requires joined { length joined.items ≡ size * size }
        requires newest { length newest.items ≡ size }
        ensures { result ≡ (size, joined.items, newest.items) }
    {
        Marks {
            size,
            joined,
            newest,
        }
    }

    /// The marks, row after row.
    pub fn joined_rows(&self) -> &[u64]
        ensures { result.now ≡ self.now.1 }
    {
        self.joined.as_slice()
    }

    /// The newest birth of each partition.
    pub fn newest_rows(&self) -> &[u64]
        ensures { result.now ≡ self.now.2 }
    {
        self.newest.as_slice()
    }

    /// The number of partitions.
    pub fn len(&self) -> usize
        ensures len { result ≡ self.now.0 }
        ensures joined { length self.now.1 ≡ self.now.0 * self.now.0 }
        ensures newest { length self.now.2 ≡ self.now.0 }
    {
        self.size
    }

    /// The birth below which the edges of partition `i` are joined with those of `j`.
    pub fn joined(&self, i: usize, j: usize) -> u64
        requires i { i < self.now.0 }
        requires j { j < self.now.0 }
        ensures { result ≡ joined_of self.now i j }
    {
        self.joined[i * self.size + j]
    }

    /// The greatest birth in partition `i`.
    pub fn newest(&self, i: usize) -> u64
        requires { i < self.now.0 }
        ensures { result ≡ newest_of self.now i }
    {
        self.newest[i]
    }

    /// Marks the edges of partition `i` as joined with those of `j` where both are born before `round`.
    pub fn mark_joined(&mut self, i: usize, j: usize, round: u64)
        requires i { i < self.old.0 }
        requires j { j < self.old.0 }
        requires rises { joined_of self.old i j ≤ round }
        ensures size { self.new.0 ≡ self.old.0 }
        ensures joined { (a b : ℕ) → joined_of self.new a b ≡ (if a == i && b == j then round else joined_of self.old a b) }
        ensures newest { self.new.2 ≡ self.old.2 }
    {
        self.joined[i * self.size + j] = round;
    }

    /// Sets the greatest birth in partition `i`.
    pub fn raise(&mut self, i: usize, birth: u64)
        requires i { i < self.old.0 }
        requires rises { newest_of self.old i ≤ birth }
        ensures size { self.new.0 ≡ self.old.0 }
        ensures joined { self.new.1 ≡ self.old.1 }
        ensures newest { (a : ℕ) → newest_of self.new a ≡ (if a == i then birth else newest_of self.old a) }
    {
        self.newest[i] = birth;
    }

    /// Cuts partition `i` into a low child, which keeps its number, and a high child behind it, whose
    /// newest births are `low` and `high`. The partitions behind them move up by one number.
    ///
    /// Both children have their parent's marks, also with one another. Every other mark and newest
    /// birth stays. After `AllocError` the marks are as they were.
    pub fn split(&mut self, i: usize, low: u64, high: u64) -> Result<(), AllocError>
        requires { i < self.old.0 }
        ensures size { OnOk result (self.new.0 ≡ self.old.0 + 1) }
        ensures joined { OnOk result ((a b : ℕ) → joined_of self.new a b ≡ joined_of self.old (parent i a) (parent i b)) }
        ensures newest { OnOk result ((a : ℕ) → newest_of self.new a ≡ split_newest i low high (newest_of self.old) a) }
        ensures err { OnErr result (self.new ≡ self.old) }
    {
        let size = self.size.checked_add(1).ok_or(AllocError)?;
        let cells = size.checked_mul(size).ok_or(AllocError)?;
        let mut joined = Vec::with_capacity(self.joined.allocator().clone()?, cells)?;
        for a in 0..size {
            self.push_row(&mut joined, i, a)?;
        }
        self.newest.insert(i + 1, high)?;
        self.newest[i] = low;
        self.joined = joined;
        self.size = size;
        Ok(())
    }

    /// Pushes row `a` of the marks in which partition `i` is cut in two.
    fn push_row(&self, joined: &mut Vec<u64>, i: usize, a: usize) -> Result<(), AllocError>
        requires number { i < self.now.0 }
        requires a { a ≤ self.now.0 }
        requires room { self.now.0 + 1 < 2 ^ 64 }
        requires before { IsFilled (λ a b. joined_of self.now (parent i a) (parent i b)) (self.now.0 + 1) a 0 joined.old.items }
        ensures { OnOk result (IsFilled (λ a b. joined_of self.now (parent i a) (parent i b)) (self.now.0 + 1) (a + 1) 0 joined.new.items) }
    {
        for b in 0..self.size + 1 {
            joined.push(self.joined(parent_of(i, a), parent_of(i, b)))?;
        }
        Ok(())
    }

    /// Equal marks.
    pub fn copy(&self) -> Result<Marks, AllocError>
        ensures { IfOk result (λ m. m ≡ self.now) }
    {
        Ok(Marks {
            size: self.size,
            joined: self.joined.clone()?,
            newest: self.newest.clone()?,
        })
    }
}
