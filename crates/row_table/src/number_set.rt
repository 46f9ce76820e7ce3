//! Sets of numbers, as of vertices or of labels, that are emptied at once.
ghost use Rattle.std.specs.Prelude.{◌↔◌, ◌<◌, ℕ, length, IsTrue, IfOk, OnOk, MatchBool};
ghost use Rattle.row_table.specs.Sieve.{HasNumber, IsEmptySet, AddsNumber};

use std::alloc::{AllocError, Global};
use std::marker::Model;

/// A set of numbers. Each number up to the greatest that was ever added has the turn in which it was last added, so that
/// the set is emptied by one more turn.
#[derive(Drop)]
pub(crate) struct NumberSet {
    marks: Vec<u32>,
    turn: u32,
}

impl Model for NumberSet {
    ghost use Rattle.std.specs.Prelude.{◌<◌, ◌≤◌, ◌==◌, Bool, List, All, map};

    ghost Value = { List Bool };

    ghost view = { λ s. map (λ m. m == s.turn) s.marks.items };

    ghost invariant = { λ s. (0 < s.turn) × All (λ m. m ≤ s.turn) s.marks.items };
}

impl NumberSet {
    /// The empty set. It takes no memory.
    pub(crate) fn new(alloc: Global) -> Self
        ensures { IsEmptySet result }
    {
        NumberSet {
            marks: Vec::new(alloc),
            turn: 1,
        }
    }

    pub(crate) fn has(&self, number: u32) -> bool
        ensures { IsTrue result ↔ HasNumber self.now number }
    {
        let at = number as usize;
        at < self.marks.len() && self.marks[at] == self.turn
    }

    /// Makes the table long enough to have a place.
    fn reach(&mut self, at: usize) -> Result<(), AllocError>
        ensures long { OnOk result (at < length self.new) }
        ensures same { OnOk result ((v : ℕ) → HasNumber self.new v ↔ HasNumber self.old v) }
    {
        if at >= self.marks.len() {
            self.marks.resize(at.saturating_add(1), 0)?;
        }
        Ok(())
    }

    /// Adds a number whose place is there, and answers whether it was not there.
    fn put(&mut self, number: u32) -> bool
        requires { number < length self.old }
        ensures added { AddsNumber self.old self.new number }
        ensures new { MatchBool result (HasNumber self.old number → ⊥) (HasNumber self.old number) }
    {
        let at = number as usize;
        if self.marks[at] == self.turn {
            return false;
        }
        self.marks[at] = self.turn;
        true
    }

    /// Adds a number, and answers whether it was not there.
    pub(crate) fn add(&mut self, number: u32) -> Result<bool, AllocError>
        ensures added { OnOk result (AddsNumber self.old self.new number) }
        ensures new { IfOk result (λ new. MatchBool new (HasNumber self.old number → ⊥) (HasNumber self.old number)) }
    {
        self.reach(number as usize)?;
        Ok(self.put(number))
    }

    /// Begins again at the first turn, with a new table.
    fn restart(&mut self)
        ensures { IsEmptySet self.new }
    {
        self.marks.clear();
        self.turn = 1;
    }

    /// Takes all numbers out, and keeps the memory.
    pub(crate) fn clear(&mut self)
        ensures { IsEmptySet self.new }
    {
        if self.turn == u32::MAX {
            self.restart();
            return;
        }
        self.turn += 1;
    }
}
