//! The names of the innermost scope, and those of the scopes around it.
ghost use Rattle.std.specs.Prelude.{◌≡◌, ◌<◌, ◌≤◌, ◌↔◌, IsTrue, ◌++◌, ◌∷◌, [], length, is_some, OnOk, OnErr};
ghost use Rattle.visible_names.specs.Names.{Bound, bound_to};

use std::alloc::{AllocError, Global};
use std::collections::BTreeMap;
use std::marker::Model;

/// A name that was bound, and where the name was bound before, if it was.
#[derive(Clone, Copy)]
pub(crate) struct Entry<'p> {
    pub(crate) name: &'p [u8],
    pub(crate) vertex: u32,
    pub(crate) before: Option<usize>,
}

/// The visible names with the vertices of their variables.
///
/// Contracts see the names of the innermost scope and those of the scopes around it, the last one first. A name is
/// looked up in time that grows with the logarithm of the number of names, and no scope is copied.
#[derive(Drop)]
pub struct VisibleNames<'p> {
    entries: Vec<Entry<'p>>,
    latest: BTreeMap<&'p [u8], usize>,
    start: usize,
}

impl<'p> Model for VisibleNames<'p> {
    ghost use Rattle.std.specs.Prelude.{◌≤◌, ℕ, List, ◌≡◌, length, take, drop, reverse, map};
    ghost use Rattle.std.specs.BTreeMap.{get_by};
    ghost use Rattle.visible_names.specs.Names.{Names};
    ghost use Rattle.visible_names.specs.Kept.{bounds, IsLatest, KeepsBefore};

    ghost Value = { Names };

    ghost view = { λ n. record { inner = bounds (reverse (drop n.start n.entries.items)); outer = bounds (reverse (take n.start n.entries.items)) } };

    ghost invariant = { λ n. (n.start ≤ length n.entries.items) × IsLatest n.latest (reverse n.entries.items) × KeepsBefore (reverse n.entries.items) };
}

impl<'p> VisibleNames<'p> {
    /// No names.
    pub fn new(alloc: Global) -> VisibleNames<'p>
        ensures { result ≡ record { inner = []; outer = [] } }
    {
        VisibleNames {
            entries: Vec::new(alloc),
            latest: BTreeMap::new(alloc),
            start: 0,
        }
    }

    /// The vertex of a name, of the innermost scope that has it.
    pub fn find(&self, name: &[u8]) -> Option<u32>
        ensures { result ≡ bound_to name.now (self.now.inner ++ self.now.outer) }
    {
        match self.latest.get(name) {
            Some(at) => Some(self.entries[*at].vertex),
            None => None,
        }
    }

    /// Whether the innermost scope has a name.
    pub fn is_inner(&self, name: &[u8]) -> bool
        ensures { result ≡ is_some (bound_to name.now self.now.inner) }
    {
        match self.latest.get(name) {
            Some(at) => self.start <= *at,
            None => false,
        }
    }

    /// Adds a name to the innermost scope. A refusal changes nothing.
    pub fn bind(&mut self, name: &'p [u8], vertex: u32) -> Result<(), AllocError>
        ensures bound { OnOk result (self.new ≡ record { inner = record { name = name.now; vertex = vertex } ∷ self.old.inner; outer = self.old.outer }) }
        ensures err { OnErr result (self.new ≡ self.old) }
    {
        let before = self.latest.get(name).copied();
        self.entries.reserve(1)?;
        self.latest.insert(name, self.entries.len())?;
        self.entries.push(Entry {
            name,
            vertex,
            before,
        })?;
        Ok(())
    }

    /// Begins a scope, and answers how many names stood around the one before.
    pub fn open(&mut self) -> usize
        ensures names { self.new ≡ record { inner = []; outer = self.old.inner ++ self.old.outer } }
        ensures around { result ≡ length self.old.outer }
    {
        let around = self.start;
        self.start = self.entries.len();
        around
    }

    /// Whether the innermost scope has names.
    fn has_inner(&self) -> bool
        ensures { IsTrue result ↔ (0 < length self.now.inner) }
    {
        self.entries.len() > self.start
    }

    /// Lets the last name of the innermost scope go: where it was bound before it is found again.
    fn forget_last(&mut self)
        requires { 0 < length self.old.inner }
        ensures { (last : Bound) × (self.old ≡ record { inner = last ∷ self.new.inner; outer = self.new.outer }) }
    {
        let Some(last) = self.entries.pop() else {
            return;
        };
        match last.before {
            Some(at) => {
                if let Some(latest) = self.latest.get_mut(last.name) {
                    *latest = at;
                }
            }
            None => {
                self.latest.remove(last.name);
            }
        }
    }

    /// Ends a scope: the names around it are visible again, of which as many stand around the innermost scope.
    pub fn close(&mut self, around: usize)
        requires { around ≤ length self.old.outer }
        ensures names { self.new.inner ++ self.new.outer ≡ self.old.outer }
        ensures around { length self.new.outer ≡ around }
    {
        while self.has_inner() {
            self.forget_last();
        }
        self.start = around;
    }
}
