//! A store that is open, and what it says without its disk.
ghost use Rattle.std.specs.Prelude.{◌≡◌, ◌<◌, ◌≤◌, length};
ghost use Rattle.open_store.specs.Store.{IsOpenStore, expect_in};
ghost use Rattle.store_law.specs.Listed.{part_file};

use grammar_norm::Normal;
use intervals::Intervals;
use manifest_codec::Manifest;
use manifest_switch::Slot;
use partition_file::Expect;
use std::marker::Model;

/// A store that is open: its manifest, the normal form of its grammar, and its intervals.
///
/// It holds no partition. Contracts see the slot of its manifest, the manifest, the rules of the
/// grammar, and where the intervals end.
#[derive(Drop)]
pub struct Store {
    pub(crate) slot: Slot,
    pub(crate) manifest: Manifest,
    pub(crate) normal: Normal,
    pub(crate) intervals: Intervals,
}

impl Model for Store {
    ghost use Rattle.open_store.specs.Store.{OpenStore, IsOpenStore};

    ghost Value = { OpenStore };

    ghost view = { λ s. record { slot = s.slot; manifest = s.manifest; rules = s.normal; ends = s.intervals } };

    ghost invariant = { λ s. IsOpenStore (record { slot = s.slot; manifest = s.manifest; rules = s.normal; ends = s.intervals }) };
}

impl Store {
    /// The open store of a manifest: its slot, the normal form of the grammar, and the intervals of
    /// its partitions. It takes no memory.
    pub fn new(slot: Slot, manifest: Manifest, normal: Normal, intervals: Intervals) -> Store
        requires { IsOpenStore (record { slot = slot; manifest = manifest; rules = normal; ends = intervals }) }
        ensures { result ≡ record { slot = slot; manifest = manifest; rules = normal; ends = intervals } }
    {
        Store {
            slot,
            manifest,
            normal,
            intervals,
        }
    }

    /// What the store says of itself.
    pub fn manifest(&self) -> &Manifest
        ensures manifest { result.now ≡ self.now.manifest }
        ensures store { IsOpenStore self.now }
    {
        &self.manifest
    }

    /// The normal form of its grammar.
    pub fn normal(&self) -> &Normal
        ensures normal { result.now ≡ self.now.rules }
        ensures store { IsOpenStore self.now }
    {
        &self.normal
    }

    /// The intervals of its partitions.
    pub fn intervals(&self) -> &Intervals
        ensures intervals { result.now ≡ self.now.ends }
        ensures store { IsOpenStore self.now }
    {
        &self.intervals
    }

    /// What the file of partition `i` has to keep.
    pub(crate) fn expect(&self, i: usize) -> Expect
        requires { i < length self.now.manifest.parts }
        ensures expect { result ≡ expect_in self.now i }
        ensures bounds { result.lo < result.hi }
    {
        let (lo, hi) = self.intervals.bounds(i);
        Expect {
            lo,
            hi,
            vertices: self.manifest.vertices,
            round: self.manifest.round,
            named: self.manifest.labels.len() as u16,
            fresh: self.normal.fresh() as u16,
        }
    }

    /// The number of the file of partition `i`.
    pub(crate) fn file(&self, i: usize) -> u32
        requires { i < length self.now.manifest.parts }
        ensures file { result ≡ part_file self.now.manifest i }
        ensures least { 4 ≤ result }
        ensures within { result < 1024 }
    {
        self.manifest.parts.as_slice()[i].file
    }
}
