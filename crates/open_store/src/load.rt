//! Partitions are loaded, or only counted.
ghost use Rattle.std.specs.Prelude.{◌≡◌, ◌↔◌, ◌<◌, ◌≤◌, ◌+◌, ◌++◌, ◌^◌, [], ℕ, List, IsTrue, true, false, length, slice_index_or, Err, IfOk, OnOk};
ghost use Rattle.faults.specs.Reasons.{HasReason, blames_none, disk_causes};
ghost use Rattle.store_fault.specs.Faults.{why_of};
ghost use Rattle.graph_words.specs.declared.types.Born.{Born as ABorn};
ghost use Rattle.dest_map.specs.Table.{counts_of};
ghost use Rattle.faults.specs.declared.form_kind.FormKind.TheVariants.{Counts};
ghost use Rattle.disk_model.specs.View.{OnlyLooks, on_disk};
ghost use Rattle.store_fault.specs.declared.fault.StoreFault.TheVariants.{DiskFault};
ghost use Rattle.pair_sched.specs.Marks.{newest_of};
ghost use Rattle.store_law.specs.Listed.{part_file, part_of};
ghost use Rattle.open_store.specs.PartRead.{IsRead, IsRefused, IsTold, count_below_of};
ghost use Rattle.open_store.specs.Store.{expect_in};
ghost use Rattle.open_store.specs.Stream.{IsAt, IsStream, IsTally};

use crate::store::Store;
use crate::stream::PartStream;
use crate::tally::{Tally, count_below};
use disk_model::{Disk, FormKind};
use graph_words::Born;
use partition_file::Partition;
use std::alloc::Global;
use store_fault::StoreFault;

impl Store {
    // A stream of partition `i`.
    fn stream<D: Disk>(
        &self,
        alloc: Global,
        disk: &mut D,
        i: usize,
    ) -> Result<PartStream, StoreFault>
        requires { i < length self.now.manifest.parts }
        ensures bounds { (expect_in self.now i).lo < (expect_in self.now i).hi }
        ensures begun { IfOk result (λ s. (s.file ≡ part_file self.now.manifest i) × IsStream s
            × IsAt (expect_in self.now i) D.tells (D.seen disk.old (part_file self.now.manifest i)) [] [] s) }
        ensures looks { OnlyLooks D.Disk disk.old disk.new }
        ensures cause { HasReason why_of (on_disk D.Disk disk.old disk.new blames_none) result }
    {
        PartStream::begin(alloc, disk, self.file(i), self.expect(i))
    }

    // Whether the manifest's counts for partition `i` and its newest birth are those of a tally.
    fn tells(&self, i: usize, tally: &Tally) -> bool
        requires i { i < length self.now.manifest.parts }
        requires row { length tally.now.row.items ≡ length self.now.manifest.parts }
        ensures told { result ≡ true → (edges : List ABorn)
            → IsTally self.now.ends edges tally.now.row.items tally.now.newest → IsTold self.now.manifest i edges }
        ensures other { result ≡ false → (edges : List ABorn)
            → IsTally self.now.ends edges tally.now.row.items tally.now.newest → IsTold self.now.manifest i edges
            → ⊥ }
    {
        for (j, count) in tally.row.iter().enumerate() {
            if self.manifest.map.count(i, j) != *count {
                return false;
            }
        }
        self.manifest.marks.newest(i) == tally.newest
    }

    // Refuses partition `i` where the manifest tells of other edges.
    fn check(&self, i: usize, tally: &Tally) -> Result<(), StoreFault>
        requires i { i < length self.now.manifest.parts }
        requires row { length tally.now.row.items ≡ length self.now.manifest.parts }
        ensures told { (edges : List ABorn) → IsTally self.now.ends edges tally.now.row.items tally.now.newest
            → OnOk result (IsTold self.now.manifest i edges) }
        ensures cause { HasReason why_of (disk_causes ⊥ (λ file place kind. (file ≡ part_file self.now.manifest i) × (place ≡ 0)
            × (kind ≡ Counts) × ((edges : List ABorn)
            → IsTally self.now.ends edges tally.now.row.items tally.now.newest → IsTold self.now.manifest i edges
            → ⊥))) result }
    {
        if self.tells(i, tally) {
            return Ok(());
        }
        Err(StoreFault::BadStore {
            file: self.file(i),
            place: 0,
            kind: FormKind::Counts,
        })
    }

    // Room for the edges of partition `i`: as many as the manifest tells of, and no more than the bytes
    // of its file can hold.
    fn room(&self, i: usize, most: usize) -> usize
        requires { i < length self.now.manifest.parts }
        ensures { result ≤ most }
    {
        let mut told = 0u64;
        for j in 0..self.manifest.map.len() {
            told = told.saturating_add(self.manifest.map.count(i, j));
        }
        most.min(told as usize)
    }

    // The edges of partition `i`.
    fn edges<D: Disk>(&self, alloc: Global, disk: &mut D, i: usize) -> Result<Vec<Born>, StoreFault>
        requires { i < length self.now.manifest.parts }
        ensures read { IfOk result (λ v. IsRead self.now i D.tells (D.seen disk.old (part_file self.now.manifest i)) v.items) }
        ensures looks { OnlyLooks D.Disk disk.old disk.new }
        ensures cause { HasReason why_of (on_disk D.Disk disk.old disk.new
            (λ file place kind. (file ≡ part_file self.now.manifest i)
            × (IsTrue D.tells → IsRefused self.now i (D.seen disk.old file) place kind))) result }
    {
        let mut stream = self.stream(alloc, disk, i)?;
        let room = self.room(i, stream.most_edges(&self.expect(i)));
        let mut edges = Vec::with_capacity(alloc, room)?;
        while stream.next(disk, &mut edges)? {}
        let mut tally = Tally::zero(alloc, &self.intervals)?;
        tally.add_all(&self.intervals, &edges);
        self.check(i, &tally)?;
        Ok(edges)
    }

    /// Loads partition `i`.
    ///
    /// At Ok it keeps the rules of its format, and the manifest's counts and newest birth are its own,
    /// on any disk; where the disk tells its contents, its file spells it. `BadStore` blames this file:
    /// for its first field that breaks a rule, or with kind Counts at place 0 where the manifest tells
    /// of other edges. `DiskFault` comes only where the disk's count rose.
    pub fn load<D: Disk>(
        &self,
        alloc: Global,
        disk: &mut D,
        i: usize,
    ) -> Result<Partition, StoreFault>
        requires { i < length self.now.manifest.parts }
        ensures part { IfOk result (λ p. p ≡ part_of self.now.manifest i p.edges) }
        ensures read { IfOk result (λ p. IsRead self.now i D.tells (D.seen disk.old (part_file self.now.manifest i)) p.edges) }
        ensures looks { OnlyLooks D.Disk disk.old disk.new }
        ensures cause { HasReason why_of (on_disk D.Disk disk.old disk.new
            (λ file place kind. (file ≡ part_file self.now.manifest i)
            × (IsTrue D.tells → IsRefused self.now i (D.seen disk.old file) place kind))) result }
    {
        let edges = self.edges(alloc, disk, i)?;
        let (lo, hi) = self.intervals.bounds(i);
        Ok(Partition::new(lo, hi, edges))
    }

    /// How many edges of partition `j` have their destination in partition `i` and below a vertex.
    ///
    /// The file is read in pieces of 65,536 bytes, and refused as `load` refuses it.
    pub fn count_below<D: Disk>(
        &self,
        alloc: Global,
        disk: &mut D,
        j: usize,
        i: usize,
        at: u32,
    ) -> Result<u64, StoreFault>
        requires { j < length self.now.manifest.parts }
        ensures count { IfOk result (λ n. (edges : List ABorn)
            × IsRead self.now j D.tells (D.seen disk.old (part_file self.now.manifest j)) edges
            × (n ≡ count_below_of self.now.ends i at edges)) }
        ensures looks { OnlyLooks D.Disk disk.old disk.new }
        ensures cause { HasReason why_of (on_disk D.Disk disk.old disk.new
            (λ file place kind. (file ≡ part_file self.now.manifest j)
            × (IsTrue D.tells → IsRefused self.now j (D.seen disk.old file) place kind))) result }
    {
        let mut stream = self.stream(alloc, disk, j)?;
        let mut edges = Vec::new(alloc);
        let mut tally = Tally::zero(alloc, &self.intervals)?;
        let mut below = 0;
        while stream.next(disk, &mut edges)? {
            tally.add_all(&self.intervals, &edges);
            below += count_below(&self.intervals, i, at, &edges);
            edges.clear();
        }
        self.check(j, &tally)?;
        Ok(below)
    }
}
