//! Changed partitions are put into free files.
ghost use Rattle.std.specs.Prelude.{◌≡◌, ◌≢◌, ◌<◌, ◌≤◌, IsTrue, true, false, All, Contains, IfOk, length};
ghost use Rattle.faults.specs.Reasons.{HasReason, blames_none};
ghost use Rattle.store_fault.specs.Faults.{why_of};
ghost use Rattle.graph_words.specs.declared.types.Born.{Born as ABorn};
ghost use Rattle.disk_model.specs.View.{LeavesBy, on_disk};
ghost use Rattle.pair_sched.specs.Marks.{newest_of};
ghost use Rattle.closer.specs.NextManifest.{ArePut, IsWell, MayPutPart, MayPutPair, Puts, Replaces, Spares, TakesOn};

use crate::next_manifest::{file_for, with_file, with_row};
use crate::pair::Ran;
use disk_model::Disk;
use graph_words::Born;
use manifest_codec::Manifest;
use open_store::{Store, StoreFault, Tally};
use partition_file::Partition;
use std::alloc::Global;

// Whether some edge was born at or after a round.
fn has_new(edges: &[Born], round: u64) -> bool
    ensures some { result ≡ true → (b : ABorn) × Contains edges.now b × (round ≤ b.birth) }
    ensures none { result ≡ false → All (λ b. b.birth < round) edges.now }
{
    for born in edges {
        if round <= born.birth {
            return true;
        }
    }
    false
}

// The manifest in which partition `i` is in another file, with other counts and another newest birth.
fn with_part(mut next: Manifest, i: usize, file: u32, tally: Tally) -> Manifest
    requires well { IsWell next }
    requires there { i < length next.parts }
    requires row { length tally.row.items ≡ length next.parts }
    requires rises { newest_of next.marks i ≤ tally.newest }
    requires free { 4 ≤ file }
    requires within { file < 1024 }
    requires untaken { All (λ p. p.file ≢ file) next.parts }
    ensures { Replaces next i file tally.row.items tally.newest result }
{
    next.parts = with_file(next.parts, i, file);
    next.map = with_row(next.map, i, &tally.row);
    next.marks.raise(i, tally.newest);
    let _size = next.marks.len();
    next
}

/// Puts partition `i` into a free file where it has an edge that was born at or after the store's
/// round, and tells of it in the manifest that is made. Else nothing changes.
pub(crate) fn put_changed<D: Disk>(
    alloc: Global,
    disk: &mut D,
    store: &Store,
    next: Manifest,
    i: usize,
    part: &Partition,
) -> Result<Manifest, StoreFault>
    requires may { MayPutPart store.now D.tells (D.seen disk.old) i part.now next }
    ensures takes { IfOk result (TakesOn store.now.manifest.round i part.now.edges next) }
    ensures puts { IsTrue D.tells → IfOk result (λ after. Puts store.now.manifest i part.now next after (D.seen disk.old) (D.seen disk.new)) }
    ensures any_moment { LeavesBy D.Disk disk.old disk.new (Spares store.now.manifest) }
    ensures later { D.faults disk.old ≤ D.faults disk.new }
    ensures cause { HasReason why_of (on_disk D.Disk disk.old disk.new blames_none) result }
{
    if !has_new(part.edges(), store.manifest().round) {
        return Ok(next);
    }
    let tally = store.tally(alloc, part.edges())?;
    let file = file_for(alloc, store, &next)?;
    store.put_part(alloc, disk, file, part)?;
    Ok(with_part(next, i, file, tally))
}

/// Puts what changed of a pair, the low partition first.
pub(crate) fn put_pair<D: Disk>(
    alloc: Global,
    disk: &mut D,
    store: &Store,
    next: Manifest,
    pair: (usize, usize),
    ran: &Ran,
) -> Result<Manifest, StoreFault>
    requires may { MayPutPair store.now D.tells (D.seen disk.old) pair.0 pair.1 ran.now.low ran.now.high next }
    ensures put { IfOk result (λ after. ArePut store.now.manifest D.tells pair.0 pair.1 ran.now.low ran.now.high next
        (D.seen disk.old) after (D.seen disk.new)) }
    ensures any_moment { LeavesBy D.Disk disk.old disk.new (Spares store.now.manifest) }
    ensures later { D.faults disk.old ≤ D.faults disk.new }
    ensures cause { HasReason why_of (on_disk D.Disk disk.old disk.new blames_none) result }
{
    let next = put_changed(alloc, disk, store, next, pair.0, &ran.low)?;
    match &ran.high {
        None => Ok(next),
        Some(part) => put_changed(alloc, disk, store, next, pair.1, part),
    }
}
