//! One step of closing.
ghost use Rattle.std.specs.Prelude.{◌≡◌, ◌<◌, ◌≤◌, IfOk, length};
ghost use Rattle.faults.specs.Reasons.{HasReason};
ghost use Rattle.store_fault.specs.Faults.{why_of};
ghost use Rattle.disk_model.specs.Disk.{Contents};
ghost use Rattle.disk_model.specs.View.{LeavesBy, on_disk};
ghost use Rattle.dest_map.specs.Table.{counts_of};
ghost use Rattle.open_store.specs.Store.{IsHeldAlone};
ghost use Rattle.store_law.specs.Kept.{KeepsStores};
ghost use Rattle.store_law.specs.Left.{HasNoWork};
ghost use Rattle.closer.specs.Answers.{BlamesPicked, IfAgain, IfFinished, IsStepped, Moves};
ghost use Rattle.closer.specs.NextManifest.{BlamesPair, IsNextManifest, IsOrderedPair, Spares};

use crate::changed_parts::put_pair;
use crate::next_manifest::marked;
use crate::pair::{least_mark, load_pair, run_loaded};
use closing_options::RunOptions;
use disk_model::Disk;
use manifest_codec::Manifest;
use open_store::{Store, StoreFault};
use pair_sched::pick;
use std::alloc::Global;

/// How a step ended.
#[derive(Drop)]
pub enum Stepped {
    /// A pair was joined, and this is the store after it.
    Again(Store),
    /// No pair has work left. Nothing was written.
    Finished(Store),
}

// The pair in order.
fn in_order(i: usize, j: usize) -> (usize, usize)
    ensures { IsOrderedPair i j result.0 result.1 }
{
    if i <= j { (i, j) } else { (j, i) }
}

// Joins partitions `i` and `j`, puts what changed of them, and makes the next manifest.
fn close_pair<D: Disk>(
    alloc: Global,
    disk: &mut D,
    store: &Store,
    i: usize,
    j: usize,
) -> Result<Manifest, StoreFault>
    requires i { i < length store.now.manifest.parts }
    requires j { j < length store.now.manifest.parts }
    requires some { 0 < counts_of store.now.manifest.map i j }
    ensures next { IfOk result (IsNextManifest store.now D.tells (D.seen disk.old) (D.seen disk.new) i j) }
    ensures any_moment { LeavesBy D.Disk disk.old disk.new (Spares store.now.manifest) }
    ensures later { D.faults disk.old ≤ D.faults disk.new }
    ensures cause { HasReason why_of (on_disk D.Disk disk.old disk.new
        (BlamesPair store.now D.tells (D.seen disk.old) i j)) result }
{
    let (low, high) = in_order(i, j);
    let (first, second) = load_pair(alloc, disk, store, low, high)?;
    let since = least_mark(store.manifest(), i, j);
    let ran = run_loaded(alloc, store, first, second, since)?;
    let next = marked(store, i, j, ran.rounds)?;
    put_pair(alloc, disk, store, next, (low, high), &ran)
}

/// One step of closing: the pair of partitions that is picked is joined, until a round adds nothing.
///
/// The store was opened for a change, or came from an import, a commit or a step. The pair is the one
/// with work left of the greatest count, and of these the first. Both partitions are loaded, or the
/// one where they are the same; no other is in memory. The first round leaves out what is joined
/// already: it goes over joins of which an edge is not older than the least mark among them. Each
/// of the two that has a new edge goes to a free file, so what the current manifest names stays; the
/// pairs among them are marked as joined; and the next manifest is committed.
///
/// `Finished` comes exactly where no pair has work left, and then nothing was written. After `Again`
/// the store is one step further, by the closing machine's steps, and `work_of` its manifest is less
/// on any disk. Whatever it answers, a crash at any moment leaves the store as it was, or one that
/// goes on from it; so stores are kept, whatever texts they are of, with each edge that they list.
/// `DiskFault` comes only where the disk's count rose, and `BadStore` blames a partition of the pair
/// as `load` does. `NoMemory` comes for want of memory.
///
/// That of two partitions at a time edge pairs are joined on disk is Graspan's way (Wang et al.,
/// Graspan: a single-machine disk-based graph system for interprocedural static analyses, 2017).
pub fn step<D: Disk>(
    alloc: Global,
    disk: &mut D,
    store: Store,
    _options: &RunOptions,
) -> Result<Stepped, StoreFault>
    requires held { (c : Contents) → D.may_leave disk.old c → IsHeldAlone store c }
    ensures finished { IfOk result (λ r. IfFinished r (λ s. (s ≡ store) × HasNoWork store.manifest × (disk.new ≡ disk.old))) }
    ensures again { IfOk result (λ r. IfAgain r (IsStepped D.tells (D.seen disk.old) store (D.seen disk.new) (D.may_leave disk.new))) }
    ensures any_moment { LeavesBy D.Disk disk.old disk.new (Moves store (D.seen disk.old)) }
    ensures stores { KeepsStores D.Disk disk.old disk.new }
    ensures later { D.faults disk.old ≤ D.faults disk.new }
    ensures cause { HasReason why_of (on_disk D.Disk disk.old disk.new
        (BlamesPicked store D.tells (D.seen disk.old))) result }
{
    let manifest = store.manifest();
    let Some((i, j)) = pick(&manifest.map, &manifest.marks) else {
        return Ok(Stepped::Finished(store));
    };
    let next = close_pair(alloc, disk, &store, i, j)?;
    let after = store.commit(alloc, disk, next)?;
    Ok(Stepped::Again(after))
}
