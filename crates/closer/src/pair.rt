//! One or two partitions are loaded, and rounds are run on them.
ghost use Rattle.std.specs.Prelude.{◌≡◌, ◌⊎◌, ◌^◌, ◌<◌, ◌≤◌, ℕ, IsTrue, true, IfOk, length};
ghost use Rattle.faults.specs.Reasons.{HasReason};
ghost use Rattle.store_fault.specs.Faults.{why_of};
ghost use Rattle.disk_model.specs.View.{OnlyLooks, on_disk};
ghost use Rattle.normal_law.specs.NormalForm.{normal_form};
ghost use Rattle.dest_map.specs.Table.{counts_of};
ghost use Rattle.pair_sched.specs.Marks.{joined_of};
ghost use Rattle.manifest_codec.specs.Spelling.{FitsManifest};
ghost use Rattle.partition_file.specs.Spelling.{IsPart};
ghost use Rattle.superstep.specs.Ends.{is_closed, rounds_of};
ghost use Rattle.closer.specs.NextManifest.{ArePairIn, AreRun, AreSpelled, BlamesPair, IfHigh, IsLeastMarkIn};

use disk_model::Disk;
use manifest_codec::Manifest;
use open_store::{Store, StoreFault};
use partition_file::Partition;
use row_table::Rows;
use std::alloc::{AllocError, Global};
use superstep::{PairEnd, run_pair};

/// Loaded partitions after rounds: the one, or the two of which the first is the low one, and how
/// many rounds added edges.
#[derive(Drop)]
pub(crate) struct Ran {
    pub low: Partition,
    pub high: Option<Partition>,
    pub rounds: u64,
}

/// Loads partitions `low` and `high`, and only the one where they are the same.
pub(crate) fn load_pair<D: Disk>(
    alloc: Global,
    disk: &mut D,
    store: &Store,
    low: usize,
    high: usize,
) -> Result<(Partition, Option<Partition>), StoreFault>
    requires low { low ≤ high }
    requires high { high < length store.now.manifest.parts }
    ensures loaded { IfOk result (λ p. ArePairIn store.now low high p.0 p.1) }
    ensures spelled { IsTrue D.tells → IfOk result (λ p. AreSpelled store.now (D.seen disk.old) low high p.0 p.1) }
    ensures looks { OnlyLooks D.Disk disk.old disk.new }
    ensures cause { HasReason why_of (on_disk D.Disk disk.old disk.new
        (BlamesPair store.now D.tells (D.seen disk.old) low high)) result }
{
    let first = store.load(alloc, disk, low)?;
    if low == high {
        return Ok((first, None));
    }
    let second = store.load(alloc, disk, high)?;
    Ok((first, Some(second)))
}

// The lower one of a mark so far and that of partitions `i` and `j`, where an edge leads from the one
// to the other.
fn lower(manifest: &Manifest, i: usize, j: usize, least: u64) -> u64
    requires fits { FitsManifest manifest.now }
    requires i { i < length manifest.now.parts }
    requires j { j < length manifest.now.parts }
    ensures least { result ≤ least }
    ensures mark { 0 < counts_of manifest.now.map i j → result ≤ joined_of manifest.now.marks i j }
    ensures one { (result ≡ least) ⊎ ((0 < counts_of manifest.now.map i j) × (result ≡ joined_of manifest.now.marks i j)) }
{
    if manifest.map.count(i, j) == 0 {
        return least;
    }
    least.min(manifest.marks.joined(i, j))
}

/// The least mark of the ordered pairs among partitions `i` and `j` that have an edge. What is born
/// below it is joined.
pub(crate) fn least_mark(manifest: &Manifest, i: usize, j: usize) -> u64
    requires fits { FitsManifest manifest.now }
    requires i { i < length manifest.now.parts }
    requires j { j < length manifest.now.parts }
    requires some { 0 < counts_of manifest.now.map i j }
    ensures { IsLeastMarkIn manifest.now i j result }
{
    let least = manifest.marks.joined(i, j);
    let least = lower(manifest, j, i, least);
    let least = lower(manifest, i, i, least);
    lower(manifest, j, j, least)
}

// A partition keeps its rules, where there is one.
fn keeps_rules(part: &Option<Partition>)
    ensures { IfHigh part.now IsPart }
{
    if let Some(part) = part {
        let _lo = part.lo();
    }
}

// How many rounds added edges.
fn added(end: PairEnd) -> u64
    ensures rounds { result ≡ rounds_of end }
    ensures closed { is_closed end ≡ true }
{
    match end {
        PairEnd::Closed { rounds } => rounds,
    }
}

/// Runs rounds on loaded partitions until one adds nothing. The first goes over joins of which an edge
/// is born at or after `since`.
pub(crate) fn run_loaded(
    alloc: Global,
    store: &Store,
    low: Partition,
    high: Option<Partition>,
    since: u64,
) -> Result<Ran, AllocError>
    requires { (i j : ℕ) × ArePairIn store.now i j low high }
    ensures { IfOk result (λ r. AreRun (normal_form store.now.rules) since store.now.manifest.round low high r.low r.high r.rounds) }
{
    let birth = store.manifest().round;
    let mut rows = Rows::of_two(alloc, low, high)?;
    let end = run_pair(alloc, &mut rows, store.normal(), since, birth)?;
    rows.limits();
    let (low, high) = rows.into_parts()?;
    let _lo = low.lo();
    keeps_rules(&high);
    let rounds = added(end);
    Ok(Ran { low, high, rounds })
}
