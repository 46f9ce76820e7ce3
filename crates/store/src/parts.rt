//! The partitions of a new store are made and put, one after the other.
ghost use Rattle.std.specs.Prelude.{◌≡◌, ◌+◌, ◌<◌, ◌≤◌, ℕ, IsTrue, IfOk, OnOk, All, length};
ghost use Rattle.faults.specs.Reasons.{BlamesText, HasReason};
ghost use Rattle.store_fault.specs.Faults.{why_of};
ghost use Rattle.normal_law.specs.NormalForm.{normal_form};
ghost use Rattle.disk_model.specs.View.{LeavesBy, OnlyLooks, on_disk};
ghost use Rattle.partition_file.specs.Spelling.{FitsPart};
ghost use Rattle.import_text.specs.Given.{AreGiven};
ghost use Rattle.import_text.specs.GivenPart.{IsGoodCopy, expect_given};
ghost use Rattle.store.specs.NewStore.{IsBeside, IsBuilt, MayPutFirst, SameTexts, graph_in};

use crate::counts::count_edges;
use crate::source::Source;
use crate::tables::Tables;
use dest_map::DestMap;
use disk_model::{Disk, rewrite};
use import_text::given_edges;
use intervals::Intervals;
use manifest_codec::{FIRST_PART_FILE, PartEntry, PartList};
use open_store::StoreFault;
use partition_file::{Partition, encode};
use std::alloc::Global;

// The partition of the vertices of an interval with which a closing begins.
fn given_part<D: Disk>(
    alloc: Global,
    disk: &mut D,
    source: &Source,
    span: (u32, u32),
) -> Result<Partition, StoreFault>
    requires file { source.now.copied.file ≡ 3 }
    requires bounds { span.0 < span.1 }
    requires below { span.1 ≤ source.now.copied.vertices }
    requires vertices { source.now.copied.vertices ≤ 16777216 }
    requires rules { All (λ r. r.left.0 < length source.now.copied.labels) source.now.normal }
    requires good { IsTrue D.tells → IsGoodCopy source.now.copied.labels source.now.copied.len source.now.copied.vertices (D.seen disk.old 3) }
    ensures fits { IfOk result (FitsPart (expect_given span.0 span.1 source.now.copied.vertices
        (length source.now.copied.labels) (normal_form source.now.normal).fresh)) }
    ensures given { IsTrue D.tells → IfOk result
        (λ p. AreGiven (normal_form source.now.normal) (graph_in source.now (D.seen disk.old)) span.0 span.1 p.edges) }
    ensures looks { OnlyLooks D.Disk disk.old disk.new }
    ensures cause { HasReason why_of (on_disk D.Disk disk.old disk.new (BlamesText (IsTrue D.tells → ⊥) 3)) result }
{
    given_edges(alloc, disk, &source.copied, &source.normal, span)
}

// Makes and puts the next partition.
fn put_next<D: Disk>(
    alloc: Global,
    disk: &mut D,
    source: &Source,
    intervals: &Intervals,
    i: usize,
    tables: &mut Tables,
) -> Result<(), StoreFault>
    requires i { i < length intervals.now }
    requires may { MayPutFirst source.now intervals.now (IsTrue D.tells) (D.seen disk.old) }
    requires built { IsBuilt source.now intervals.now (IsTrue D.tells) (D.seen disk.old) i tables.old }
    ensures built { OnOk result (IsBuilt source.now intervals.now (IsTrue D.tells) (D.seen disk.new) (i + 1) tables.new) }
    ensures texts { IsTrue D.tells → OnOk result (SameTexts (D.seen disk.old) (D.seen disk.new)) }
    ensures any_moment { LeavesBy D.Disk disk.old disk.new IsBeside }
    ensures later { D.faults disk.old ≤ D.faults disk.new }
    ensures cause { HasReason why_of (on_disk D.Disk disk.old disk.new (BlamesText (IsTrue D.tells → ⊥) 3)) result }
{
    let span = intervals.bounds(i);
    let part = given_part(alloc, disk, source, span)?;
    count_edges(&mut tables.map, intervals, i, part.edges());
    let file = FIRST_PART_FILE + i as u32;
    let bytes = encode(alloc, &part)?;
    rewrite(disk, file, &bytes)?;
    tables.parts.push(PartEntry { hi: span.1, file })?;
    Ok(())
}

/// Makes the partitions with which a closing begins, one in memory at a time, and puts number `i` into file 4 + i.
pub(crate) fn put_parts<D: Disk>(
    alloc: Global,
    disk: &mut D,
    source: &Source,
    intervals: &Intervals,
) -> Result<Tables, StoreFault>
    requires may { MayPutFirst source.now intervals.now (IsTrue D.tells) (D.seen disk.old) }
    ensures built { IfOk result (IsBuilt source.now intervals.now (IsTrue D.tells) (D.seen disk.new) (length intervals.now)) }
    ensures texts { IsTrue D.tells → IfOk result (λ _. SameTexts (D.seen disk.old) (D.seen disk.new)) }
    ensures any_moment { LeavesBy D.Disk disk.old disk.new IsBeside }
    ensures later { D.faults disk.old ≤ D.faults disk.new }
    ensures cause { HasReason why_of (on_disk D.Disk disk.old disk.new (BlamesText (IsTrue D.tells → ⊥) 3)) result }
{
    let mut tables = Tables {
        parts: PartList::new(alloc),
        map: DestMap::zero(alloc, intervals.len())?,
    };
    for i in 0..intervals.len() {
        put_next(alloc, disk, source, intervals, i, &mut tables)?;
    }
    Ok(tables)
}
