//! A copy is read again for one partition.
ghost use Rattle.std.specs.Prelude.{◌≡◌, ◌<◌, ◌≤◌, ℕ, List, [], None, true, All, IsTrue, IfOk, IfErr, OnOk, length};
ghost use Rattle.faults.specs.Reasons.{BlamesText, HasReason};
ghost use Rattle.faults.specs.declared.form_kind.FormKind.TheVariants.{BadText};
ghost use Rattle.disk_model.specs.View.{OnlyLooks, on_disk};
ghost use Rattle.graph_words.specs.Text.{distinct};
ghost use Rattle.normal_law.specs.NormalForm.{normal_form};
ghost use Rattle.edge_text.specs.EdgesText.{edges_fault};
ghost use Rattle.edge_text.specs.Feed.{IsFed};
ghost use Rattle.partition_file.specs.Spelling.{FitsPart};
ghost use Rattle.store_fault.specs.Faults.{why_of};
ghost use Rattle.store_fault.specs.declared.fault.StoreFault.TheVariants.{BadStore};
ghost use Rattle.import_text.specs.GivenPart.{copy_fault as fault_of_copy, GathersCopy, GathersFile, GivesPart, IsGoodCopy, expect_given};

use crate::copy::{Copied, PIECE_LEN};
use crate::gathered::Gathering;
use crate::part::part_of;
use disk_model::{Disk, FormKind};
use edge_text::EdgesFault;
use graph_words::Edge;
use normal_form::Normal;
use partition_file::Partition;
use std::alloc::Global;
use store_fault::StoreFault;

/// The fault of the copy in this file that was read with this fault.
fn copy_fault(file: u32, fault: EdgesFault) -> StoreFault
    ensures { result ≡ fault_of_copy file fault }
{
    match fault {
        EdgesFault::ReadFailed => StoreFault::DiskFault,
        EdgesFault::Text { .. } => bad_text(file),
        EdgesFault::NoMemory => StoreFault::NoMemory,
    }
}

/// The file isn't the copy that was made.
fn bad_text(file: u32) -> StoreFault
    ensures { result ≡ BadStore file 0 BadText }
{
    StoreFault::BadStore {
        file,
        place: 0,
        kind: FormKind::BadText,
    }
}

/// Reads a file of the disk piece by piece, and tells its length.
fn gather_pieces<D: Disk>(
    disk: &mut D,
    file: u32,
    normal: &Normal,
    gathering: &mut Gathering,
    piece: &mut [u8],
) -> Result<u64, StoreFault>
    requires file { file < 1024 }
    requires new { (gathering.old.reader.place ≡ 0) × (gathering.old.reader.is_open ≡ true) }
    requires names { length gathering.old.reader.table ≤ 1000 }
    requires some { 0 < length piece.old }
    requires small { length piece.old ≤ 65536 }
    ensures gathered { IfOk result (λ len. (names : List (List ℕ)) → IsFed 0 names [] gathering.old.reader []
        → GathersFile (normal_form normal.now) names (IsTrue D.tells) (D.seen disk.old file) len gathering.old gathering.new) }
    ensures cause { HasReason why_of (on_disk D.Disk disk.old disk.new
        (BlamesText (IsTrue D.tells → (names : List (List ℕ))
        → IsFed 0 names [] gathering.old.reader [] → edges_fault 0 names (D.seen disk.old file) ≡ None → ⊥) file)) result }
    ensures looks { OnlyLooks D.Disk disk.old disk.new }
{
    let mut place: u64 = 0;
    loop {
        let n = disk.read(file, place, piece)?;
        if n == 0 {
            break;
        }
        if let Err(fault) = gathering.take(normal, &piece[..n]) {
            return Err(copy_fault(file, fault));
        }
        place += n as u64;
    }
    if let Err(fault) = gathering.finish(normal) {
        return Err(copy_fault(file, fault));
    }
    Ok(place)
}

/// The edges that a copy gives in an interval, some maybe more than once.
fn gather_copy<D: Disk>(
    alloc: Global,
    disk: &mut D,
    copied: &Copied,
    normal: &Normal,
    span: (u32, u32),
) -> Result<Vec<Edge>, StoreFault>
    requires file { copied.now.file < 1024 }
    ensures gathered { IfOk result (λ given. GathersCopy (normal_form normal.now) copied.now.labels copied.now.len copied.now.vertices span.0
        span.1 (IsTrue D.tells) (D.seen disk.old copied.now.file) given.items) }
    ensures cause { HasReason why_of (on_disk D.Disk disk.old disk.new (BlamesText (IsTrue D.tells
        → IsGoodCopy copied.now.labels copied.now.len copied.now.vertices (D.seen disk.old copied.now.file) → ⊥) copied.now.file)) result }
    ensures looks { OnlyLooks D.Disk disk.old disk.new }
{
    // Names stand once in a table, so that only new ones make it longer.
    let names = copied.labels.names().len();
    let mut piece = Vec::from_elem(alloc, 0, PIECE_LEN)?;
    let mut gathering = Gathering::new(alloc, copied.labels.copy()?, span.0, span.1)?;
    let found = gather_pieces(disk, copied.file, normal, &mut gathering, &mut piece)?;
    if found != copied.len {
        return Err(bad_text(copied.file));
    }
    if gathering.names() != names {
        return Err(bad_text(copied.file));
    }
    if copied.vertices < gathering.vertices() {
        return Err(bad_text(copied.file));
    }
    Ok(gathering.into_given())
}

/// Reads a copy once, in pieces of 65,536 bytes, and makes the partition with which a closing begins of the vertices
/// from `span.0` to `span.1 - 1`: the labels above each edge from these vertices, and a loop at each of them for each
/// label that derives the empty word, each edge once, with birth 0.
///
/// Apart from a piece, memory is taken for about twice the partition, however often lines are repeated. The disk is
/// only looked at.
///
/// `BadStore` blames the copy's file at place 0, as `BadText`, where it isn't such a copy: its text has a fault,
/// another length, a vertex past those that were counted, or a label without a number. `DiskFault` comes only where
/// the disk's count of faults rose, and `NoMemory` for want of memory.
pub fn given_edges<D: Disk>(
    alloc: Global,
    disk: &mut D,
    copied: &Copied,
    normal: &Normal,
    span: (u32, u32),
) -> Result<Partition, StoreFault>
    requires file { copied.now.file < 1024 }
    requires bounds { span.0 < span.1 }
    requires below { span.1 ≤ copied.now.vertices }
    requires vertices { copied.now.vertices ≤ 16777216 }
    requires rules { All (λ r. r.left.0 < length copied.now.labels) normal.now }
    ensures given { IfOk result (GivesPart (normal_form normal.now) copied.now.labels copied.now.len copied.now.vertices span.0 span.1
        (IsTrue D.tells) (D.seen disk.old copied.now.file)) }
    ensures fits { IfOk result (FitsPart (expect_given span.0 span.1 copied.now.vertices (length copied.now.labels)
        (normal_form normal.now).fresh)) }
    ensures cause { HasReason why_of (on_disk D.Disk disk.old disk.new (BlamesText (IsTrue D.tells
        → IsGoodCopy copied.now.labels copied.now.len copied.now.vertices (D.seen disk.old copied.now.file) → ⊥) copied.now.file)) result }
    ensures looks { OnlyLooks D.Disk disk.old disk.new }
{
    // There are few fresh labels, so that each label's number fits the file of a partition.
    let _fresh = normal.fresh();
    let given = gather_copy(alloc, disk, copied, normal, span)?;
    let part = part_of(alloc, normal, span.0, span.1, given)?;
    Ok(part)
}
