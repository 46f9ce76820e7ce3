//! The commands that only read a store: `query`, `dump` and `parts`.
ghost use Rattle.std.specs.Prelude.{◌≡◌, ◌≤◌, ◌<◌, ◌++◌, [], ℕ, List, Some, IsTrue, IfErr, IfOk, OnOk, length};
ghost use Rattle.faults.specs.Reasons.{HasReason};
ghost use Rattle.io_edge.specs.View.{WriteRose};
ghost use Rattle.io_edge.specs.Devices.{AppendsPrefix};
ghost use Rattle.disk_model.specs.View.{DiskRose, OnlyLooks};
ghost use Rattle.graph_words.specs.declared.types.Born.{Born as ABorn};
ghost use Rattle.manifest_codec.specs.Spelling.{FitsManifest};
ghost use Rattle.store_law.specs.Left.{HasNoWork};
ghost use Rattle.open_store.specs.Store.{IsHeld};
ghost use Rattle.query_text.specs.Text.{answers_in, answers_text};
ghost use Rattle.query_text.specs.Answered.{IsBlamed, ArePartsPrinted, first_asked, print_causes, why_not_printed};
ghost use Rattle.graspan_top.specs.declared.status.Status.TheVariants.{NotKnown, Unfinished};
ghost use Rattle.graspan_top.specs.Looks.{AreVerticesOf, IsDumpFront, IsDumpText, IsPartsText, IsQueryText, IsUnfinished};
ghost use Rattle.graspan_top.specs.Looks.{count_line as the_count_line, dump_stages, finished_stages, found_stages};
ghost use Rattle.graspan_top.specs.Looks.{parts_stages, query_stages};
ghost use Rattle.graspan_top.specs.Printed.{Begins, IsNothingOr, PrintsFirst, status_of};
ghost use Rattle.graspan_top.specs.Refusals.{Explained, Refuses};

use crate::labels::number_of;
use crate::status::Status;
use arrayvec::ArrayVec;
use disk_model::Disk;
use graph_words::LabelId;
use io_edge::Sink;
use itoa::Buffer;
use manifest_codec::Manifest;
use pair_sched::least_dirty;
use query_text::{AnswerFault, answers};
use std::alloc::Global;
use store::{OpenMode, Opened, Store, open};

/// The store that the disk holds.
fn found<D: Disk>(alloc: Global, disk: &mut D) -> Result<Store, Status>
    ensures held { IsTrue D.tells → IfOk result (λ s. IsHeld s (D.seen disk.old)) }
    ensures looks { OnlyLooks D.Disk disk.old disk.new }
    ensures refused { IfErr result (Refuses (found_stages D.tells (D.seen disk.old) (DiskRose D.Disk disk.old disk.new))) }
{
    match open(alloc, disk, OpenMode::Look)? {
        Opened::Blank => Err(Status::NoStore),
        Opened::Found(store) => Ok(store),
    }
}

/// Refuses a store that has work left.
fn finished(manifest: &Manifest) -> Result<(), Status>
    requires { FitsManifest manifest.now }
    ensures done { OnOk result (HasNoWork manifest.now) }
    ensures undone { IfErr result (λ s. (i j : ℕ) × (s ≡ Unfinished i j) × IsUnfinished manifest.now i j) }
{
    match least_dirty(&manifest.map, &manifest.marks) {
        None => Ok(()),
        Some((i, j)) => Err(Status::Unfinished { i, j }),
    }
}

/// The store that the disk holds, which has no work left.
fn finished_store<D: Disk>(alloc: Global, disk: &mut D) -> Result<Store, Status>
    ensures held { IsTrue D.tells → IfOk result (λ s. IsHeld s (D.seen disk.old)) }
    ensures done { IfOk result (λ s. HasNoWork s.manifest) }
    ensures looks { OnlyLooks D.Disk disk.old disk.new }
    ensures refused { IfErr result (Refuses (finished_stages D.tells (D.seen disk.old) (DiskRose D.Disk disk.old disk.new))) }
{
    let store = found(alloc, disk)?;
    finished(store.manifest())?;
    Ok(store)
}

/// Prints the partitions and the state of the store.
pub(crate) fn parts<D: Disk, O: Sink>(
    alloc: Global,
    disk: &mut D,
    out: &mut O,
) -> Result<(), Status>
    ensures explained { Explained (parts_stages D.tells (D.seen disk.old) (DiskRose D.Disk disk.old disk.new)
        (WriteRose O.Sink out.old out.new)) (status_of result) }
    ensures printed { PrintsFirst D.tells (IsPartsText (D.seen disk.old)) (O.told out.old) (O.told out.new) (status_of result) }
    ensures begun { Begins D.tells (IsNothingOr (IsPartsText (D.seen disk.old))) (O.told out.old) (O.told out.new) (status_of result) }
    ensures looks { OnlyLooks D.Disk disk.old disk.new }
    ensures writes { O.faults out.old ≤ O.faults out.new }
{
    let store = found(alloc, disk)?;
    Ok(query_text::parts(&store, out)?)
}

/// Prints the edges of a store without work left.
pub(crate) fn dump<D: Disk, O: Sink>(alloc: Global, disk: &mut D, out: &mut O) -> Result<(), Status>
    ensures explained { Explained (dump_stages D.tells (D.seen disk.old) (DiskRose D.Disk disk.old disk.new)
        (WriteRose O.Sink out.old out.new)) (status_of result) }
    ensures printed { PrintsFirst D.tells (IsDumpText (D.seen disk.old)) (O.told out.old) (O.told out.new) (status_of result) }
    ensures begun { Begins D.tells (IsNothingOr (IsDumpFront (D.seen disk.old))) (O.told out.old) (O.told out.new) (status_of result) }
    ensures looks { OnlyLooks D.Disk disk.old disk.new }
    ensures writes { O.faults out.old ≤ O.faults out.new }
{
    let store = finished_store(alloc, disk)?;
    Ok(query_text::dump(alloc, disk, &store, out)?)
}

/// The vertices that a query asks for.
#[derive(Clone, Copy)]
pub(crate) struct Ends {
    pub(crate) from: u32,
    pub(crate) to: Option<u32>,
}

/// Refuses vertices that aren't there.
fn known(manifest: &Manifest, ends: Ends) -> Result<(), Status>
    ensures known { OnOk result (AreVerticesOf manifest.now ends.from ends.to) }
    ensures unknown { IfErr result (λ s. (s ≡ NotKnown) × (AreVerticesOf manifest.now ends.from ends.to → ⊥)) }
{
    let to = ends.to.unwrap_or(0);
    if ends.from < manifest.vertices && to < manifest.vertices {
        return Ok(());
    }
    Err(Status::NotKnown)
}

/// The line of a number of answers.
fn count_line(count: u64) -> ArrayVec<u8, 32>
    ensures { result.items ≡ the_count_line count }
{
    let mut line = ArrayVec::new();
    let mut buffer = Buffer::new();
    line.try_extend_from_slice(b"count ").unwrap();
    line.try_extend_from_slice(buffer.format(count).as_bytes())
        .unwrap();
    line.try_extend_from_slice(b"\n").unwrap();
    line
}

/// Prints the answers and their number. Nothing is printed where the partition isn't read.
fn print_query<D: Disk, O: Sink>(
    alloc: Global,
    disk: &mut D,
    store: &Store,
    label: LabelId,
    ends: Ends,
    out: &mut O,
) -> Result<(), AnswerFault>
    requires { ends.from < store.now.manifest.vertices }
    ensures printed { (read : List (List ABorn)) × ArePartsPrinted store.now D.tells (D.seen disk.old) (first_asked store.now (Some ends.from)) 1
        (λ edges. answers_text label (Some ends.from) ends.to edges
        ++ the_count_line (length (answers_in label (Some ends.from) ends.to edges))) (O.told out.old)
        (O.told out.new) result read × (length read ≡ 0 → AppendsPrefix (O.told out.old) (O.told out.new) []) }
    ensures looks { OnlyLooks D.Disk disk.old disk.new }
    ensures writes { O.faults out.old ≤ O.faults out.new }
    ensures cause { HasReason why_not_printed (print_causes (WriteRose O.Sink out.old out.new) (DiskRose D.Disk disk.old disk.new)
        (IsBlamed store.now D.tells (D.seen disk.old) (first_asked store.now (Some ends.from)) 1)) result }
{
    let count = answers(alloc, disk, store, label, Some(ends.from), ends.to, out)?;
    out.write(count_line(count).as_slice())?;
    Ok(())
}

/// Prints the answers of a label from a vertex, and their number, of a store without work left.
pub(crate) fn query<D: Disk, O: Sink>(
    alloc: Global,
    disk: &mut D,
    label: &str,
    ends: Ends,
    out: &mut O,
) -> Result<(), Status>
    ensures explained { Explained (query_stages D.tells (D.seen disk.old) label.now ends.from ends.to
        (DiskRose D.Disk disk.old disk.new) (WriteRose O.Sink out.old out.new)) (status_of result) }
    ensures printed { PrintsFirst D.tells (IsQueryText (D.seen disk.old) label.now ends.from ends.to)
        (O.told out.old) (O.told out.new) (status_of result) }
    ensures begun { Begins D.tells (IsNothingOr (IsQueryText (D.seen disk.old) label.now ends.from ends.to))
        (O.told out.old) (O.told out.new) (status_of result) }
    ensures looks { OnlyLooks D.Disk disk.old disk.new }
    ensures writes { O.faults out.old ≤ O.faults out.new }
{
    let store = finished_store(alloc, disk)?;
    let number = number_of(store.manifest(), label)?;
    known(store.manifest(), ends)?;
    Ok(print_query(alloc, disk, &store, number, ends, out)?)
}
