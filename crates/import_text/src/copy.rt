//! An edge file is checked and copied to a disk in one pass.
ghost use Rattle.std.specs.Prelude.{◌≡◌, ◌≢◌, ◌<◌, ◌≤◌, ◌^◌, ℕ, List, [], true, IsTrue, IfOk, OnOk, length};
ghost use Rattle.std.specs.List.{sum};
ghost use Rattle.faults.specs.Reasons.{HasReason};
ghost use Rattle.io_edge.specs.View.{KeepsInputs, ReadRose};
ghost use Rattle.graph_words.specs.Text.{distinct};
ghost use Rattle.edge_text.specs.Feed.{IsFed};
ghost use Rattle.disk_model.specs.View.{DiskRose, LeavesBy};
ghost use Rattle.disk_model.specs.OneFile.{OnlyFile};
ghost use Rattle.store_fault.specs.Faults.{why_of};
ghost use Rattle.import_text.specs.Copy.{AreFew, CopiesBehind, CopiesFile, copy_causes};

use crate::tally::Tally;
use disk_model::Disk;
use io_edge::Inputs;
use label_table::LabelTable;
use std::alloc::Global;
use store_fault::StoreFault;

/// How many bytes are read at a time.
pub(crate) const PIECE_LEN: usize = 65_536;

/// What an edge file was found to hold while it was copied.
#[derive(Drop)]
pub struct Copied {
    /// The number of the file that it was copied to.
    pub file: u32,
    /// Its length in bytes.
    pub len: u64,
    /// One more than the greatest vertex on an edge, and 0 where there is no edge.
    pub vertices: u32,
    /// How many lines say an edge from each vertex, from vertex 0 on.
    pub degrees: Vec<u64>,
    /// The names of labels by their numbers: those of the table, and behind them the new ones in their order.
    pub labels: LabelTable,
}

/// Copies a file piece by piece into an empty one, and tells its length.
fn copy_pieces<I: Inputs, D: Disk>(
    inputs: &mut I,
    name: &str,
    disk: &mut D,
    file: u32,
    tally: &mut Tally,
    piece: &mut [u8],
) -> Result<u64, StoreFault>
    requires file { file < 1024 }
    requires empty { IsTrue D.tells → D.seen disk.old file ≡ [] }
    requires new { (tally.old.reader.place ≡ 0) × (tally.old.reader.is_open ≡ true) × (tally.old.degrees ≡ []) }
    requires some { 0 < length piece.old }
    requires small { length piece.old ≤ 65536 }
    ensures copied { IfOk result (λ len. (names : List (List ℕ)) → IsFed 0 names [] tally.old.reader []
        → CopiesBehind names (I.told inputs.old name.now) (IsTrue D.tells) file (D.seen disk.old)
        (D.seen disk.new) len tally.new.degrees tally.new.reader.table) }
    ensures few { OnOk result ((length tally.new.degrees ≤ 16777216) × (sum tally.new.degrees < 2 ^ 64)) }
    ensures cause { HasReason why_of (copy_causes (ReadRose I.Inputs inputs.old inputs.new name.now) (DiskRose D.Disk disk.old disk.new)
        (λ names. IsFed 0 names [] tally.old.reader []) (I.told inputs.old name.now)) result }
    ensures any_moment { LeavesBy D.Disk disk.old disk.new (OnlyFile file) }
    ensures keeps { KeepsInputs I.Inputs inputs.old inputs.new }
    ensures later { D.faults disk.old ≤ D.faults disk.new }
{
    let mut place: u64 = 0;
    loop {
        let n = inputs.read(name, place, piece)?;
        if n == 0 {
            break;
        }
        disk.write_at(file, place, &piece[..n])?;
        tally.take(&piece[..n])?;
        place += n as u64;
    }
    tally.finish()?;
    Ok(place)
}

/// Reads an edge file once, in pieces of 65,536 bytes, checks it, and makes a file of the disk its copy.
///
/// It keeps one piece, the names of labels and a number for each vertex, and no edges. Labels are numbered by the
/// table, to which new names are added; the names that stand in it before count first. Repeated lines count each.
/// Whatever it answers, a crash at any moment since the start leaves all other files of the disk as they were. There is
/// no sync.
///
/// `ReadFault` and `DiskFault` come only where a count of faults rose, `InputFault` with the file's first fault, and
/// `NoMemory` for want of memory.
pub fn copy_edges<I: Inputs, D: Disk>(
    alloc: Global,
    inputs: &mut I,
    name: &str,
    table: LabelTable,
    disk: &mut D,
    file: u32,
) -> Result<Copied, StoreFault>
    requires file { file < 1024 }
    requires table { length table ≤ 1000 }
    ensures copied { IfOk result (λ copied. (names : List (List ℕ)) → table ≡ distinct names
        → CopiesFile names (I.told inputs.old name.now) (IsTrue D.tells) file (D.seen disk.old) (D.seen disk.new) copied) }
    ensures few { IfOk result AreFew }
    ensures file { IfOk result (λ copied. copied.file ≡ file) }
    ensures cause { HasReason why_of (copy_causes (ReadRose I.Inputs inputs.old inputs.new name.now) (DiskRose D.Disk disk.old disk.new)
        (λ names. table ≡ distinct names) (I.told inputs.old name.now)) result }
    ensures any_moment { LeavesBy D.Disk disk.old disk.new (OnlyFile file) }
    ensures keeps { KeepsInputs I.Inputs inputs.old inputs.new }
    ensures later { D.faults disk.old ≤ D.faults disk.new }
{
    let mut piece = Vec::from_elem(alloc, 0, PIECE_LEN)?;
    let mut tally = Tally::new(alloc, table)?;
    disk.cut(file, 0)?;
    let len = copy_pieces(inputs, name, disk, file, &mut tally, &mut piece)?;
    let (degrees, labels) = tally.into_parts();
    Ok(Copied {
        file,
        len,
        vertices: degrees.len() as u32,
        degrees,
        labels,
    })
}
