//! An input is compared with its copy.
ghost use Rattle.std.specs.Prelude.{◌≡◌, ◌≢◌, ◌<◌, ◌≤◌, ◌+◌, ◌^◌, ℕ, List, IsTrue, true, false, Some, None, Ok};
ghost use Rattle.std.specs.Prelude.{length, take, drop, slice_index_or, OnOk, IfOk, IfErr};
ghost use Rattle.faults.specs.Counts.{HasCause, Rose};
ghost use Rattle.disk_model.specs.View.{DiskRose, OnlyLooks};
ghost use Rattle.io_edge.specs.Devices.{GivesBytes};
ghost use Rattle.store_fault.specs.declared.fault.StoreFault.TheVariants.{ReadFault};
ghost use Rattle.faults.specs.declared.kinds.InputFile.TheVariants.{Source};
ghost use Rattle.io_edge.specs.View.{KeepsInputs, ReadRose};
ghost use Rattle.faults.specs.Reasons.{HasReason};
ghost use Rattle.store_fault.specs.Faults.{why_of};
ghost use Rattle.open_store.specs.Answers.{DiffersFirst, compare_causes, copy_file, copy_len, copy_of};

use crate::store::Store;
use crate::stream::{PIECE_LEN, read_front};
use disk_model::{Disk, Failed};
use io_edge::{InputFile, Inputs};
use manifest_codec::{EDGES_FILE, GRAMMAR_FILE};
use std::alloc::Global;
use store_fault::StoreFault;

// How many bytes in front are the same in two pieces.
fn same_front(text: &[u8], copy: &[u8]) -> usize
    ensures text { result ≤ length text.now }
    ensures copy { result ≤ length copy.now }
    ensures same { take result text.now ≡ take result copy.now }
    ensures differ { result < length text.now → result < length copy.now → slice_index_or text.now result 0 ≢ slice_index_or copy.now result 0 }
{
    let mut n = 0;
    while n < text.len() && n < copy.len() && text[n] == copy[n] {
        n += 1;
    }
    n
}

// The file of the copy of a text, and how many bytes of it are the copy.
fn copy_place(store: &Store, file: InputFile) -> (u32, u64)
    ensures number { result.0 ≡ copy_file file }
    ensures size { result.1 ≡ copy_len store.now.manifest file }
    ensures within { result.0 < 1024 }
    ensures small { result.1 ≤ 1099511627776 }
{
    let manifest = store.manifest();
    match file {
        InputFile::Grammar => (GRAMMAR_FILE, manifest.grammar_len),
        _ => (EDGES_FILE, manifest.edges_len),
    }
}

// How many bytes of a text's next piece are those of a file from a place on, and whether the next
// one differs.
fn same_piece<D: Disk>(
    disk: &mut D,
    file: u32,
    place: u64,
    left: u64,
    text: &[u8],
    copy: &mut Vec<u8>,
) -> Result<(usize, bool), Failed>
    requires file { file < 1024 }
    requires room { place + left < 2 ^ 64 }
    requires some { 0 < left }
    requires copy { 0 < length copy.old.items }
    requires text { 0 < length text.now }
    ensures within { IfOk result (λ x. (x.0 ≤ left) × (x.0 ≤ length text.now)) }
    ensures further { IfOk result (λ x. x.1 ≡ false → 0 < x.0) }
    ensures same { IsTrue D.tells → place + left ≤ length (D.seen disk.old file)
        → IfOk result (λ x. take x.0 text.now ≡ take x.0 (drop place (D.seen disk.old file))) }
    ensures differ { IsTrue D.tells → place + left ≤ length (D.seen disk.old file)
        → IfOk result (λ x. x.1 ≡ true → (x.0 < left) × (x.0 < length text.now)
        × (slice_index_or text.now x.0 0 ≢ slice_index_or (drop place (D.seen disk.old file)) x.0 0)) }
    ensures copy { 0 < length copy.new.items }
    ensures looks { OnlyLooks D.Disk disk.old disk.new }
    ensures cause { HasCause (D.faults disk.old) (D.faults disk.new) result }
{
    let n = read_front(disk, file, place, left, copy)?;
    let same = same_front(text, &copy[..n]);
    Ok((same, n == 0 || (same < text.len() && same < n)))
}

// Where a text goes on behind a copy that ends at a place, if it has bytes there.
fn behind(n: usize, place: u64) -> Option<u64>
    ensures none { result ≡ None → n ≡ 0 }
    ensures some { (p : ℕ) → result ≡ Some p → (p ≡ place) × (0 < n) }
{
    if n == 0 { None } else { Some(place) }
}

// The next piece of an input, and how many bytes it has.
fn next_piece<I: Inputs>(
    inputs: &mut I,
    name: &str,
    place: u64,
    piece: &mut Vec<u8>,
) -> Result<usize, StoreFault>
    requires room { place + 65536 < 2 ^ 64 }
    requires piece { length piece.old.items ≡ 65536 }
    ensures within { IfOk result (λ n. n ≤ length piece.new.items) }
    ensures bytes { IfOk result (λ n. (text : List ℕ) → I.told inputs.old name.now ≡ Some text → GivesBytes text place piece.new.items n) }
    ensures piece { length piece.new.items ≡ 65536 }
    ensures cause { IfErr result (λ e. (e ≡ ReadFault) × Rose (I.faults inputs.old name.now) (I.faults inputs.new name.now)) }
    ensures keeps { KeepsInputs I.Inputs inputs.old inputs.new }
{
    match inputs.read(name, place, piece) {
        Ok(n) => Ok(n),
        Err(_) => Err(StoreFault::ReadFault),
    }
}

// Compares an input with the first `len` bytes of a file. The place where they differ first, if they do.
fn compare<I: Inputs, D: Disk>(
    alloc: Global,
    inputs: &mut I,
    name: &str,
    disk: &mut D,
    file: u32,
    len: u64,
) -> Result<Option<u64>, StoreFault>
    requires file { file < 1024 }
    requires len { len ≤ 1099511627776 }
    requires long { IsTrue D.tells → len ≤ length (D.seen disk.old file) }
    ensures same { result ≡ Ok None → (text : List ℕ) → I.told inputs.old name.now ≡ Some text → IsTrue D.tells
        → text ≡ take len (D.seen disk.old file) }
    ensures differ { (place : ℕ) → result ≡ Ok (Some place) → (text : List ℕ)
        → I.told inputs.old name.now ≡ Some text → IsTrue D.tells
        → DiffersFirst text (take len (D.seen disk.old file)) place }
    ensures cause { HasReason why_of (compare_causes (ReadRose I.Inputs inputs.old inputs.new name.now)
        (DiskRose D.Disk disk.old disk.new) (λ file place. ⊥)) result }
    ensures looks { OnlyLooks D.Disk disk.old disk.new }
    ensures keeps { KeepsInputs I.Inputs inputs.old inputs.new }
{
    let mut text = vec![in alloc; 0; PIECE_LEN]?;
    let mut copy = vec![in alloc; 0; PIECE_LEN]?;
    let mut place = 0;
    loop {
        let n = next_piece(inputs, name, place, &mut text)?;
        if place == len {
            return Ok(behind(n, place));
        }
        if n == 0 {
            return Ok(Some(place));
        }
        let (same, differ) = same_piece(disk, file, place, len - place, &text[..n], &mut copy)?;
        place += same as u64;
        if differ {
            return Ok(Some(place));
        }
    }
}

/// Compares an input with the copy that the store has of it.
///
/// `file` is Grammar or Edges. `OtherInput` comes exactly where they differ, and its place is the
/// first one where they do; an end counts as a difference. A copy is the first bytes of its file, as
/// many as the manifest says, or all of them where there are fewer. This is said where the input and
/// the disk tell their contents. Both are read in pieces of 65,536 bytes. `ReadFault` comes only where
/// the count of the input rose, and `DiskFault` only where the disk's did.
pub fn same_input<I: Inputs, D: Disk>(
    alloc: Global,
    inputs: &mut I,
    name: &str,
    disk: &mut D,
    store: &Store,
    file: InputFile,
) -> Result<(), StoreFault>
    requires { file ≢ Source }
    ensures same { OnOk result ((text : List ℕ) → I.told inputs.old name.now ≡ Some text → IsTrue D.tells
        → text ≡ copy_of store.now.manifest file (D.seen disk.old)) }
    ensures cause { HasReason why_of (compare_causes (ReadRose I.Inputs inputs.old inputs.new name.now)
        (DiskRose D.Disk disk.old disk.new)
        (λ f place. (f ≡ file) × ((text : List ℕ) → I.told inputs.old name.now ≡ Some text → IsTrue D.tells
        → DiffersFirst text (copy_of store.now.manifest file (D.seen disk.old)) place))) result }
    ensures looks { OnlyLooks D.Disk disk.old disk.new }
    ensures keeps { KeepsInputs I.Inputs inputs.old inputs.new }
{
    let (number, size) = copy_place(store, file);
    let len = size.min(disk.len(number)?);
    match compare(alloc, inputs, name, disk, number, len)? {
        None => Ok(()),
        Some(place) => Err(StoreFault::OtherInput { file, place }),
    }
}
