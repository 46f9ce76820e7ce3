//! A partition's file, read piece by piece.
ghost use Rattle.std.specs.Prelude.{◌≡◌, ◌+◌, ◌^◌, ◌<◌, ◌≤◌, ◌++◌, [], ℕ, List, IsTrue, true, false, length, take, drop, Some, Ok, Err, IfOk};
ghost use Rattle.faults.specs.Reasons.{HasReason, blames_none, disk_causes};
ghost use Rattle.store_fault.specs.Faults.{why_of};
ghost use Rattle.graph_words.specs.declared.types.Born.{Born as ABorn};
ghost use Rattle.faults.specs.Counts.{HasCause};
ghost use Rattle.disk_model.specs.View.{OnlyLooks, on_disk};
ghost use Rattle.partition_file.specs.declared.types.Expect.{Expect as AnExpect};
ghost use Rattle.partition_file.specs.Reader.{rest_of};
ghost use Rattle.partition_file.specs.FieldsRead.{complete};
ghost use Rattle.partition_file.specs.Spelling.{IsBytes, first_break};
ghost use Rattle.store_fault.specs.declared.fault.StoreFault.TheVariants.{BadStore, DiskFault};
ghost use Rattle.open_store.specs.Stream.{StreamEnds, IsAt, IsStream};

use disk_model::{Disk, Failed};
use graph_words::Born;
use partition_file::{Expect, PartFault, RowReader, RowStep, most_edges, read_piece};
use std::alloc::Global;
use store_fault::StoreFault;

/// How many bytes are read at a time.
pub(crate) const PIECE_LEN: usize = 65_536;

/// A partition's file that is read from its start on. It holds one piece of it.
#[derive(Drop)]
pub(crate) struct PartStream {
    pub reader: RowReader,
    pub file: u32,
    pub place: u64,
    pub len: u64,
    pub piece: Vec<u8>,
}

impl PartStream {
    /// A stream at the start of a file.
    pub(crate) fn begin<D: Disk>(
        alloc: Global,
        disk: &mut D,
        file: u32,
        expect: Expect,
    ) -> Result<PartStream, StoreFault>
        requires file { file < 1024 }
        requires bounds { expect.lo < expect.hi }
        ensures begun { IfOk result (λ s. (s.file ≡ file) × IsStream s × IsAt expect D.tells (D.seen disk.old file) [] [] s) }
        ensures looks { OnlyLooks D.Disk disk.old disk.new }
        ensures cause { HasReason why_of (on_disk D.Disk disk.old disk.new blames_none) result }
    {
        let len = disk.len(file)?;
        let piece = vec![in alloc; 0; PIECE_LEN]?;
        Ok(PartStream {
            reader: RowReader::new(expect),
            file,
            place: 0,
            len,
            piece,
        })
    }

    /// How many edges the file has at most, by its length alone.
    pub(crate) fn most_edges(&self, expect: &Expect) -> usize {
        most_edges(self.len as usize, expect)
    }

    /// Reads the next piece, and puts its edges behind those before. Whether more may come.
    pub(crate) fn next<D: Disk>(
        &mut self,
        disk: &mut D,
        edges: &mut Vec<Born>,
    ) -> Result<bool, StoreFault>
        requires { IsStream self.old }
        ensures stream { result ≡ Ok true → IsStream self.new }
        ensures more { result ≡ Ok true → (e : AnExpect) (file bytes : List ℕ) (front : List ABorn)
            → (IsTrue D.tells → D.seen disk.old self.old.file ≡ file)
            → IsAt e D.tells file bytes (front ++ edges.old.items) self.old
            → (next : List ℕ) × IsAt e D.tells file next (front ++ edges.new.items) self.new }
        ensures end { result ≡ Ok false → (e : AnExpect) (file bytes : List ℕ) (front : List ABorn)
            → (IsTrue D.tells → D.seen disk.old self.old.file ≡ file)
            → IsAt e D.tells file bytes (front ++ edges.old.items) self.old
            → StreamEnds e D.tells file bytes (front ++ edges.old.items) × (edges.new ≡ edges.old) }
        ensures file { self.new.file ≡ self.old.file }
        ensures further { result ≡ Ok true → (self.old.place < self.new.place) × (self.new.len ≡ self.old.len) }
        ensures looks { OnlyLooks D.Disk disk.old disk.new }
        ensures cause { HasReason why_of (on_disk D.Disk disk.old disk.new (λ file place kind. (file ≡ self.old.file)
            × (IsTrue D.tells → (e : AnExpect) (file bytes : List ℕ) (front : List ABorn)
            → D.seen disk.old self.old.file ≡ file → IsAt e D.tells file bytes
            (front ++ edges.old.items) self.old → first_break e file
            ≡ Some (record { place = place; kind = kind })))) result }
    {
        if self.place == self.len {
            return self.end();
        }
        let left = self.len - self.place;
        let n = read_front(disk, self.file, self.place, left, &mut self.piece)?;
        if n == 0 {
            return self.end();
        }
        self.place += n as u64;
        match read_piece(&mut self.reader, edges, &self.piece[..n])? {
            Some(fault) => Err(blamed(self.file, fault)),
            None => Ok(true),
        }
    }

    // What the end of the file gives: that no more comes, or that a field is missing.
    fn end(&mut self) -> Result<bool, StoreFault>
        ensures end { result ≡ Ok false → rest_of self.old.reader [] ≡ complete }
        ensures no_more { result ≡ Ok true → ⊥ }
        ensures bad { HasReason why_of (disk_causes ⊥ (λ file place kind. (file ≡ self.old.file)
            × ((rest_of self.old.reader []).fault ≡ Some (record { place = place; kind = kind })))) result }
        ensures same { (self.new.file ≡ self.old.file) × (self.new.place ≡ self.old.place) }
    {
        match self.reader.finish() {
            RowStep::Fault(fault) => Err(blamed(self.file, fault)),
            _ => Ok(false),
        }
    }
}

// Reads bytes of a file from a place on, at most so many as are left, and answers how many. The
// piece is made shorter where fewer bytes are left than it has.
pub(crate) fn read_front<D: Disk>(
    disk: &mut D,
    file: u32,
    place: u64,
    left: u64,
    piece: &mut Vec<u8>,
) -> Result<usize, Failed>
    requires file { file < 1024 }
    requires room { place + left < 2 ^ 64 }
    requires some { 0 < left }
    requires piece { 0 < length piece.old.items }
    ensures within { IfOk result (λ n. (n ≤ left) × (n ≤ length piece.new.items)) }
    ensures none { IsTrue D.tells → place + left ≤ length (D.seen disk.old file) → IfOk result (λ n. 0 < n) }
    ensures bytes { IsTrue D.tells → IfOk result (λ n. take n piece.new.items ≡ take n (drop place (D.seen disk.old file))) }
    ensures are_bytes { IfOk result (λ n. IsBytes (take n piece.new.items)) }
    ensures piece { 0 < length piece.new.items }
    ensures looks { OnlyLooks D.Disk disk.old disk.new }
    ensures cause { HasCause (D.faults disk.old) (D.faults disk.new) result }
{
    if left < piece.len() as u64 {
        piece.truncate(left as usize);
    }
    disk.read(file, place, piece)
}

// The field of a file that breaks its rule.
fn blamed(file: u32, fault: PartFault) -> StoreFault
    ensures { result ≡ BadStore file fault.place fault.kind }
{
    StoreFault::BadStore {
        file,
        place: fault.place,
        kind: fault.kind,
    }
}
