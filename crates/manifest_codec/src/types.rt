ghost use Rattle.std.specs.Prelude.{◌≡◌, ◌++◌, ◌∷◌, [], IfOk, OnOk, OnErr};
ghost use Rattle.manifest_codec.specs.declared.types.FieldError.TheVariants.{NoMemory};

use dest_map::DestMap;
use disk_model::FormKind;
use label_table::LabelTable;
use pair_sched::Marks;
use std::alloc::{AllocError, AllocFailed, Global};
use std::marker::Model;

/// A partition: its interval ends before a vertex, and its edges stand in a file of the disk.
///
/// It begins where the partition before it ends, and the first one at vertex 0.
#[derive(Clone, Copy, Debug, PartialEq, Eq)]
pub struct PartEntry {
    /// The vertex behind its last one.
    pub hi: u32,
    /// The number of its file.
    pub file: u32,
}

/// A list of partitions.
#[derive(Drop)]
pub struct PartList {
    parts: Vec<PartEntry>,
}

impl Model for PartList {
    ghost use Rattle.std.specs.Prelude.{List};
    ghost use Rattle.manifest_codec.specs.declared.types.PartEntry.{PartEntry};

    ghost Value = { List PartEntry };

    ghost view = { λ l. l.parts.items };
}

impl PartList {
    /// The empty list. It takes no memory.
    pub fn new(alloc: Global) -> Self
        ensures { result ≡ [] }
    {
        PartList {
            parts: Vec::new(alloc),
        }
    }

    /// The list of these partitions. It takes no memory.
    pub fn of(parts: Vec<PartEntry>) -> Self
        ensures { result ≡ parts.items }
    {
        PartList { parts }
    }

    /// The partitions of a list, to be changed. It takes no memory.
    pub fn into_vec(self) -> Vec<PartEntry>
        ensures { result.items ≡ self }
    {
        self.parts
    }

    /// Adds a partition at the end.
    pub fn push(&mut self, item: PartEntry) -> Result<(), AllocError>
        ensures ok { OnOk result (self.new ≡ self.old ++ item ∷ []) }
        ensures err { OnErr result (self.new ≡ self.old) }
    {
        self.parts.push(item)?;
        Ok(())
    }

    /// The partitions, in order.
    pub fn as_slice(&self) -> &[PartEntry]
        ensures { result.now ≡ self.now }
    {
        self.parts.as_slice()
    }

    /// Takes all items out, and keeps the memory.
    pub fn clear(&mut self)
        ensures { self.new ≡ [] }
    {
        self.parts.clear();
    }

    /// An equal list.
    pub fn copy(&self) -> Result<Self, AllocError>
        ensures { IfOk result (λ list. list ≡ self.now) }
    {
        Ok(PartList {
            parts: self.parts.to_vec(*self.parts.allocator())?,
        })
    }
}

/// What a store says of itself.
#[derive(Drop)]
pub struct Manifest {
    /// 0, 1 or 2. One that was written later follows it: 1 follows 0, 2 follows 1, and 0 follows 2.
    pub generation: u8,
    /// The round of the closing, from 1. Each edge was born before it.
    pub round: u64,
    /// How many vertices the edge text has. They are numbered from 0.
    pub vertices: u32,
    /// How many bytes the grammar text has.
    pub grammar_len: u64,
    /// How many bytes the edge text has.
    pub edges_len: u64,
    /// How many of these are the first edge file's.
    pub first_len: u64,
    /// The named labels of both texts, by their numbers.
    pub labels: LabelTable,
    /// The partitions, in the order of their intervals.
    pub parts: PartList,
    /// How many edges lead from each partition into each.
    pub map: DestMap,
    /// The greatest birth in each partition, and up to which birth two partitions were joined.
    pub marks: Marks,
}

impl Manifest {
    /// An equal manifest.
    pub fn copy(&self) -> Result<Self, AllocError>
        ensures { IfOk result (λ m. m ≡ self.now) }
    {
        Ok(Manifest {
            generation: self.generation,
            round: self.round,
            vertices: self.vertices,
            grammar_len: self.grammar_len,
            edges_len: self.edges_len,
            first_len: self.first_len,
            labels: self.labels.copy()?,
            parts: self.parts.copy()?,
            map: self.map.copy()?,
            marks: self.marks.copy()?,
        })
    }
}

/// The first field of a manifest that breaks its rule.
///
/// The kind is BadMagic, BadNumber, BadLabel, RepeatedLabel, BadParts, BadFile, BadMark, BadCount, or
/// Short where the bytes end within the field.
#[derive(Clone, Copy, Debug, PartialEq, Eq)]
pub struct ManifestFault {
    /// The place of the field's first byte. The body's first byte is at place 1, behind the gate.
    pub place: u64,
    pub kind: FormKind,
}

/// Why a manifest was not read.
#[derive(Debug, Drop)]
pub enum ManifestError {
    /// The bytes begin with no manifest: the first field that breaks its rule.
    Fault(ManifestFault),
    /// There was no memory for what it holds.
    NoMemory,
}

/// The versions of a manifest's body, by their magics. There is one so far.
#[derive(Clone, Copy, Debug, PartialEq, Eq)]
pub enum Version {
    First,
}

/// The numbers that stand in front of the labels.
#[derive(Clone, Copy, Debug, PartialEq, Eq)]
pub(crate) struct Head {
    pub generation: u8,
    pub round: u64,
    pub vertices: u32,
    pub grammar_len: u64,
    pub edges_len: u64,
    pub first_len: u64,
}

/// A field that breaks its rule, by the number of bytes from its first one on.
#[derive(Clone, Copy, Debug, PartialEq, Eq)]
pub(crate) struct Broken {
    pub left: usize,
    pub kind: FormKind,
}

/// Why a field was not read.
#[derive(Debug, Drop)]
pub(crate) enum FieldError {
    Broken(Broken),
    NoMemory,
}

impl From<AllocError> for FieldError {
    ghost from_gives = { λ _ e. e ≡ NoMemory };

    fn from(_e: AllocError) -> FieldError {
        FieldError::NoMemory
    }
}

impl<T: Drop> From<AllocFailed<T>> for FieldError {
    ghost from_gives = { λ _ e. e ≡ NoMemory };

    fn from(_e: AllocFailed<T>) -> FieldError {
        FieldError::NoMemory
    }
}
