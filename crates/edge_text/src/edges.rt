//! The edges of a file, which is read piece by piece.
ghost use Rattle.std.specs.Prelude.{◌≡◌, ◌<◌, ◌≤◌, ◌^◌, ℕ, List, Some, IfOk, IfErr, OnErr, [], true, length};
ghost use Rattle.faults.specs.declared.kinds.InputKind.{InputKind as AKind};
ghost use Rattle.faults.specs.Counts.{Rose};
ghost use Rattle.io_edge.specs.View.{KeepsInputs};
ghost use Rattle.graph_words.specs.Reach.{graph_with, IsGraph};
ghost use Rattle.graph_words.specs.Text.{distinct};
ghost use Rattle.edge_text.specs.EdgesText.{edges_fault, vertex_count_of, ReadsFile};
ghost use Rattle.edge_text.specs.Feed.{IsFed};

use crate::feed::EdgeReader;
use graph_words::{Edge, EdgeList};
use io_edge::{Failed, InputKind, Inputs};
use label_table::LabelTable;
use std::alloc::{AllocError, Global};

/// How many bytes are read at a time.
const PIECE_LEN: usize = 65_536;

/// Why a file has no graph.
#[derive(Clone, Copy, Debug, PartialEq, Eq)]
pub enum EdgesFault {
    /// A read failed: the count of faults of this name rose.
    ReadFailed,
    /// The text has this first fault, in the line with this number, counted from 1.
    Text { line: u64, kind: InputKind },
    /// Memory was wanted.
    NoMemory,
}

impl From<Failed> for EdgesFault {
    ghost use Rattle.edge_text.specs.declared.edges.EdgesFault.TheVariants.{ReadFailed};

    ghost from_gives = { λ _ e. e ≡ ReadFailed };

    fn from(_: Failed) -> Self {
        EdgesFault::ReadFailed
    }
}

impl From<AllocError> for EdgesFault {
    ghost use Rattle.edge_text.specs.declared.edges.EdgesFault.TheVariants.{NoMemory};

    ghost from_gives = { λ _ e. e ≡ NoMemory };

    fn from(_: AllocError) -> Self {
        EdgesFault::NoMemory
    }
}

/// Reads a file to its end by pieces as long as the buffer.
fn read_text<I: Inputs>(
    alloc: Global,
    inputs: &mut I,
    name: &str,
    reader: &mut EdgeReader,
    piece: &mut [u8],
) -> Result<EdgeList, EdgesFault>
    requires new { (reader.old.place ≡ 0) × (reader.old.is_open ≡ true) }
    requires some { 0 < length piece.old }
    requires small { length piece.old ≤ 65536 }
    ensures edges { IfOk result (λ edges. (names : List (List ℕ)) → IsFed 0 names [] reader.old []
        → ReadsFile names (I.told inputs.old name.now) edges reader.new.table) }
    ensures fault { IfErr result (λ e. (line : ℕ) (kind : AKind) (file : List ℕ) (names : List (List ℕ)) → e ≡ EdgesFault.Text line kind
        → I.told inputs.old name.now ≡ Some file → IsFed 0 names [] reader.old []
        → edges_fault 0 names file ≡ Some (record { line = line; kind = kind })) }
    ensures failed { IfErr result (λ e. e ≡ EdgesFault.ReadFailed → Rose (I.faults inputs.old name.now) (I.faults inputs.new name.now)) }
    ensures keeps { KeepsInputs I.Inputs inputs.old inputs.new }
{
    let mut edges = Vec::new(alloc);
    let mut place: u64 = 0;
    loop {
        let n = inputs.read(name, place, piece)?;
        if n == 0 {
            break;
        }
        reader.feed(&piece[..n], &mut edges)?;
        place += n as u64;
    }
    reader.finish(&mut edges)?;
    Ok(EdgeList::from_vec(edges))
}

/// Reads an edge file to its end, in pieces of 65,536 bytes, and answers its edges in the order of their lines.
///
/// Labels are numbered by the table, to which new names are added; the names that stand in it before count first.
/// The file comes from outside and may hold any bytes: its first fault is answered with line and kind. After a fault
/// the table is as it was.
pub fn read_edges<I: Inputs>(
    alloc: Global,
    inputs: &mut I,
    name: &str,
    table: &mut LabelTable,
) -> Result<EdgeList, EdgesFault>
    requires { length table.old ≤ 1000 }
    ensures edges { IfOk result (λ edges. (names : List (List ℕ)) → table.old ≡ distinct names
        → ReadsFile names (I.told inputs.old name.now) edges table.new) }
    ensures fault { IfErr result (λ e. (line : ℕ) (kind : AKind) (file : List ℕ) (names : List (List ℕ)) → e ≡ EdgesFault.Text line kind
        → I.told inputs.old name.now ≡ Some file → table.old ≡ distinct names
        → edges_fault 0 names file ≡ Some (record { line = line; kind = kind })) }
    ensures failed { IfErr result (λ e. e ≡ EdgesFault.ReadFailed → Rose (I.faults inputs.old name.now) (I.faults inputs.new name.now)) }
    ensures keeps { KeepsInputs I.Inputs inputs.old inputs.new }
    ensures unread { OnErr result (table.new ≡ table.old) }
{
    let mut piece = Vec::from_elem(alloc, 0, PIECE_LEN)?;
    let mut reader = EdgeReader::new(alloc, table.copy()?, 0)?;
    let edges = read_text(alloc, inputs, name, &mut reader, &mut piece)?;
    *table = reader.into_table();
    Ok(edges)
}

/// How many vertices a graph with these edges has: one more than the greatest vertex on an edge, and 0 where there is none.
pub fn vertex_count(edges: &[Edge]) -> u32
    requires { vertex_count_of edges.now < 2 ^ 32 }
    ensures count { result ≡ vertex_count_of edges.now }
    ensures graph { IsGraph (graph_with result edges.now) }
{
    let mut count = 0;
    for edge in edges {
        count = count.max(edge.src.0 + 1).max(edge.dst.0 + 1);
    }
    count
}
