//! A reader of an edge file that counts edges by their sources, and keeps none.
ghost use Rattle.std.specs.Prelude.{◌≡◌, ◌≢◌, ◌<◌, ◌≤◌, ◌+◌, ◌^◌, ◌++◌, ℕ, List, [], true, IfOk, OnOk, IfErr, Some, length};
ghost use Rattle.std.specs.List.{sum};
ghost use Rattle.faults.specs.declared.kinds.InputKind.{InputKind as AKind};
ghost use Rattle.graph_words.specs.declared.types.Edge.{Edge as AnEdge};
ghost use Rattle.graph_words.specs.Text.{distinct};
ghost use Rattle.edge_text.specs.EdgesText.{edges_fault};
ghost use Rattle.edge_text.specs.Feed.{IsFed};
ghost use Rattle.import_text.specs.Tally.{Tallied, TakesPiece, TakesEnd};

use crate::degrees::Degrees;
use edge_text::{EdgeReader, EdgesFault};
use graph_words::Edge;
use label_table::LabelTable;
use std::alloc::{AllocError, Global};
use std::marker::Model;

/// A reader of an edge file that comes in pieces, and how many of the edges so far begin at each vertex.
#[derive(Drop)]
pub(crate) struct Tally {
    reader: EdgeReader,
    degrees: Degrees,
    /// The edges of the last piece.
    edges: Vec<Edge>,
}

impl Model for Tally {
    ghost use Rattle.import_text.specs.Tally.{Tallied};

    ghost Value = { Tallied };

    ghost view = { λ t. record { reader = t.reader; degrees = t.degrees } };
}

impl Tally {
    /// A tally at the start of a file, whose labels are numbered by this table.
    pub(crate) fn new(alloc: Global, table: LabelTable) -> Result<Tally, AllocError>
        requires { length table ≤ 1000 }
        ensures start { IfOk result (λ t. (t.reader.place ≡ 0) × (t.reader.is_open ≡ true) × (t.degrees ≡ [])) }
        ensures names { IfOk result (λ t. (names : List (List ℕ)) → table ≡ distinct names → IsFed 0 names [] t.reader []) }
    {
        Ok(Tally {
            reader: EdgeReader::new(alloc, table, 0)?,
            degrees: Degrees::new(alloc),
            edges: Vec::new(alloc),
        })
    }

    /// Takes the next piece.
    pub(crate) fn take(&mut self, piece: &[u8]) -> Result<(), EdgesFault>
        requires open { self.old.reader.is_open ≡ true }
        requires room { sum self.old.degrees + length piece.now < 2 ^ 64 }
        ensures taken { OnOk result (TakesPiece piece.now self.old self.new) }
        ensures text { IfErr result (λ e. e ≢ EdgesFault.ReadFailed) }
        ensures fault { IfErr result (λ e. (line : ℕ) (kind : AKind) → e ≡ EdgesFault.Text line kind
            → (names : List (List ℕ)) (text : List ℕ) (front : List AnEdge)
            → IsFed 0 names text self.old.reader front → (later : List ℕ)
            → edges_fault 0 names ((text ++ piece.now) ++ later) ≡ Some (record { line = line; kind = kind })) }
    {
        self.edges.clear();
        self.reader.feed(piece, &mut self.edges)?;
        self.degrees.count_all(&self.edges)?;
        Ok(())
    }

    /// Takes the end of the file.
    pub(crate) fn finish(&mut self) -> Result<(), EdgesFault>
        requires open { self.old.reader.is_open ≡ true }
        requires room { sum self.old.degrees + 1 < 2 ^ 64 }
        ensures taken { OnOk result (TakesEnd self.old self.new) }
        ensures text { IfErr result (λ e. e ≢ EdgesFault.ReadFailed) }
        ensures fault { IfErr result (λ e. (line : ℕ) (kind : AKind) → e ≡ EdgesFault.Text line kind
            → (names : List (List ℕ)) (text : List ℕ) (front : List AnEdge)
            → IsFed 0 names text self.old.reader front → edges_fault 0 names text ≡ Some (record { line = line; kind = kind })) }
    {
        self.edges.clear();
        self.reader.finish(&mut self.edges)?;
        self.degrees.count_all(&self.edges)?;
        Ok(())
    }

    /// The numbers of edges from each vertex.
    pub(crate) fn into_parts(self) -> (Vec<u64>, LabelTable)
        ensures degrees { result.0.items ≡ self.degrees }
        ensures names { result.1 ≡ self.reader.table }
    {
        (self.degrees.into_vec(), self.reader.into_table())
    }
}
