//! A reader of a copy that gathers the edges of one interval.
ghost use Rattle.std.specs.Prelude.{◌≡◌, ◌≢◌, ◌<◌, ◌≤◌, ◌+◌, ◌++◌, ℕ, List, [], true, IfOk, OnOk, IfErr, Some, length};
ghost use Rattle.faults.specs.declared.kinds.InputKind.{InputKind as AKind};
ghost use Rattle.graph_words.specs.declared.types.Edge.{Edge as AnEdge};
ghost use Rattle.graph_words.specs.Text.{distinct};
ghost use Rattle.normal_law.specs.NormalForm.{normal_form};
ghost use Rattle.edge_text.specs.EdgesText.{edges_fault};
ghost use Rattle.edge_text.specs.Feed.{IsFed};
ghost use Rattle.import_text.specs.Gathered.{Gathered, GathersPiece, GathersEnd};

use crate::given::{add_above, make_once};
use edge_text::{EdgeReader, EdgesFault, vertex_count};
use graph_words::Edge;
use label_table::LabelTable;
use normal_form::Normal;
use std::alloc::{AllocError, Global};
use std::marker::Model;

/// Lists shorter than this are not made once before the end.
const LEAST_SORTED: usize = 65_536;

/// A reader of an edge file that comes in pieces, and the edges of one interval that its lines give.
#[derive(Drop)]
pub(crate) struct Gathering {
    reader: EdgeReader,
    lo: u32,
    hi: u32,
    /// The edges of the last piece.
    found: Vec<Edge>,
    /// The given edges so far, some maybe more than once.
    given: Vec<Edge>,
    /// How many these were when they were last made once.
    once: usize,
    /// One more than the greatest vertex so far.
    vertices: u32,
}

impl Model for Gathering {
    ghost use Rattle.import_text.specs.Gathered.{Gathered};

    ghost Value = { Gathered };

    ghost view = { λ g. record { reader = g.reader; lo = g.lo; hi = g.hi; given = g.given.items; vertices = g.vertices } };
}

impl Gathering {
    /// A reader at the start of a file, whose labels are numbered by this table, for the vertices from lo to hi - 1.
    pub(crate) fn new(
        alloc: Global,
        table: LabelTable,
        lo: u32,
        hi: u32,
    ) -> Result<Gathering, AllocError>
        requires { length table ≤ 1000 }
        ensures start { IfOk result (λ g. (g.reader.place ≡ 0) × (g.reader.is_open ≡ true) × (g.reader.table ≡ table)) }
        ensures none { IfOk result (λ g. (g.lo ≡ lo) × (g.hi ≡ hi) × (g.given ≡ []) × (g.vertices ≡ 0)) }
        ensures names { IfOk result (λ g. (names : List (List ℕ)) → table ≡ distinct names → IsFed 0 names [] g.reader []) }
    {
        Ok(Gathering {
            reader: EdgeReader::new(alloc, table, 0)?,
            lo,
            hi,
            found: Vec::new(alloc),
            given: Vec::new(alloc),
            once: 0,
            vertices: 0,
        })
    }

    /// Takes the next piece.
    pub(crate) fn take(&mut self, normal: &Normal, piece: &[u8]) -> Result<(), EdgesFault>
        requires open { self.old.reader.is_open ≡ true }
        requires names { length self.old.reader.table ≤ 1000 }
        ensures taken { OnOk result (GathersPiece (normal_form normal.now) piece.now self.old self.new) }
        ensures text { IfErr result (λ e. e ≢ EdgesFault.ReadFailed) }
        ensures fault { IfErr result (λ e. (line : ℕ) (kind : AKind) → e ≡ EdgesFault.Text line kind
            → (names : List (List ℕ)) (text : List ℕ) (front : List AnEdge)
            → IsFed 0 names text self.old.reader front → (later : List ℕ)
            → edges_fault 0 names ((text ++ piece.now) ++ later) ≡ Some (record { line = line; kind = kind })) }
    {
        self.found.clear();
        self.reader.feed(piece, &mut self.found)?;
        self.vertices = self.vertices.max(vertex_count(&self.found));
        add_above(&mut self.given, normal, self.lo, self.hi, &self.found)?;
        // So a file of repeated lines takes no more memory than about twice the partition.
        if self.given.len() / 2 > self.once.max(LEAST_SORTED) {
            make_once(&mut self.given);
            self.once = self.given.len();
        }
        Ok(())
    }

    /// Takes the end of the file.
    pub(crate) fn finish(&mut self, normal: &Normal) -> Result<(), EdgesFault>
        requires open { self.old.reader.is_open ≡ true }
        requires names { length self.old.reader.table ≤ 1000 }
        ensures taken { OnOk result (GathersEnd (normal_form normal.now) self.old self.new) }
        ensures text { IfErr result (λ e. e ≢ EdgesFault.ReadFailed) }
        ensures fault { IfErr result (λ e. (line : ℕ) (kind : AKind) → e ≡ EdgesFault.Text line kind
            → (names : List (List ℕ)) (text : List ℕ) (front : List AnEdge)
            → IsFed 0 names text self.old.reader front → edges_fault 0 names text ≡ Some (record { line = line; kind = kind })) }
    {
        self.found.clear();
        self.reader.finish(&mut self.found)?;
        self.vertices = self.vertices.max(vertex_count(&self.found));
        add_above(&mut self.given, normal, self.lo, self.hi, &self.found)?;
        Ok(())
    }

    /// How many labels have names by now.
    pub(crate) fn names(&self) -> usize
        ensures { result ≡ length self.now.reader.table }
    {
        self.reader.table().len()
    }

    /// One more than the greatest vertex by now.
    pub(crate) fn vertices(&self) -> u32
        ensures { result ≡ self.now.vertices }
    {
        self.vertices
    }

    /// The given edges, some maybe more than once. It takes no memory.
    pub(crate) fn into_given(self) -> Vec<Edge>
        ensures { result.items ≡ self.given }
    {
        self.given
    }
}
