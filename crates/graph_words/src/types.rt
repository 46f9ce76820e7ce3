ghost use Rattle.std.specs.Prelude.{◌≡◌, ◌∷◌, ◌++◌, [], OnOk, OnErr, IfOk};

use std::alloc::{AllocError, Global};
use std::marker::Model;

/// A vertex of a graph, by its number.
#[derive(Clone, Copy, PartialEq, Eq, PartialOrd, Ord, Debug)]
pub struct Vertex(pub u32);

/// A label of a grammar or a graph, by its number.
#[derive(Clone, Copy, Default, PartialEq, Eq, PartialOrd, Ord, Debug)]
pub struct LabelId(pub u16);

/// An edge from a source to a destination. Edges are ordered by source, then label, then destination.
#[derive(Clone, Copy, PartialEq, Eq, PartialOrd, Ord, Debug)]
pub struct Edge {
    pub src: Vertex,
    pub label: LabelId,
    pub dst: Vertex,
}

/// An edge and the round that added it: 0 for what stood in the input.
#[derive(Clone, Copy, PartialEq, Eq, Debug)]
pub struct Born {
    pub edge: Edge,
    pub birth: u64,
}

/// A list of labels, as the right side of a rule is.
#[derive(Drop)]
pub struct Word {
    labels: Vec<LabelId>,
}

impl Model for Word {
    ghost use Rattle.std.specs.Prelude.{List};
    ghost use Rattle.graph_words.specs.declared.types.LabelId.{LabelId};

    ghost Value = { List LabelId };

    ghost view = { λ w. w.labels.items };
}

impl Word {
    /// The empty list. It takes no memory.
    pub fn new(alloc: Global) -> Self
        ensures { result ≡ [] }
    {
        Word {
            labels: Vec::new(alloc),
        }
    }

    /// A copy of the labels.
    pub fn of(alloc: Global, labels: &[LabelId]) -> Result<Self, AllocError>
        ensures { IfOk result (λ w. w ≡ labels.now) }
    {
        Ok(Word {
            labels: labels.to_vec(alloc)?,
        })
    }

    /// Adds a label at the end.
    pub fn push(&mut self, item: LabelId) -> Result<(), AllocError>
        ensures ok { OnOk result (self.new ≡ self.old ++ item ∷ []) }
        ensures err { OnErr result (self.new ≡ self.old) }
    {
        self.labels.push(item)?;
        Ok(())
    }

    /// The labels, in order.
    pub fn as_slice(&self) -> &[LabelId]
        ensures { result.now ≡ self.now }
    {
        self.labels.as_slice()
    }

    /// Takes all items out, and keeps the memory.
    pub fn clear(&mut self)
        ensures { self.new ≡ [] }
    {
        self.labels.clear();
    }
}

/// A list of edges.
#[derive(Drop)]
pub struct EdgeList {
    edges: Vec<Edge>,
}

impl Model for EdgeList {
    ghost use Rattle.std.specs.Prelude.{List};
    ghost use Rattle.graph_words.specs.declared.types.Edge.{Edge};

    ghost Value = { List Edge };

    ghost view = { λ l. l.edges.items };
}

impl EdgeList {
    /// The empty list. It takes no memory.
    pub fn new(alloc: Global) -> Self
        ensures { result ≡ [] }
    {
        EdgeList {
            edges: Vec::new(alloc),
        }
    }

    /// The edges of a vector, which keeps its memory.
    pub fn from_vec(edges: Vec<Edge>) -> Self
        ensures { result ≡ edges.items }
    {
        EdgeList { edges }
    }

    /// Adds an edge at the end.
    pub fn push(&mut self, item: Edge) -> Result<(), AllocError>
        ensures ok { OnOk result (self.new ≡ self.old ++ item ∷ []) }
        ensures err { OnErr result (self.new ≡ self.old) }
    {
        self.edges.push(item)?;
        Ok(())
    }

    /// The edges, in order.
    pub fn as_slice(&self) -> &[Edge]
        ensures { result.now ≡ self.now }
    {
        self.edges.as_slice()
    }

    /// Takes all items out, and keeps the memory.
    pub fn clear(&mut self)
        ensures { self.new ≡ [] }
    {
        self.edges.clear();
    }
}

/// A rule of a grammar: the left label may be rewritten to the right ones.
#[derive(Drop)]
pub struct Rule {
    pub left: LabelId,
    pub right: Word,
}

/// A rule of a normal form: the left label may be rewritten to the two others.
#[derive(Clone, Copy, PartialEq, Eq, Debug)]
pub struct PairRule {
    pub left: LabelId,
    pub first: LabelId,
    pub second: LabelId,
}
