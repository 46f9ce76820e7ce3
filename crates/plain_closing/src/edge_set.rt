//! Edges in the order in which they were added, each once.
ghost use Rattle.std.specs.Prelude.{◌≡◌, ◌<◌, [], length, slice_get, Some, OnOk, OnErr};
ghost use Rattle.plain_closing.specs.Begin.{AddsEach};
ghost use Rattle.plain_closing.specs.Joins.{AddsNew, IsOnce};

use graph_words::{Edge, LabelId, Vertex};
use std::alloc::{AllocError, Global};
use std::collections::BTreeSet;
use std::marker::Model;

/// Edges in the order in which they were added, each once, beside a set that knows which are there.
#[derive(Drop)]
pub(crate) struct EdgeSet {
    edges: Vec<Edge>,
    known: BTreeSet<Edge>,
}

impl Model for EdgeSet {
    ghost use Rattle.std.specs.Prelude.{List};
    ghost use Rattle.graph_words.specs.declared.types.Edge.{Edge};
    ghost use Rattle.plain_closing.specs.Listed.{IsListed};

    ghost Value = { List Edge };

    ghost view = { λ s. s.edges.items };

    ghost invariant = { λ s. IsListed s.edges.items s.known };
}

impl EdgeSet {
    pub(crate) fn new(alloc: Global) -> Self
        ensures { result ≡ [] }
    {
        EdgeSet {
            edges: Vec::new(alloc),
            known: BTreeSet::new(alloc),
        }
    }

    pub(crate) fn len(&self) -> usize
        ensures { result ≡ length self.now }
    {
        self.edges.len()
    }

    /// The edge that was added as the one with this number, counted from 0.
    pub(crate) fn at(&self, i: usize) -> Edge
        requires { i < length self.now }
        ensures { slice_get self.now i ≡ Some result }
    {
        self.edges[i]
    }

    /// Adds an edge, unless it is there.
    pub(crate) fn add(&mut self, edge: Edge) -> Result<(), AllocError>
        ensures ok { OnOk result (AddsNew self.old self.new edge) }
        ensures err { OnErr result (self.new ≡ self.old) }
    {
        // Room first, so that the list and the set stay of one mind where memory ends.
        self.edges.reserve(1)?;
        if self.known.insert(edge)? {
            self.edges.push(edge).unwrap();
        }
        Ok(())
    }

    /// Adds an edge between two vertices for each of the labels.
    pub(crate) fn add_each(
        &mut self,
        src: Vertex,
        labels: &[LabelId],
        dst: Vertex,
    ) -> Result<(), AllocError>
        ensures { OnOk result (AddsEach src labels.now dst self.old self.new) }
    {
        for label in labels {
            self.add(Edge {
                src,
                label: *label,
                dst,
            })?;
        }
        Ok(())
    }

    /// The edges, in the order in which they were added.
    pub(crate) fn into_edges(self) -> Vec<Edge>
        ensures items { result.items ≡ self }
        ensures once { IsOnce result.items }
    {
        self.edges
    }
}
