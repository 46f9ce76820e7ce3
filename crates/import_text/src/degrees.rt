//! How many edges begin at each vertex.
ghost use Rattle.std.specs.Prelude.{◌≡◌, ◌<◌, ◌+◌, ◌∷◌, ◌^◌, ℕ, [], OnOk, length, max, slice_index_or};
ghost use Rattle.std.specs.List.{sum};
ghost use Rattle.import_text.specs.Degrees.{Counted};

use graph_words::Edge;
use std::alloc::{AllocError, Global};
use std::marker::Model;

/// A number for each vertex up to the greatest on an edge: how many edges begin there.
#[derive(Drop)]
pub(crate) struct Degrees {
    counts: Vec<u64>,
}

impl Model for Degrees {
    ghost use Rattle.std.specs.Prelude.{List, ℕ};

    ghost Value = { List ℕ };

    ghost view = { λ d. d.counts.items };
}

impl Degrees {
    /// No vertices yet. Takes no memory.
    pub(crate) fn new(alloc: Global) -> Self
        ensures { result ≡ [] }
    {
        Degrees {
            counts: Vec::new(alloc),
        }
    }

    /// Has a number for this vertex and each one before it.
    fn reach(&mut self, vertex: u32) -> Result<(), AllocError>
        ensures longer { OnOk result (length self.new ≡ max (length self.old) (vertex + 1)) }
        ensures each { OnOk result ((v : ℕ) → slice_index_or self.new v 0 ≡ slice_index_or self.old v 0) }
        ensures all { OnOk result (sum self.new ≡ sum self.old) }
    {
        let len = vertex as usize + 1;
        if self.counts.len() < len {
            self.counts.resize(len, 0)?;
        }
        Ok(())
    }

    /// Counts one edge more.
    pub(crate) fn count(&mut self, edge: Edge) -> Result<(), AllocError>
        requires room { sum self.old + 1 < 2 ^ 64 }
        ensures { OnOk result (Counted (edge ∷ []) self.old self.new) }
    {
        self.reach(edge.src.0.max(edge.dst.0))?;
        self.counts[edge.src.0 as usize] += 1;
        Ok(())
    }

    /// Counts each of these edges.
    pub(crate) fn count_all(&mut self, edges: &[Edge]) -> Result<(), AllocError>
        requires room { sum self.old + length edges.now < 2 ^ 64 }
        ensures { OnOk result (Counted edges.now self.old self.new) }
    {
        for edge in edges {
            self.count(*edge)?;
        }
        Ok(())
    }

    /// The numbers, from vertex 0 on. It takes no memory.
    pub(crate) fn into_vec(self) -> Vec<u64>
        ensures { result.items ≡ self }
    {
        self.counts
    }
}
