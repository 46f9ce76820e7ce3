//! Edges are counted by the intervals of a store.
ghost use Rattle.std.specs.Prelude.{IfOk};
ghost use Rattle.open_store.specs.Stream.{IsTally};

use crate::store::Store;
use crate::tally::Tally;
use graph_words::Born;
use std::alloc::{AllocError, Global};

impl Store {
    /// How many of the edges end in each of the store's intervals, and the greatest birth among them.
    pub fn tally(&self, alloc: Global, edges: &[Born]) -> Result<Tally, AllocError>
        ensures { IfOk result (λ t. IsTally self.now.ends edges.now t.row.items t.newest) }
    {
        let mut tally = Tally::zero(alloc, &self.intervals)?;
        tally.add_all(&self.intervals, edges);
        Ok(tally)
    }
}
