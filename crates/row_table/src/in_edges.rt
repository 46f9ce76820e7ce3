//! An index of edges by their ends.
ghost use Rattle.std.specs.Prelude.{◌≡◌, ◌<◌, ◌≤◌, length, All, IfOk};
ghost use Rattle.row_table.specs.Chains.{AreChains, AreLinks, IsNextOfRow};

use crate::rows::Rows;
use graph_words::{Born, Vertex};
use std::alloc::AllocError;
use std::marker::Model;

/// The edges of rows by their ends: those into each vertex are chained, in the order of the rows.
///
/// It is made in one pass over the edges, from behind, and takes a number an edge and a number a vertex. Contracts see it
/// as the rows that it is made of.
#[derive(Drop)]
pub struct InEdges<'a> {
    rows: &'a Rows,
    /// The place of the first edge that ends at a vertex, and the number of edges where there is none.
    first: Vec<usize>,
    /// Behind each edge, the place of the next one that ends where it does.
    next: Vec<usize>,
}

impl<'a> Model for InEdges<'a> {
    ghost use Rattle.row_table.specs.Loaded.{Loaded};

    ghost Value = { Loaded };

    ghost use Rattle.row_table.specs.Chains.{AreChains};

    ghost view = { λ i. i.rows.now };

    ghost invariant = { λ i. AreChains i.rows.now.edges 0 i.first.items i.next.items };
}

/// How long a table over the ends of the edges is: one more than the greatest of them, and 0 where there is no edge.
fn ends_bound(edges: &[Born]) -> usize
    ensures { All (λ b. b.edge.dst.0 < result) edges.now }
{
    let mut bound = 0;
    for born in edges {
        bound = bound.max(born.edge.dst.0 as usize + 1);
    }
    bound
}

/// Chains the edges with the same end, from the last one on.
fn link(edges: &[Born], first: &mut Vec<usize>, next: &mut Vec<usize>)
    requires { AreChains edges.now (length edges.now) first.old.items next.old.items }
    ensures { AreChains edges.now 0 first.new.items next.new.items }
{
    let mut place = edges.len();
    while place > 0 {
        place -= 1;
        let end = edges[place].edge.dst.0 as usize;
        next[place] = first[end];
        first[end] = place;
    }
}

impl Rows {
    /// Makes the index of the edges by their ends, by which `InEdges::join_at` finds the edges into a centre.
    pub fn in_edges(&self) -> Result<InEdges<'_>, AllocError>
        ensures { IfOk result (λ index. index ≡ self.now) }
    {
        let alloc = self.alloc();
        let edges = self.edges();
        let count = edges.len();
        let mut first = Vec::from_elem(alloc, count, ends_bound(edges))?;
        let mut next = Vec::from_elem(alloc, count, count)?;
        link(edges, &mut first, &mut next);
        Ok(InEdges {
            rows: self,
            first,
            next,
        })
    }
}

impl<'a> InEdges<'a> {
    /// The rows that the index is made of.
    pub(crate) fn rows(&self) -> &'a Rows
        ensures { result.now ≡ self.now }
    {
        self.rows
    }

    /// Behind each edge, the place of the next one that ends where it does.
    pub(crate) fn next(&self) -> &[usize]
        ensures { AreLinks self.now.edges 0 result.now }
    {
        self.next.as_slice()
    }

    /// The place of the first edge that ends at the vertex, and the number of edges where there is none.
    pub(crate) fn first(&self, vertex: Vertex) -> usize
        ensures { IsNextOfRow self.now.edges vertex.0 0 result }
    {
        let at = vertex.0 as usize;
        if at < self.first.len() {
            return self.first[at];
        }
        self.rows.len()
    }
}
