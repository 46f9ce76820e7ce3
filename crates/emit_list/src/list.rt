//! A list of vertices and edges.
ghost use Rattle.std.specs.Prelude.{◌≡◌, ◌<◌, ◌≤◌, ◌++◌, ◌∷◌, [], length, IfOk, OnOk, OnErr, slice_get, Some, Option};
ghost use Rattle.std.specs.Option.{option_map};
ghost use Rattle.emit_list.specs.Vertices.{IsListed, IsBelow, IsEdgeBelow};

use crate::edge::EmitEdge;
use crate::vertex::{Vertex, VertexForm};
use sqlite_items::Items;
use std::alloc::{AllocError, Global};
use std::marker::Model;

/// The vertices of a graph by their numbers, which count from 0, and its edges in the order in which they were made.
///
/// Contracts see the two lists. A dereference or an address names a vertex with a lesser number, and an edge names
/// vertices that are there.
#[derive(Drop)]
pub struct EmitList {
    vertices: Vec<Vertex>,
    edges: Vec<EmitEdge>,
}

impl Model for EmitList {
    ghost use Rattle.emit_list.specs.Vertices.{Listed, IsListed};

    ghost Value = { Listed };

    ghost view = { λ l. record { vertices = l.vertices.items; edges = l.edges.items } };

    ghost invariant = { λ l. IsListed l.vertices.items l.edges.items };
}

impl EmitList {
    /// No vertices and no edges. Takes no memory.
    pub fn new(alloc: Global) -> EmitList
        ensures { result ≡ record { vertices = []; edges = [] } }
    {
        EmitList {
            vertices: Vec::new(alloc),
            edges: Vec::new(alloc),
        }
    }

    /// How many vertices there are.
    pub fn vertices(&self) -> u32
        ensures { result ≡ length self.now.vertices }
    {
        self.vertices.len() as u32
    }

    /// The edges, in the order in which they were made.
    pub fn edges(&self) -> &[EmitEdge]
        ensures edges { result.now ≡ self.now.edges }
        ensures listed { IsListed self.now.vertices self.now.edges }
    {
        self.edges.as_slice()
    }

    /// What a vertex stands for.
    pub fn form(&self, k: u32) -> VertexForm
        requires { k < length self.now.vertices }
        ensures { option_map (λ v. v.form) (slice_get self.now.vertices k) ≡ Some result }
    {
        self.vertices[k as usize].form
    }

    /// The vertex with this number.
    pub(crate) fn vertex(&self, k: u32) -> &Vertex
        requires { k < length self.now.vertices }
        ensures vertex { slice_get self.now.vertices k ≡ Some result.now }
        ensures below { IsBelow k result.now.form }
    {
        &self.vertices[k as usize]
    }

    /// Adds a vertex, and answers its number. `name` is the name of its variable or function, and empty for other forms.
    ///
    /// A refusal changes nothing.
    pub fn add_vertex(
        &mut self,
        alloc: Global,
        form: VertexForm,
        name: &[u8],
    ) -> Result<u32, AllocError>
        requires room { length self.old.vertices < 16777216 }
        requires there { IsBelow (length self.old.vertices) form }
        ensures number { IfOk result (λ k. k ≡ length self.old.vertices) }
        ensures added { OnOk result (self.new ≡ record { vertices = self.old.vertices ++ record { form = form; name = name.now } ∷ []; edges = self.old.edges }) }
        ensures err { OnErr result (self.new ≡ self.old) }
    {
        let number = self.vertices.len() as u32;
        let name = Items::from_slice(alloc, name)?;
        self.vertices.push(Vertex { form, name })?;
        Ok(number)
    }

    /// Adds an edge. A refusal changes nothing.
    pub fn add_edge(&mut self, edge: EmitEdge) -> Result<(), AllocError>
        requires { IsEdgeBelow (length self.old.vertices) edge }
        ensures added { OnOk result (self.new ≡ record { vertices = self.old.vertices; edges = self.old.edges ++ edge ∷ [] }) }
        ensures err { OnErr result (self.new ≡ self.old) }
    {
        self.edges.push(edge)?;
        Ok(())
    }
}
