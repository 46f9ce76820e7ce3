//! The vertices of a graph: what in a program each of them stands for.
ghost use Rattle.std.specs.Prelude.{◌≡◌};
ghost use Rattle.emit_list.specs.Vertices.{made_for as base_of};

use sqlite_items::Items;

/// How many vertices a graph has at most: numbers of vertices end at 16,777,215.
pub const MOST_VERTICES: usize = 16_777_216;

/// What a vertex stands for.
#[derive(Clone, Copy, PartialEq, Eq, Debug)]
pub enum VertexForm {
    /// A variable, or a parameter of a function.
    Variable,
    /// What a function gives back.
    Return,
    /// What the vertex with this number points to.
    Deref(u32),
    /// The address of the vertex with this number.
    Address(u32),
    /// A number.
    Number,
    /// `NULL`
    Null,
    /// The value of two operands.
    Op,
    /// The value of a call.
    Call,
    /// What `malloc` gives.
    Malloc,
}

impl VertexForm {
    /// The vertex that a dereference or an address was made for.
    pub(crate) fn made_for(self) -> Option<u32>
        ensures { result ≡ base_of self }
    {
        match self {
            VertexForm::Deref(base) | VertexForm::Address(base) => Some(base),
            _ => None,
        }
    }
}

/// A vertex, with the name of its variable or function, which is empty for other forms.
#[derive(Drop)]
pub struct Vertex {
    /// What it stands for.
    pub form: VertexForm,
    /// The name.
    pub name: Items<u8>,
}
