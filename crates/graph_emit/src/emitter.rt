//! The graph while it is made.
ghost use Rattle.std.specs.Prelude.{◌≡◌, ◌++◌, ◌∷◌, [], ℕ, None, Some, false, OnOk, OnErr, map, nat_eq, length, ◌≤◌};
ghost use Rattle.std.specs.Map.{update};
ghost use Rattle.emit_list.specs.Vertices.{made_for};
ghost use Rattle.graph_emit.specs.State.{fresh as fresh_step, join as join_step, deref_of as deref_step, address_of as address_step, pointed_to as pointed_step, addressed as addressed_step, flow as flow_step, variable as variable_step, declare as declare_step, bind as bind_step, form_at, opened};
ghost use Rattle.graph_emit.specs.Answers.{Answers, made, at_number};

use crate::fault::{EmitFault, EmitKind};
use c_tree::{Name, Tok};
use emit_list::{EmitEdge, EmitLabel, MOST_VERTICES, VertexForm};
use io_edge::InputKind;
use std::alloc::{AllocError, Global};
use std::collections::BTreeMap;
use std::marker::Model;
use visible_names::VisibleNames;

/// A vertex: what it stands for, its name, and the number of the token that it was made for.
#[derive(Clone, Copy)]
pub(crate) struct Spot<'p> {
    pub(crate) form: VertexForm,
    pub(crate) name: &'p [u8],
    pub(crate) token: usize,
}

/// The vertex of an expression, and whether it is `NULL` with brackets round it or none.
#[derive(Clone, Copy, PartialEq, Eq, Debug)]
pub(crate) struct Value {
    pub(crate) vertex: u32,
    pub(crate) is_null: bool,
}

/// The value of a vertex that is not `NULL`.
pub(crate) fn plain(vertex: u32) -> Value
    ensures { result ≡ record { vertex = vertex; is_null = false } }
{
    Value {
        vertex,
        is_null: false,
    }
}

/// The refusal of a token.
pub(crate) fn refusal(tok: Tok, kind: InputKind) -> EmitFault
    ensures { result ≡ EmitFault.At tok.line kind }
{
    EmitFault::At {
        line: tok.line,
        kind,
    }
}

/// The graph so far, and the names that are visible.
#[derive(Drop)]
pub(crate) struct Emitter<'p> {
    spots: Vec<Spot<'p>>,
    edges: Vec<EmitEdge>,
    derefs: BTreeMap<u32, u32>,
    addresses: BTreeMap<u32, u32>,
    names: VisibleNames<'p>,
}

impl<'p> Model for Emitter<'p> {
    ghost use Rattle.std.specs.Prelude.{map};
    ghost use Rattle.graph_emit.specs.State.{State};
    ghost use Rattle.graph_emit.specs.Answers.{made, IsIndexed};

    ghost Value = { State };

    ghost view = { λ e. record {
      vertices = map made e.spots.items;
      edges = e.edges.items;
      inner = e.names.inner;
      outer = e.names.outer;
    } };

    ghost invariant = { λ e. IsIndexed (map made e.spots.items) e.derefs e.addresses };
}

impl<'p> Emitter<'p> {
    /// No vertex, no edge and no name.
    pub(crate) fn new(alloc: Global) -> Emitter<'p>
        ensures { result ≡ record { vertices = []; edges = []; inner = []; outer = [] } }
    {
        Emitter {
            spots: Vec::new(alloc),
            edges: Vec::new(alloc),
            derefs: BTreeMap::new(alloc),
            addresses: BTreeMap::new(alloc),
            names: VisibleNames::new(alloc),
        }
    }

    /// The vertices, by their numbers.
    pub(crate) fn spots(&self) -> &[Spot<'p>]
        ensures { map made result.now ≡ self.now.vertices }
    {
        self.spots.as_slice()
    }

    /// The edges, in the order in which they were made.
    pub(crate) fn edges(&self) -> &[EmitEdge]
        ensures { result.now ≡ self.now.edges }
    {
        self.edges.as_slice()
    }

    /// A new vertex that is no dereference and no address, for this token.
    pub(crate) fn fresh(
        &mut self,
        tok: Tok,
        form: VertexForm,
        name: &'p [u8],
    ) -> Result<u32, EmitFault>
        requires { made_for form ≡ None }
        ensures { Answers (fresh_step tok form name.now) self.old result self.new }
    {
        let number = self.spots.len();
        if number >= MOST_VERTICES {
            return Err(refusal(tok, InputKind::TooManyVertices));
        }
        push_spot(
            &mut self.spots,
            Spot {
                form,
                name,
                token: tok.number,
            },
        )?;
        Ok(number as u32)
    }

    /// An edge and its inverse.
    pub(crate) fn join(&mut self, src: u32, label: EmitLabel, dst: u32) -> Result<(), EmitFault>
        ensures { Answers (join_step src label dst) self.old result self.new }
    {
        push_edge(&mut self.edges, EmitEdge { src, label, dst })?;
        let inverse = EmitEdge {
            src: dst,
            label: label.inverse(),
            dst: src,
        };
        push_edge(&mut self.edges, inverse)?;
        Ok(())
    }

    /// The dereference of a vertex, which is made at its first need.
    fn deref_of(&mut self, tok: Tok, v: u32) -> Result<u32, EmitFault>
        ensures { Answers (deref_step tok v) self.old result self.new }
    {
        if let Some(t) = self.derefs.get(&v) {
            return Ok(*t);
        }
        let number = self.spots.len();
        if number >= MOST_VERTICES {
            return Err(refusal(tok, InputKind::TooManyVertices));
        }
        let t = number as u32;
        let spot = Spot {
            form: VertexForm::Deref(v),
            name: b"",
            token: tok.number,
        };
        add_indexed(&mut self.spots, &mut self.derefs, spot, v, t)?;
        self.join(v, EmitLabel::D, t)?;
        Ok(t)
    }

    /// The address of a vertex, which is made at its first need.
    fn address_of(&mut self, tok: Tok, v: u32) -> Result<u32, EmitFault>
        ensures { Answers (address_step tok v) self.old result self.new }
    {
        if let Some(t) = self.addresses.get(&v) {
            return Ok(*t);
        }
        let number = self.spots.len();
        if number >= MOST_VERTICES {
            return Err(refusal(tok, InputKind::TooManyVertices));
        }
        let t = number as u32;
        let spot = Spot {
            form: VertexForm::Address(v),
            name: b"",
            token: tok.number,
        };
        add_indexed(&mut self.spots, &mut self.addresses, spot, v, t)?;
        self.join(t, EmitLabel::D, v)?;
        Ok(t)
    }

    /// What a vertex stands for, if it is there.
    fn form(&self, v: u32) -> Option<VertexForm>
        ensures { result ≡ form_at self.now.vertices v }
    {
        match self.spots.get(v as usize) {
            Some(spot) => Some(spot.form),
            None => None,
        }
    }

    /// `*e`, where e has vertex v: the vertex whose address v is, or else the dereference of v.
    pub(crate) fn pointed_to(&mut self, tok: Tok, v: u32) -> Result<u32, EmitFault>
        ensures { Answers (pointed_step tok v) self.old result self.new }
    {
        match self.form(v) {
            Some(VertexForm::Address(w)) => Ok(w),
            _ => self.deref_of(tok, v),
        }
    }

    /// `&place`, where the place has vertex v: the vertex whose dereference v is, or else the address of v.
    pub(crate) fn addressed(&mut self, tok: Tok, v: u32) -> Result<u32, EmitFault>
        ensures { Answers (addressed_step tok v) self.old result self.new }
    {
        match self.form(v) {
            Some(VertexForm::Deref(w)) => Ok(w),
            _ => self.address_of(tok, v),
        }
    }

    /// A value flows to a vertex.
    pub(crate) fn flow(&mut self, kind: EmitKind, value: Value, t: u32) -> Result<(), EmitFault>
        ensures { Answers (flow_step kind value t) self.old result self.new }
    {
        if !value.is_null {
            return self.join(value.vertex, EmitLabel::A, t);
        }
        match kind {
            EmitKind::Null => self.join(value.vertex, EmitLabel::N, t),
            EmitKind::Alias => Ok(()),
        }
    }

    /// The variable of a name.
    pub(crate) fn variable(&mut self, name: &Name) -> Result<u32, EmitFault>
        ensures { Answers (variable_step name.now) self.old result self.new }
    {
        match self.names.find(name.bytes.as_slice()) {
            Some(v) => Ok(v),
            None => Err(refusal(name.tok, InputKind::Undeclared)),
        }
    }

    /// The name of a vertex in the innermost scope.
    pub(crate) fn bind(&mut self, name: &'p [u8], v: u32) -> Result<(), AllocError>
        ensures { OnOk result (bind_step name.now v self.old ≡ Ok (self.new, v)) }
    {
        self.names.bind(name, v)?;
        Ok(())
    }

    /// Begins a scope, and answers how many names stood around the one before.
    pub(crate) fn open(&mut self) -> usize
        ensures opened { self.new ≡ opened [] self.old }
        ensures around { result ≡ length self.old.outer }
    {
        self.names.open()
    }

    /// Ends a scope: the names around it are visible again, of which as many stand around the innermost scope.
    pub(crate) fn close(&mut self, around: usize)
        requires { around ≤ length self.old.outer }
        ensures vertices { self.new.vertices ≡ self.old.vertices }
        ensures edges { self.new.edges ≡ self.old.edges }
        ensures names { self.new.inner ++ self.new.outer ≡ self.old.outer }
        ensures around { length self.new.outer ≡ around }
    {
        self.names.close(around);
    }

    /// A new variable, of a name that the innermost scope doesn't have yet.
    pub(crate) fn declare(&mut self, name: &'p Name) -> Result<u32, EmitFault>
        ensures { Answers (declare_step name.now) self.old result self.new }
    {
        let bytes = name.bytes.as_slice();
        if self.names.is_inner(bytes) {
            return Err(refusal(name.tok, InputKind::Repeated));
        }
        let v = self.fresh(name.tok, VertexForm::Variable, bytes)?;
        self.bind(bytes, v)?;
        Ok(v)
    }
}

fn push_spot<'p>(spots: &mut Vec<Spot<'p>>, spot: Spot<'p>) -> Result<(), AllocError>
    ensures ok { OnOk result (spots.new.items ≡ spots.old.items ++ spot.entry ∷ []) }
    ensures err { OnErr result (spots.new.items ≡ spots.old.items) }
{
    spots.push(spot)?;
    Ok(())
}

fn push_edge(edges: &mut Vec<EmitEdge>, edge: EmitEdge) -> Result<(), AllocError>
    ensures ok { OnOk result (edges.new.items ≡ edges.old.items ++ edge ∷ []) }
    ensures err { OnErr result (edges.new.items ≡ edges.old.items) }
{
    edges.push(edge)?;
    Ok(())
}

/// Adds a vertex, and where it is found. A refusal changes nothing.
fn add_indexed<'p>(
    spots: &mut Vec<Spot<'p>>,
    index: &mut BTreeMap<u32, u32>,
    spot: Spot<'p>,
    v: u32,
    t: u32,
) -> Result<(), AllocError>
    ensures spots { OnOk result (spots.new.items ≡ spots.old.items ++ spot.entry ∷ []) }
    ensures index { OnOk result ((q : ℕ) → at_number index.new q
        ≡ update nat_eq (at_number index.old) v (Some t) q) }
    ensures same_spots { OnErr result (spots.new.items ≡ spots.old.items) }
    ensures same_index { OnErr result ((q : ℕ) → at_number index.new q ≡ at_number index.old q) }
{
    spots.reserve(1)?;
    index.insert(v, t)?;
    spots.push(spot)?;
    Ok(())
}
