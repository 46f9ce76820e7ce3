//! The walk of expressions.
ghost use Rattle.std.specs.Prelude.{◌≡◌, ◌<◌, length, map, slice_get};
ghost use Rattle.std.specs.Option.{option_map};
ghost use Rattle.graph_emit.specs.State.{Setting as ASetting};
ghost use Rattle.graph_emit.specs.Answers.{Answers};
ghost use Rattle.graph_emit.specs.Functions.{bound};
ghost use Rattle.graph_emit.specs.Settings.{seen};
ghost use Rattle.graph_emit.specs.Walk.{given as given_step, arg_flows as arg_step, args_flow as args_step, operate, call_walk, value_of, place_walk, pointer_walk, unary_walk, added_walk, sum_walk, compared_walk, expr_walk};

use crate::emitter::{Emitter, Value, plain, refusal};
use crate::fault::{EmitFault, EmitKind};
use crate::functions::{Functions, Param};
use c_tree::{Added, Call, Compared, Expr, Name, Nodes, Place, Pointer, Sum, Tok, Unary};
use emit_list::{EmitLabel, VertexForm};
use io_edge::InputKind;

/// What a walk is made with: the kind of graph, and where the call of a name goes.
#[derive(Clone, Copy)]
pub(crate) struct Setting<'a, 'p> {
    pub(crate) kind: EmitKind,
    pub(crate) functions: &'a Functions<'p>,
}

/// What a function gives flows to a new vertex.
fn given<'p>(
    emitter: &mut Emitter<'p>,
    name: &'p Name,
    gives: Option<u32>,
) -> Result<Option<u32>, EmitFault>
    ensures { Answers (given_step name.now gives) emitter.old result emitter.new }
{
    let Some(r) = gives else {
        return Ok(None);
    };
    let t = emitter.fresh(name.tok, VertexForm::Call, name.bytes.as_slice())?;
    emitter.join(r, EmitLabel::A, t)?;
    Ok(Some(t))
}

/// An argument flows to its parameter.
#[cycle(expr)]
fn arg_flows<'p>(
    set: &Setting<'_, 'p>,
    emitter: &mut Emitter<'p>,
    arg: &'p Expr,
    t: u32,
) -> Result<(), EmitFault>
    ensures { Answers (arg_step set.now.kind (expr_walk (seen set.now) arg.now) t) emitter.old result emitter.new }
{
    let value = walk_expr(set, emitter, arg)?;
    emitter.flow(set.kind, value, t)
}

/// The vertex of the parameter at a place.
fn vertex_of(params: &[Param<'_>], i: usize) -> u32
    requires { i < length params.now }
    ensures { option_map (λ p. p.vertex) (slice_get params.now i) ≡ Some result }
{
    params[i].vertex
}

/// Each argument in order flows to its parameter.
#[cycle(expr)]
fn args_flow<'p>(
    set: &Setting<'_, 'p>,
    emitter: &mut Emitter<'p>,
    args: &'p Nodes<Expr>,
    params: &[Param<'p>],
) -> Result<(), EmitFault>
    requires { length args.now ≡ length params.now }
    ensures { Answers (args_step set.now.kind (map (expr_walk (seen set.now)) args.now) (map bound params.now))
        emitter.old result emitter.new }
{
    let items = args.as_slice();
    for (i, arg) in items.iter().enumerate() {
        arg_flows(set, emitter, arg, vertex_of(params, i))?;
    }
    Ok(())
}

/// A call; it answers its vertex, if it has one.
#[cycle(expr)]
pub(crate) fn walk_call<'p>(
    set: &Setting<'_, 'p>,
    emitter: &mut Emitter<'p>,
    call: &'p Call,
) -> Result<Option<u32>, EmitFault>
    ensures { Answers (call_walk (seen set.now) call.now).walk emitter.old result emitter.new }
{
    match call {
        Call::Function { name, args } => {
            let target = set.functions.goes(name)?;
            if args.len() != target.params.len() {
                return Err(refusal(name.tok, InputKind::WrongArguments));
            }
            args_flow(set, emitter, args, target.params.as_slice())?;
            given(emitter, name, target.gives)
        }
        Call::Malloc { tok, size } => {
            walk_expr(set, emitter, size.get())?;
            let t = emitter.fresh(*tok, VertexForm::Malloc, b"")?;
            Ok(Some(t))
        }
    }
}

/// The token of a call's name.
fn call_tok(call: &Call) -> Tok
    ensures { (set : ASetting) → result ≡ (call_walk set call.now).tok }
{
    match call {
        Call::Function { name, args: _ } => name.tok,
        Call::Malloc { tok, size: _ } => *tok,
    }
}

/// The vertex of a call that is used as an expression.
#[cycle(expr)]
fn value_of_call<'p>(
    set: &Setting<'_, 'p>,
    emitter: &mut Emitter<'p>,
    call: &'p Call,
) -> Result<u32, EmitFault>
    ensures { Answers (value_of (call_walk (seen set.now) call.now)) emitter.old result emitter.new }
{
    match walk_call(set, emitter, call)? {
        Some(t) => Ok(t),
        None => Err(refusal(call_tok(call), InputKind::NoValue)),
    }
}

/// A place; it answers its vertex.
#[cycle(expr)]
pub(crate) fn walk_place<'p>(
    set: &Setting<'_, 'p>,
    emitter: &mut Emitter<'p>,
    place: &'p Place,
) -> Result<u32, EmitFault>
    ensures { Answers (place_walk (seen set.now) place.now) emitter.old result emitter.new }
{
    match place {
        Place::Name(name) => emitter.variable(name),
        Place::Star { tok, pointer } => {
            let v = walk_pointer(set, emitter, pointer.get())?;
            emitter.pointed_to(*tok, v)
        }
    }
}

#[cycle(expr)]
fn walk_pointer<'p>(
    set: &Setting<'_, 'p>,
    emitter: &mut Emitter<'p>,
    pointer: &'p Pointer,
) -> Result<u32, EmitFault>
    ensures { Answers (pointer_walk (seen set.now) pointer.now) emitter.old result emitter.new }
{
    match pointer {
        Pointer::Name(name) => emitter.variable(name),
        Pointer::Star { tok, pointer } => {
            let v = walk_pointer(set, emitter, pointer.get())?;
            emitter.pointed_to(*tok, v)
        }
        Pointer::Call(call) => value_of_call(set, emitter, call),
        Pointer::Paren(e) => {
            let value = walk_expr(set, emitter, e.get())?;
            Ok(value.vertex)
        }
    }
}

#[cycle(expr)]
fn walk_unary<'p>(
    set: &Setting<'_, 'p>,
    emitter: &mut Emitter<'p>,
    unary: &'p Unary,
) -> Result<Value, EmitFault>
    ensures { Answers (unary_walk (seen set.now) unary.now) emitter.old result emitter.new }
{
    match unary {
        Unary::Place(place) => {
            let v = walk_place(set, emitter, place)?;
            Ok(plain(v))
        }
        Unary::Address { tok, place } => {
            let v = walk_place(set, emitter, place)?;
            let t = emitter.addressed(*tok, v)?;
            Ok(plain(t))
        }
        Unary::Call(call) => {
            let t = value_of_call(set, emitter, call)?;
            Ok(plain(t))
        }
        Unary::Number(tok) => {
            let t = emitter.fresh(*tok, VertexForm::Number, b"")?;
            Ok(plain(t))
        }
        Unary::Null(tok) => {
            let t = emitter.fresh(*tok, VertexForm::Null, b"")?;
            Ok(Value {
                vertex: t,
                is_null: true,
            })
        }
        Unary::Paren(e) => walk_expr(set, emitter, e.get()),
    }
}

/// Operands from left to right.
#[cycle(expr)]
fn walk_sum<'p>(
    set: &Setting<'_, 'p>,
    emitter: &mut Emitter<'p>,
    sum: &'p Sum,
) -> Result<Value, EmitFault>
    ensures { Answers (sum_walk (seen set.now) sum.now) emitter.old result emitter.new }
{
    let mut value = walk_unary(set, emitter, &sum.first)?;
    for added in sum.rest.as_slice() {
        value = walk_added(set, emitter, added)?;
    }
    Ok(value)
}

/// A further operand; it answers the value of the two.
#[cycle(expr)]
fn walk_added<'p>(
    set: &Setting<'_, 'p>,
    emitter: &mut Emitter<'p>,
    added: &'p Added,
) -> Result<Value, EmitFault>
    ensures { Answers (operate (added_walk (seen set.now) added.now)) emitter.old result emitter.new }
{
    walk_unary(set, emitter, &added.unary)?;
    let t = emitter.fresh(added.tok, VertexForm::Op, b"")?;
    Ok(plain(t))
}

/// What stands behind the left side of a comparison; it answers the value of the two.
#[cycle(expr)]
fn walk_compared<'p>(
    set: &Setting<'_, 'p>,
    emitter: &mut Emitter<'p>,
    compared: &'p Compared,
) -> Result<Value, EmitFault>
    ensures { Answers (operate (compared_walk (seen set.now) compared.now)) emitter.old result emitter.new }
{
    walk_sum(set, emitter, &compared.sum)?;
    let t = emitter.fresh(compared.tok, VertexForm::Op, b"")?;
    Ok(plain(t))
}

/// An expression; it answers its value.
#[cycle(expr)]
pub(crate) fn walk_expr<'p>(
    set: &Setting<'_, 'p>,
    emitter: &mut Emitter<'p>,
    e: &'p Expr,
) -> Result<Value, EmitFault>
    ensures { Answers (expr_walk (seen set.now) e.now) emitter.old result emitter.new }
{
    let value = walk_sum(set, emitter, &e.left)?;
    match &e.right {
        None => Ok(value),
        Some(compared) => walk_compared(set, emitter, compared),
    }
}
