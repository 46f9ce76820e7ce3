//! The walk of declarations, statements and functions.
ghost use Rattle.std.specs.Prelude.{◌≡◌, ◌++◌, [], OnOk, map, reverse};
ghost use Rattle.graph_emit.specs.State.{scoped};
ghost use Rattle.graph_emit.specs.Answers.{Answers};
ghost use Rattle.graph_emit.specs.Functions.{bound, target as target_of};
ghost use Rattle.graph_emit.specs.Settings.{seen};
ghost use Rattle.graph_emit.specs.Walk.{var_walk, vars_walk, returned, in_order, stmt_walk, body_walk};

use crate::emitter::{Emitter, refusal};
use crate::expr::{Setting, walk_call, walk_expr, walk_place};
use crate::fault::EmitFault;
use crate::functions::{Param, Target};
use c_tree::{Expr, Nodes, Stmt, Tok, Var};
use io_edge::InputKind;
use std::alloc::AllocError;

/// Variables in order.
pub(crate) fn walk_vars<'p>(
    set: &Setting<'_, 'p>,
    emitter: &mut Emitter<'p>,
    vars: &'p [Var],
) -> Result<(), EmitFault>
    ensures { Answers (vars_walk (seen set.now) vars.now) emitter.old result emitter.new }
{
    for var in vars {
        walk_var(set, emitter, var)?;
    }
    Ok(())
}

/// A variable is made, and then its initial value flows to it.
fn walk_var<'p>(
    set: &Setting<'_, 'p>,
    emitter: &mut Emitter<'p>,
    var: &'p Var,
) -> Result<(), EmitFault>
    ensures { Answers (var_walk (seen set.now) var.now) emitter.old result emitter.new }
{
    let t = emitter.declare(&var.name)?;
    let Some(e) = &var.value else {
        return Ok(());
    };
    let value = walk_expr(set, emitter, e)?;
    emitter.flow(set.kind, value, t)
}

/// `return`, in a function that gives this vertex, if it gives anything.
fn walk_return<'p>(
    set: &Setting<'_, 'p>,
    emitter: &mut Emitter<'p>,
    tok: Tok,
    gives: Option<u32>,
    value: &'p Option<Expr>,
) -> Result<(), EmitFault>
    ensures { Answers (returned (seen set.now) tok gives value.now) emitter.old result emitter.new }
{
    let Some(e) = value else {
        return Ok(());
    };
    let Some(r) = gives else {
        return Err(refusal(tok, InputKind::NoValue));
    };
    let value = walk_expr(set, emitter, e)?;
    emitter.flow(set.kind, value, r)
}

/// Statements in order.
#[cycle(stmt)]
fn walk_stmts<'p>(
    set: &Setting<'_, 'p>,
    emitter: &mut Emitter<'p>,
    gives: Option<u32>,
    stmts: &'p Nodes<Stmt>,
) -> Result<(), EmitFault>
    ensures { Answers (in_order (map (stmt_walk (seen set.now) gives) stmts.now)) emitter.old result emitter.new }
{
    for stmt in stmts.as_slice() {
        walk_stmt(set, emitter, gives, stmt)?;
    }
    Ok(())
}

/// A block, in a scope of its own.
#[cycle(stmt)]
fn walk_block<'p>(
    set: &Setting<'_, 'p>,
    emitter: &mut Emitter<'p>,
    gives: Option<u32>,
    stmts: &'p Nodes<Stmt>,
) -> Result<(), EmitFault>
    ensures { Answers (scoped [] (in_order (map (stmt_walk (seen set.now) gives) stmts.now)))
        emitter.old result emitter.new }
{
    let around = emitter.open();
    walk_stmts(set, emitter, gives, stmts)?;
    emitter.close(around);
    Ok(())
}

#[cycle(stmt)]
fn walk_stmt<'p>(
    set: &Setting<'_, 'p>,
    emitter: &mut Emitter<'p>,
    gives: Option<u32>,
    stmt: &'p Stmt,
) -> Result<(), EmitFault>
    ensures { Answers (stmt_walk (seen set.now) gives stmt.now) emitter.old result emitter.new }
{
    match stmt {
        Stmt::Declared(d) => walk_vars(set, emitter, d.vars.as_slice()),
        Stmt::Assign { place, value } => {
            let t = walk_place(set, emitter, place)?;
            let value = walk_expr(set, emitter, value)?;
            emitter.flow(set.kind, value, t)
        }
        Stmt::Call(call) => {
            walk_call(set, emitter, call)?;
            Ok(())
        }
        Stmt::Block(stmts) => walk_block(set, emitter, gives, stmts),
        Stmt::Empty => Ok(()),
        Stmt::If {
            condition,
            body,
            other,
        } => {
            walk_expr(set, emitter, condition)?;
            walk_stmt(set, emitter, gives, body.get())?;
            match other {
                None => Ok(()),
                Some(other) => walk_stmt(set, emitter, gives, other.get()),
            }
        }
        Stmt::While { condition, body } => {
            walk_expr(set, emitter, condition)?;
            walk_stmt(set, emitter, gives, body.get())
        }
        Stmt::Return { tok, value } => walk_return(set, emitter, *tok, gives, value),
    }
}

/// The names of parameters.
fn bind_params<'p>(emitter: &mut Emitter<'p>, params: &[Param<'p>]) -> Result<(), AllocError>
    ensures { OnOk result (emitter.new ≡ record {
      vertices = emitter.old.vertices;
      edges = emitter.old.edges;
      inner = reverse (map bound params.now) ++ emitter.old.inner;
      outer = emitter.old.outer;
    }) }
{
    for param in params {
        emitter.bind(param.name, param.vertex)?;
    }
    Ok(())
}

/// The body of a function, in the scope of its parameters.
pub(crate) fn walk_body<'p>(
    set: &Setting<'_, 'p>,
    emitter: &mut Emitter<'p>,
    body: &'p Nodes<Stmt>,
    target: &Target<'p>,
) -> Result<(), EmitFault>
    ensures { Answers (body_walk (seen set.now) body.now (target_of target.now)) emitter.old result emitter.new }
{
    let around = emitter.open();
    bind_params(emitter, target.params.as_slice())?;
    walk_stmts(set, emitter, target.gives, body)?;
    emitter.close(around);
    Ok(())
}
