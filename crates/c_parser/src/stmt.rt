//! Statements.
ghost use Rattle.std.specs.Prelude.{◌≡◌, ◌≤◌, ◌+◌, Some, length};
ghost use Rattle.c_lexer.specs.declared.token.TokenKind.TheVariants as k;
ghost use Rattle.c_tree.specs.Grammar.{stmt_said};
ghost use Rattle.c_tree.specs.Reading.{Answers};
ghost use Rattle.c_tree.specs.Tokens.{source, kind_at};
ghost use Rattle.c_parser.specs.Branches.{branches_read, block_of};

use crate::branches::Branches;
use crate::simple::read_flat;
use c_expressions::read_bracketed;
use c_lexer::{Token, TokenKind};
use c_tree::{Nodes, ReadFault, Stmt, is_at, too_deep};
use sqlite_items::Boxed;
use std::alloc::Global;

/// Reads a statement.
#[cycle(stmt)]
pub(crate) fn read_stmt(
    alloc: Global,
    bytes: &[u8],
    tokens: &[Token],
    at: usize,
    room: usize,
) -> Result<(Stmt, usize), ReadFault>
    requires { at ≤ length tokens.now }
    ensures { Answers stmt_said (source bytes.now tokens.now) at room result }
{
    if is_at(tokens, at, TokenKind::Semicolon) {
        return Ok((Stmt::Empty, at + 1));
    }
    if is_at(tokens, at, TokenKind::OpenBrace) {
        return read_block(alloc, bytes, tokens, at, room);
    }
    if is_at(tokens, at, TokenKind::If) {
        return read_if(alloc, bytes, tokens, at, room);
    }
    if is_at(tokens, at, TokenKind::While) {
        return read_while(alloc, bytes, tokens, at, room);
    }
    read_flat(alloc, bytes, tokens, at, room)
}

/// Reads a block that opens a level.
#[cycle(stmt)]
fn read_block(
    alloc: Global,
    bytes: &[u8],
    tokens: &[Token],
    at: usize,
    room: usize,
) -> Result<(Stmt, usize), ReadFault>
    requires within { at ≤ length tokens.now }
    requires here { kind_at tokens.now at ≡ Some k.OpenBrace }
    ensures { Answers stmt_said (source bytes.now tokens.now) at room result }
{
    if room == 0 {
        return Err(too_deep(at));
    }
    let (stmts, next) = read_stmts(alloc, bytes, tokens, at + 1, room - 1)?;
    Ok((Stmt::Block(stmts), next))
}

/// Reads statements, up to and with the brace that ends them.
#[cycle(stmt)]
pub(crate) fn read_stmts(
    alloc: Global,
    bytes: &[u8],
    tokens: &[Token],
    at: usize,
    room: usize,
) -> Result<(Nodes<Stmt>, usize), ReadFault>
    requires { at ≤ length tokens.now }
    ensures { Answers block_of (source bytes.now tokens.now) at room result }
{
    let mut stmts = Nodes::new(alloc);
    let mut next = at;
    loop {
        if is_at(tokens, next, TokenKind::CloseBrace) {
            return Ok((stmts, next + 1));
        }
        let (stmt, after) = read_stmt(alloc, bytes, tokens, next, room)?;
        stmts.push(stmt)?;
        next = after;
    }
}

#[cycle(stmt)]
fn read_if(
    alloc: Global,
    bytes: &[u8],
    tokens: &[Token],
    at: usize,
    room: usize,
) -> Result<(Stmt, usize), ReadFault>
    requires within { at ≤ length tokens.now }
    requires here { kind_at tokens.now at ≡ Some k.If }
    ensures { Answers stmt_said (source bytes.now tokens.now) at room result }
{
    if room == 0 {
        return Err(too_deep(at));
    }
    let (condition, next) = read_bracketed(alloc, bytes, tokens, at + 1, room - 1)?;
    let (branches, after) = read_branches(alloc, bytes, tokens, next, room - 1)?;
    let Branches { body, other } = branches;
    Ok((
        Stmt::If {
            condition,
            body,
            other,
        },
        after,
    ))
}

/// Reads the body of an `if`, and what stands behind an `else`.
#[cycle(stmt)]
fn read_branches(
    alloc: Global,
    bytes: &[u8],
    tokens: &[Token],
    at: usize,
    room: usize,
) -> Result<(Branches, usize), ReadFault>
    requires { at ≤ length tokens.now }
    ensures { Answers branches_read (source bytes.now tokens.now) at room result }
{
    let (body, next) = read_stmt(alloc, bytes, tokens, at, room)?;
    let body = Boxed::new(alloc, body)?;
    if !is_at(tokens, next, TokenKind::Else) {
        return Ok((Branches { body, other: None }, next));
    }
    let (other, after) = read_stmt(alloc, bytes, tokens, next + 1, room)?;
    let other = Some(Boxed::new(alloc, other)?);
    Ok((Branches { body, other }, after))
}

#[cycle(stmt)]
fn read_while(
    alloc: Global,
    bytes: &[u8],
    tokens: &[Token],
    at: usize,
    room: usize,
) -> Result<(Stmt, usize), ReadFault>
    requires within { at ≤ length tokens.now }
    requires here { kind_at tokens.now at ≡ Some k.While }
    ensures { Answers stmt_said (source bytes.now tokens.now) at room result }
{
    if room == 0 {
        return Err(too_deep(at));
    }
    let (condition, next) = read_bracketed(alloc, bytes, tokens, at + 1, room - 1)?;
    let (body, after) = read_stmt(alloc, bytes, tokens, next, room - 1)?;
    let body = Boxed::new(alloc, body)?;
    Ok((Stmt::While { condition, body }, after))
}
