//! Statements without statements in them.
ghost use Rattle.std.specs.Prelude.{◌≡◌, ◌≤◌, ◌+◌, Some, true, length};
ghost use Rattle.c_lexer.specs.declared.token.TokenKind.TheVariants as k;
ghost use Rattle.c_tree.specs.Grammar.{stmt_said, returned_said};
ghost use Rattle.c_tree.specs.Reading.{Answers};
ghost use Rattle.c_tree.specs.Tokens.{source, kind_at};
ghost use Rattle.c_parser.specs.Starts.{is_assigned, is_flat};

use crate::declaration::{base_of, read_declaration};
use c_expressions::{read_args, read_bracketed, read_expr, read_place};
use c_lexer::{Token, TokenKind};
use c_tree::{Call, Expr, ReadFault, Stmt, is_at, look, name_at, tok_at, too_deep, unexpected};
use sqlite_items::Boxed;
use std::alloc::Global;

/// Reads an assignment.
pub(crate) fn read_assign(
    alloc: Global,
    bytes: &[u8],
    tokens: &[Token],
    at: usize,
    room: usize,
) -> Result<(Stmt, usize), ReadFault>
    requires within { at ≤ length tokens.now }
    requires here { is_assigned (kind_at tokens.now at) (kind_at tokens.now (at + 1)) ≡ true }
    ensures { Answers stmt_said (source bytes.now tokens.now) at room result }
{
    let (place, next) = read_place(alloc, bytes, tokens, at, room)?;
    if !is_at(tokens, next, TokenKind::Assign) {
        return Err(unexpected(next));
    }
    let (value, after) = read_expr(alloc, bytes, tokens, next + 1, room)?;
    if !is_at(tokens, after, TokenKind::Semicolon) {
        return Err(unexpected(after));
    }
    Ok((Stmt::Assign { place, value }, after + 1))
}

/// Reads a call of a function, with the semicolon.
pub(crate) fn read_function_call(
    alloc: Global,
    bytes: &[u8],
    tokens: &[Token],
    at: usize,
    room: usize,
) -> Result<(Stmt, usize), ReadFault>
    requires within { at ≤ length tokens.now }
    requires here { kind_at tokens.now at ≡ Some k.Name }
    requires bracket { kind_at tokens.now (at + 1) ≡ Some k.OpenParen }
    ensures { Answers stmt_said (source bytes.now tokens.now) at room result }
{
    if room == 0 {
        return Err(too_deep(at + 1));
    }
    let name = name_at(alloc, bytes, tokens, at)?;
    let (args, next) = read_args(alloc, bytes, tokens, at + 2, room - 1)?;
    if !is_at(tokens, next, TokenKind::Semicolon) {
        return Err(unexpected(next));
    }
    Ok((Stmt::Call(Call::Function { name, args }), next + 1))
}

/// Reads a call of `malloc`, with the semicolon.
pub(crate) fn read_malloc_call(
    alloc: Global,
    bytes: &[u8],
    tokens: &[Token],
    at: usize,
    room: usize,
) -> Result<(Stmt, usize), ReadFault>
    requires within { at ≤ length tokens.now }
    requires here { kind_at tokens.now at ≡ Some k.Malloc }
    ensures { Answers stmt_said (source bytes.now tokens.now) at room result }
{
    if room == 0 {
        return Err(too_deep(at));
    }
    let tok = tok_at(tokens, at);
    let (size, next) = read_bracketed(alloc, bytes, tokens, at + 1, room - 1)?;
    if !is_at(tokens, next, TokenKind::Semicolon) {
        return Err(unexpected(next));
    }
    let size = Boxed::new(alloc, size)?;
    Ok((Stmt::Call(Call::Malloc { tok, size }), next + 1))
}

/// Reads `return`, with its value if it has one.
pub(crate) fn read_return(
    alloc: Global,
    bytes: &[u8],
    tokens: &[Token],
    at: usize,
    room: usize,
) -> Result<(Stmt, usize), ReadFault>
    requires within { at ≤ length tokens.now }
    requires here { kind_at tokens.now at ≡ Some k.Return }
    ensures { Answers stmt_said (source bytes.now tokens.now) at room result }
{
    let tok = tok_at(tokens, at);
    let (value, next) = read_returned(alloc, bytes, tokens, at + 1, room)?;
    Ok((Stmt::Return { tok, value }, next))
}

/// Reads the value of a `return`, if there is one, with the semicolon.
fn read_returned(
    alloc: Global,
    bytes: &[u8],
    tokens: &[Token],
    at: usize,
    room: usize,
) -> Result<(Option<Expr>, usize), ReadFault>
    requires { at ≤ length tokens.now }
    ensures { Answers returned_said (source bytes.now tokens.now) at room result }
{
    if is_at(tokens, at, TokenKind::Semicolon) {
        return Ok((None, at + 1));
    }
    let (value, next) = read_expr(alloc, bytes, tokens, at, room)?;
    if !is_at(tokens, next, TokenKind::Semicolon) {
        return Err(unexpected(next));
    }
    Ok((Some(value), next + 1))
}

/// Reads a statement that has no statement in it.
pub(crate) fn read_flat(
    alloc: Global,
    bytes: &[u8],
    tokens: &[Token],
    at: usize,
    room: usize,
) -> Result<(Stmt, usize), ReadFault>
    requires within { at ≤ length tokens.now }
    requires here { is_flat (kind_at tokens.now at) ≡ true }
    ensures { Answers stmt_said (source bytes.now tokens.now) at room result }
{
    if let Some(base) = base_of(look(tokens, at)) {
        let (declaration, next) = read_declaration(alloc, bytes, tokens, at, room, base)?;
        return Ok((Stmt::Declared(declaration), next));
    }
    if is_at(tokens, at, TokenKind::Return) {
        return read_return(alloc, bytes, tokens, at, room);
    }
    if is_at(tokens, at, TokenKind::Malloc) {
        return read_malloc_call(alloc, bytes, tokens, at, room);
    }
    if is_at(tokens, at, TokenKind::Name) {
        return read_named(alloc, bytes, tokens, at, room);
    }
    read_assign(alloc, bytes, tokens, at, room)
}

/// Reads a call of a function or an assignment, where both begin with a name.
fn read_named(
    alloc: Global,
    bytes: &[u8],
    tokens: &[Token],
    at: usize,
    room: usize,
) -> Result<(Stmt, usize), ReadFault>
    requires within { at ≤ length tokens.now }
    requires here { kind_at tokens.now at ≡ Some k.Name }
    ensures { Answers stmt_said (source bytes.now tokens.now) at room result }
{
    if is_at(tokens, at + 1, TokenKind::OpenParen) {
        return read_function_call(alloc, bytes, tokens, at, room);
    }
    read_assign(alloc, bytes, tokens, at, room)
}
