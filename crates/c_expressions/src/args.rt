//! Arguments, and expressions in brackets.
ghost use Rattle.std.specs.Prelude.{◌≤◌, ◌+◌, length};
ghost use Rattle.c_tree.specs.Grammar.{args_of, condition_said};
ghost use Rattle.c_tree.specs.Reading.{Answers};
ghost use Rattle.c_tree.specs.Tokens.{source};

use crate::expr::read_expr;
use c_lexer::{Token, TokenKind};
use c_tree::{Expr, Nodes, ReadFault, is_at, unexpected};
use std::alloc::Global;

/// Reads an expression with the brackets round it. They open no level.
#[cycle(expr)]
pub fn read_bracketed(
    alloc: Global,
    bytes: &[u8],
    tokens: &[Token],
    at: usize,
    room: usize,
) -> Result<(Expr, usize), ReadFault>
    requires { at ≤ length tokens.now }
    ensures { Answers condition_said (source bytes.now tokens.now) at room result }
{
    if !is_at(tokens, at, TokenKind::OpenParen) {
        return Err(unexpected(at));
    }
    let (inner, next) = read_expr(alloc, bytes, tokens, at + 1, room)?;
    if !is_at(tokens, next, TokenKind::CloseParen) {
        return Err(unexpected(next));
    }
    Ok((inner, next + 1))
}

/// Reads the arguments of a call, up to and with its closing bracket.
#[cycle(expr)]
pub fn read_args(
    alloc: Global,
    bytes: &[u8],
    tokens: &[Token],
    at: usize,
    room: usize,
) -> Result<(Nodes<Expr>, usize), ReadFault>
    requires { at ≤ length tokens.now }
    ensures { Answers args_of (source bytes.now tokens.now) at room result }
{
    let mut args = Nodes::new(alloc);
    if is_at(tokens, at, TokenKind::CloseParen) {
        return Ok((args, at + 1));
    }
    let mut next = at;
    loop {
        let (arg, after) = read_expr(alloc, bytes, tokens, next, room)?;
        args.push(arg)?;
        if is_at(tokens, after, TokenKind::CloseParen) {
            return Ok((args, after + 1));
        }
        if !is_at(tokens, after, TokenKind::Comma) {
            return Err(unexpected(after));
        }
        next = after + 1;
    }
}
