//! Parameters of functions.
ghost use Rattle.std.specs.Prelude.{◌≡◌, ◌≤◌, ◌↔◌, ◌+◌, ℕ, IsTrue, length};
ghost use Rattle.c_tree.specs.Grammar.{param_said, more_params};
ghost use Rattle.c_tree.specs.Reading.{Answers};
ghost use Rattle.c_tree.specs.Tokens.{source};
ghost use Rattle.c_parser.specs.Flagged.{AnswersFlagged, SaysVoid, params_of};

use crate::declaration::{base_of, read_stars};
use c_lexer::{Token, TokenKind};
use c_tree::{Nodes, Param, ReadFault, is_at, look, name_at, unexpected};
use std::alloc::Global;

/// Reads parameters, up to and with the closing bracket. `()` and `(void)` have none.
///
/// Parameters open no level, so they are read in whatever room is left.
pub(crate) fn read_params(
    alloc: Global,
    bytes: &[u8],
    tokens: &[Token],
    at: usize,
) -> Result<(Nodes<Param>, usize), ReadFault>
    requires { at ≤ length tokens.now }
    ensures { (room : ℕ) → AnswersFlagged params_of (source bytes.now tokens.now) at room result }
{
    if is_at(tokens, at, TokenKind::CloseParen) {
        return Ok((Nodes::new(alloc), at + 1));
    }
    if says_void(tokens, at) {
        return Ok((Nodes::new(alloc), at + 2));
    }
    let (first, next) = read_param(alloc, bytes, tokens, at)?;
    let (more, after) = read_more_params(alloc, bytes, tokens, next)?;
    let mut params = Nodes::new(alloc);
    params.push(first)?;
    params.append(more)?;
    Ok((params, after))
}

/// Whether `void` and the bracket behind it say that there are no parameters.
fn says_void(tokens: &[Token], at: usize) -> bool
    requires { at ≤ length tokens.now }
    ensures { IsTrue result ↔ SaysVoid tokens.now at }
{
    is_at(tokens, at, TokenKind::Void) && is_at(tokens, at + 1, TokenKind::CloseParen)
}

/// Reads the parameters behind the first one, up to and with the closing bracket.
fn read_more_params(
    alloc: Global,
    bytes: &[u8],
    tokens: &[Token],
    at: usize,
) -> Result<(Nodes<Param>, usize), ReadFault>
    requires { at ≤ length tokens.now }
    ensures { (room : ℕ) → Answers more_params (source bytes.now tokens.now) at room result }
{
    let mut params = Nodes::new(alloc);
    let mut next = at;
    loop {
        if is_at(tokens, next, TokenKind::CloseParen) {
            return Ok((params, next + 1));
        }
        if !is_at(tokens, next, TokenKind::Comma) {
            return Err(unexpected(next));
        }
        let (param, after) = read_param(alloc, bytes, tokens, next + 1)?;
        params.push(param)?;
        next = after;
    }
}

/// Reads a base type, its stars and a name.
pub(crate) fn read_param(
    alloc: Global,
    bytes: &[u8],
    tokens: &[Token],
    at: usize,
) -> Result<(Param, usize), ReadFault>
    requires { at ≤ length tokens.now }
    ensures { (room : ℕ) → Answers param_said (source bytes.now tokens.now) at room result }
{
    match base_of(look(tokens, at)) {
        Some(base) => {
            let (stars, next) = read_stars(tokens, at + 1);
            if !is_at(tokens, next, TokenKind::Name) {
                return Err(unexpected(next));
            }
            let name = name_at(alloc, bytes, tokens, next)?;
            Ok((Param { base, stars, name }, next + 1))
        }
        None => Err(unexpected(at)),
    }
}
