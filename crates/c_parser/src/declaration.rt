//! Declarations of variables.
ghost use Rattle.std.specs.Prelude.{◌≡◌, ◌≤◌, ◌+◌, ℕ, List, Some, length};
ghost use Rattle.c_lexer.specs.declared.token.TokenKind.TheVariants as k;
ghost use Rattle.c_tree.specs.Said.{stars};
ghost use Rattle.c_tree.specs.Grammar.{value_said, var_said, more_vars, vars_said, declaration_said};
ghost use Rattle.c_tree.specs.Reading.{Answers, ReadsAt};
ghost use Rattle.c_tree.specs.Tokens.{source, kind_at};
ghost use Rattle.c_parser.specs.Bases.{base_of as base_by};

use c_expressions::read_expr;
use c_lexer::{Token, TokenKind};
use c_tree::{Base, Declaration, Expr, Nodes, ReadFault, Var, is_at, look, name_at, unexpected};
use std::alloc::Global;

/// The base type that a token names, if it is one.
pub(crate) fn base_of(kind: Option<TokenKind>) -> Option<Base>
    ensures { result ≡ base_by kind }
{
    match kind {
        Some(TokenKind::Int) => Some(Base::Int),
        Some(TokenKind::Char) => Some(Base::Char),
        Some(TokenKind::Void) => Some(Base::Void),
        _ => None,
    }
}

/// Reads a declaration that begins with this base type.
pub(crate) fn read_declaration(
    alloc: Global,
    bytes: &[u8],
    tokens: &[Token],
    at: usize,
    room: usize,
    base: Base,
) -> Result<(Declaration, usize), ReadFault>
    requires within { at ≤ length tokens.now }
    requires here { base_by (kind_at tokens.now at) ≡ Some base }
    ensures { Answers declaration_said (source bytes.now tokens.now) at room result }
{
    let (first, next) = read_var(alloc, bytes, tokens, at + 1, room)?;
    let (more, after) = read_more_vars(alloc, bytes, tokens, next, room)?;
    let mut vars = Nodes::new(alloc);
    vars.push(first)?;
    vars.append(more)?;
    Ok((Declaration { base, vars }, after))
}

/// Reads the variables behind the first one, up to and with the semicolon.
pub(crate) fn read_more_vars(
    alloc: Global,
    bytes: &[u8],
    tokens: &[Token],
    at: usize,
    room: usize,
) -> Result<(Nodes<Var>, usize), ReadFault>
    requires { at ≤ length tokens.now }
    ensures { Answers more_vars (source bytes.now tokens.now) at room result }
{
    let mut vars = Nodes::new(alloc);
    let mut next = at;
    loop {
        if is_at(tokens, next, TokenKind::Semicolon) {
            return Ok((vars, next + 1));
        }
        if !is_at(tokens, next, TokenKind::Comma) {
            return Err(unexpected(next));
        }
        let (var, after) = read_var(alloc, bytes, tokens, next + 1, room)?;
        vars.push(var)?;
        next = after;
    }
}

/// Reads a variable, with its value if it has one.
fn read_var(
    alloc: Global,
    bytes: &[u8],
    tokens: &[Token],
    at: usize,
    room: usize,
) -> Result<(Var, usize), ReadFault>
    requires { at ≤ length tokens.now }
    ensures { Answers var_said (source bytes.now tokens.now) at room result }
{
    let (stars, next) = read_stars(tokens, at);
    if !is_at(tokens, next, TokenKind::Name) {
        return Err(unexpected(next));
    }
    let name = name_at(alloc, bytes, tokens, next)?;
    let (value, after) = read_value(alloc, bytes, tokens, next + 1, room)?;
    Ok((Var { stars, name, value }, after))
}

/// Reads the value of a variable, if there is one.
pub(crate) fn read_value(
    alloc: Global,
    bytes: &[u8],
    tokens: &[Token],
    at: usize,
    room: usize,
) -> Result<(Option<Expr>, usize), ReadFault>
    requires { at ≤ length tokens.now }
    ensures { Answers value_said (source bytes.now tokens.now) at room result }
{
    if !is_at(tokens, at, TokenKind::Assign) {
        return Ok((None, at));
    }
    let (value, next) = read_expr(alloc, bytes, tokens, at + 1, room)?;
    Ok((Some(value), next))
}

/// Reads as many stars as stand there.
pub(crate) fn read_stars(tokens: &[Token], at: usize) -> (usize, usize)
    requires { at ≤ length tokens.now }
    ensures { (bytes : List ℕ) (room : ℕ) → ReadsAt stars (source bytes tokens.now) at room result.0 result.1 }
{
    let mut count = 0;
    while is_at(tokens, at + count, TokenKind::Star) {
        count += 1;
    }
    (count, at + count)
}
