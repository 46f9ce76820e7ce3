//! Functions and global declarations.
ghost use Rattle.std.specs.Prelude.{◌≡◌, ◌≤◌, ◌+◌, Some, length};
ghost use Rattle.c_lexer.specs.declared.token.TokenKind.TheVariants as k;
ghost use Rattle.c_tree.specs.Tokens.{source, kind_at};
ghost use Rattle.c_parser.specs.Flagged.{AnswersFlagged};
ghost use Rattle.c_parser.specs.Program.{written_said};
ghost use Rattle.c_parser.specs.Behind.{function_behind};

use crate::declaration::{read_more_vars, read_value};
use crate::params::{read_param, read_params};
use crate::stmt::read_stmts;
use c_lexer::{Token, TokenKind};
use c_tree::{Declaration, Function, Item, Nodes, Param, ReadFault, Stmt, Var, is_at, unexpected};
use std::alloc::Global;

/// Reads a function, or a declaration of global variables.
///
/// Both begin as a parameter does: with a base type, stars and a name.
pub(crate) fn read_item(
    alloc: Global,
    bytes: &[u8],
    tokens: &[Token],
    at: usize,
    room: usize,
) -> Result<(Item, usize), ReadFault>
    requires within { at ≤ length tokens.now }
    requires block { 1 ≤ room }
    ensures { AnswersFlagged written_said (source bytes.now tokens.now) at room result }
{
    let (head, next) = read_param(alloc, bytes, tokens, at)?;
    let Param { base, stars, name } = head;
    if is_at(tokens, next, TokenKind::OpenParen) {
        let (rest, after) = read_function(alloc, bytes, tokens, next, room)?;
        let FunctionRest { params, block } = rest;
        return Ok((
            Item::Function(Function {
                base,
                stars,
                name,
                params,
                block,
            }),
            after,
        ));
    }
    let (value, middle) = read_value(alloc, bytes, tokens, next, room)?;
    let (more, after) = read_more_vars(alloc, bytes, tokens, middle, room)?;
    let mut vars = Nodes::new(alloc);
    vars.push(Var { stars, name, value })?;
    vars.append(more)?;
    Ok((Item::Declared(Declaration { base, vars }), after))
}

/// What stands behind the name of a function.
#[derive(Drop)]
pub(crate) struct FunctionRest {
    pub params: Nodes<Param>,
    pub block: Nodes<Stmt>,
}

/// Reads the parameters of a function in their brackets, and its block, which opens a level.
fn read_function(
    alloc: Global,
    bytes: &[u8],
    tokens: &[Token],
    at: usize,
    room: usize,
) -> Result<(FunctionRest, usize), ReadFault>
    requires within { at ≤ length tokens.now }
    requires block { 1 ≤ room }
    requires here { kind_at tokens.now at ≡ Some k.OpenParen }
    ensures { AnswersFlagged function_behind (source bytes.now tokens.now) at room result }
{
    let (params, next) = read_params(alloc, bytes, tokens, at + 1)?;
    if !is_at(tokens, next, TokenKind::OpenBrace) {
        return Err(unexpected(next));
    }
    let (block, after) = read_stmts(alloc, bytes, tokens, next + 1, room - 1)?;
    Ok((FunctionRest { params, block }, after))
}
