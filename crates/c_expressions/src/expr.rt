//! Comparisons and sums.
ghost use Rattle.std.specs.Prelude.{◌≡◌, ◌≤◌, ◌+◌, Some, length};
ghost use Rattle.c_tree.specs.Grammar.{expr_said, compared_of, sum_of, added_said};
ghost use Rattle.c_tree.specs.Reading.{Answers};
ghost use Rattle.c_tree.specs.Tokens.{source, kind_at};
ghost use Rattle.c_expressions.specs.Operators.{add_of, compare_of};

use crate::operators::{add_op, compare_op};
use crate::unary::read_unary;
use c_lexer::Token;
use c_tree::{AddOp, Added, CompareOp, Compared, Expr, Nodes, ReadFault, Sum, look, tok_at};
use std::alloc::Global;

/// Reads a sum, or a comparison of two.
#[cycle(expr)]
pub fn read_expr(
    alloc: Global,
    bytes: &[u8],
    tokens: &[Token],
    at: usize,
    room: usize,
) -> Result<(Expr, usize), ReadFault>
    requires { at ≤ length tokens.now }
    ensures { Answers expr_said (source bytes.now tokens.now) at room result }
{
    let (left, next) = read_sum(alloc, bytes, tokens, at, room)?;
    match compare_op(look(tokens, next)) {
        Some(op) => {
            let (right, after) = read_compared(alloc, bytes, tokens, next, room, op)?;
            Ok((
                Expr {
                    left,
                    right: Some(right),
                },
                after,
            ))
        }
        None => Ok((Expr { left, right: None }, next)),
    }
}

/// Reads the right half of a comparison.
#[cycle(expr)]
fn read_compared(
    alloc: Global,
    bytes: &[u8],
    tokens: &[Token],
    at: usize,
    room: usize,
    op: CompareOp,
) -> Result<(Compared, usize), ReadFault>
    requires within { at ≤ length tokens.now }
    requires here { compare_of (kind_at tokens.now at) ≡ Some op }
    ensures { Answers compared_of (source bytes.now tokens.now) at room result }
{
    let tok = tok_at(tokens, at);
    let (sum, next) = read_sum(alloc, bytes, tokens, at + 1, room)?;
    Ok((Compared { op, tok, sum }, next))
}

/// Reads operands up to the first that no operator follows.
#[cycle(expr)]
fn read_sum(
    alloc: Global,
    bytes: &[u8],
    tokens: &[Token],
    at: usize,
    room: usize,
) -> Result<(Sum, usize), ReadFault>
    requires { at ≤ length tokens.now }
    ensures { Answers sum_of (source bytes.now tokens.now) at room result }
{
    let (first, mut next) = read_unary(alloc, bytes, tokens, at, room)?;
    let mut rest = Nodes::new(alloc);
    while let Some(op) = add_op(look(tokens, next)) {
        let (added, after) = read_added(alloc, bytes, tokens, next, room, op)?;
        rest.push(added)?;
        next = after;
    }
    Ok((Sum { first, rest }, next))
}

/// Reads an operator and its right operand.
#[cycle(expr)]
fn read_added(
    alloc: Global,
    bytes: &[u8],
    tokens: &[Token],
    at: usize,
    room: usize,
    op: AddOp,
) -> Result<(Added, usize), ReadFault>
    requires within { at ≤ length tokens.now }
    requires here { add_of (kind_at tokens.now at) ≡ Some op }
    ensures { Answers added_said (source bytes.now tokens.now) at room result }
{
    let tok = tok_at(tokens, at);
    let (unary, next) = read_unary(alloc, bytes, tokens, at + 1, room)?;
    Ok((Added { op, tok, unary }, next))
}
