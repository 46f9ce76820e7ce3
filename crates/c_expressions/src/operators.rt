//! The operators by their tokens.
ghost use Rattle.std.specs.Prelude.{◌≡◌};
ghost use Rattle.c_expressions.specs.Operators.{add_of, compare_of};

use c_lexer::TokenKind;
use c_tree::{AddOp, CompareOp};

/// The operator of a sum, if the token is one.
pub(crate) fn add_op(kind: Option<TokenKind>) -> Option<AddOp>
    ensures { result ≡ add_of kind }
{
    match kind {
        Some(TokenKind::Plus) => Some(AddOp::Plus),
        Some(TokenKind::Minus) => Some(AddOp::Minus),
        _ => None,
    }
}

/// The operator of a comparison, if the token is one.
pub(crate) fn compare_op(kind: Option<TokenKind>) -> Option<CompareOp>
    ensures { result ≡ compare_of kind }
{
    match kind {
        Some(TokenKind::Equal) => Some(CompareOp::Equal),
        Some(TokenKind::NotEqual) => Some(CompareOp::NotEqual),
        Some(TokenKind::Less) => Some(CompareOp::Less),
        Some(TokenKind::Greater) => Some(CompareOp::Greater),
        Some(TokenKind::AtMost) => Some(CompareOp::AtMost),
        Some(TokenKind::AtLeast) => Some(CompareOp::AtLeast),
        _ => None,
    }
}
