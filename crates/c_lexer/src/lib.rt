//! The tokens of a C text.
#![tactic(auto)]

mod bytes;
mod fault;
mod laws;
mod lexer;
mod piece;
mod place;
mod token;

pub use fault::LexFault;
pub use laws::tokens_stand_in_their_text;
pub use lexer::lex;
pub use piece::MOST_NAME_BYTES;
pub use token::{Token, TokenKind};
