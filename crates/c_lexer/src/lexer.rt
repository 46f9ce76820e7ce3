//! The tokens of a text.
ghost use Rattle.std.specs.Prelude.{◌≡◌, ◌⊎◌, Ok, Err, MatchResult, OnOk, ◌++◌, ◌∷◌, []};
ghost use Rattle.c_lexer.specs.Tokens.{tokens_of};

use crate::fault::LexFault;
use crate::piece::{Meaning, first_piece};
use crate::place::Place;
use crate::token::Token;
use std::alloc::{AllocError, Global};

fn push(tokens: &mut Vec<Token>, token: Token) -> Result<(), AllocError>
    ensures { OnOk result (tokens.new.items ≡ tokens.old.items ++ token ∷ []) }
{
    tokens.push(token)?;
    Ok(())
}

/// The tokens of a text.
///
/// A text is cut into the longest pieces. Blanks and comments are left out. The first piece that is
/// none of these is refused: `BadByte` where a byte begins no piece, `OpenComment` for a `/*` without
/// its end, and `NameTooLong` for a name of more than `MOST_NAME_BYTES` bytes.
pub fn lex(alloc: Global, bytes: &[u8]) -> Result<Vec<Token>, LexFault>
    ensures { MatchResult result (λ tokens. tokens_of bytes.now ≡ Ok tokens.items) (λ fault. (fault ≡ LexFault.NoMemory) ⊎ (tokens_of bytes.now ≡ Err fault)) }
{
    let mut tokens = Vec::new(alloc);
    let mut place = Place::START;
    while place.at < bytes.len() {
        let piece = first_piece(&bytes[place.at..]);
        let end = place.at + piece.len;
        match piece.meaning {
            Meaning::Skipped => {}
            Meaning::Token(kind) => push(
                &mut tokens,
                Token {
                    kind,
                    start: place.at,
                    end,
                    line: place.line,
                },
            )?,
            Meaning::Refused(kind) => {
                return Err(LexFault::At {
                    line: place.line,
                    column: place.column,
                    kind,
                });
            }
        }
        place = place.behind(&bytes[place.at..end]);
    }
    Ok(tokens)
}
