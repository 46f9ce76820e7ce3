//! The lines of refusals.
ghost use Rattle.std.specs.Prelude.{◌≡◌, ◌≤◌, ◌<◌, length};
ghost use Rattle.source_graph.specs.Sources.{feeds, line_at as the_line_at, token_line as the_token_line};

use c_lexer::Token;

/// How many line feeds there are.
fn feeds_in(text: &[u8]) -> u64
    ensures feeds { result ≡ feeds text.now }
    ensures few { result ≤ length text.now }
{
    let mut count = 0;
    for byte in text {
        if *byte == b'\n' {
            count += 1;
        }
    }
    count
}

/// The line that holds the byte at a place, counted from 1.
pub(crate) fn line_at(text: &[u8], place: usize) -> u64
    requires { place < length text.now }
    ensures { result ≡ the_line_at place text.now }
{
    1 + feeds_in(&text[..place])
}

/// The line of a token; of the end behind the last one that of the last, and 1 where there is none.
pub(crate) fn token_line(tokens: &[Token], token: usize) -> u64
    ensures { result ≡ the_token_line tokens.now token }
{
    match tokens.get(token.min(tokens.len().saturating_sub(1))) {
        Some(token) => token.line,
        None => 1,
    }
}
