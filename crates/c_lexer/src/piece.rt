//! The pieces of a text.
ghost use Rattle.std.specs.Prelude.{◌≡◌, ◌+◌, ◌<◌, ◌^◌, length};
ghost use Rattle.c_lexer.specs.Pieces.{word_kind as kind_of, word_piece as piece_of_word, slash_piece as piece_of_slash, mark_alone as alone, mark_piece as piece_of_mark, first_piece as first_piece_of};

use crate::bytes::{close_len, is_blank, is_digit, is_letter, line_len, number_len, word_len};
use crate::token::TokenKind;
use io_edge::InputKind;

/// How many bytes a name has at most.
pub const MOST_NAME_BYTES: usize = 255;

/// What a piece of a text is.
#[derive(Clone, Copy, PartialEq, Eq, Debug)]
pub(crate) enum Meaning {
    /// A blank or a comment.
    Skipped,
    /// A token.
    Token(TokenKind),
    /// None of these.
    Refused(InputKind),
}

/// A piece of a text: what it is, and how many bytes it has.
#[derive(Clone, Copy, PartialEq, Eq, Debug)]
pub(crate) struct Piece {
    pub(crate) meaning: Meaning,
    pub(crate) len: usize,
}

fn skipped(len: usize) -> Piece
    ensures { result ≡ record { meaning = Meaning.Skipped; len = len } }
{
    Piece {
        meaning: Meaning::Skipped,
        len,
    }
}

fn token(kind: TokenKind, len: usize) -> Piece
    ensures { result ≡ record { meaning = Meaning.Token kind; len = len } }
{
    Piece {
        meaning: Meaning::Token(kind),
        len,
    }
}

fn refused(kind: InputKind, len: usize) -> Piece
    ensures { result ≡ record { meaning = Meaning.Refused kind; len = len } }
{
    Piece {
        meaning: Meaning::Refused(kind),
        len,
    }
}

fn word_kind(word: &[u8]) -> TokenKind
    ensures { result ≡ kind_of word.now }
{
    match word {
        b"int" => TokenKind::Int,
        b"char" => TokenKind::Char,
        b"void" => TokenKind::Void,
        b"if" => TokenKind::If,
        b"else" => TokenKind::Else,
        b"while" => TokenKind::While,
        b"return" => TokenKind::Return,
        b"NULL" => TokenKind::Null,
        b"malloc" => TokenKind::Malloc,
        _ => TokenKind::Name,
    }
}

fn word_piece(text: &[u8]) -> Piece
    ensures { result ≡ piece_of_word text.now }
{
    let len = word_len(text);
    if len > MOST_NAME_BYTES {
        return refused(InputKind::NameTooLong, len);
    }
    token(word_kind(&text[..len]), len)
}

/// A comment, or a slash that begins none; the text is what stands behind the slash.
fn slash_piece(behind: &[u8]) -> Piece
    requires { length behind.now + 2 < 2 ^ 64 }
    ensures { result ≡ piece_of_slash behind.now }
{
    match behind {
        [b'*', comment @ ..] => match close_len(comment) {
            Some(len) => skipped(len + 2),
            None => refused(InputKind::OpenComment, 2),
        },
        [b'/', ..] => skipped(line_len(behind) + 1),
        _ => refused(InputKind::BadByte, 1),
    }
}

fn mark_alone(mark: u8) -> Piece
    ensures { result ≡ alone mark }
{
    match mark {
        b'{' => token(TokenKind::OpenBrace, 1),
        b'}' => token(TokenKind::CloseBrace, 1),
        b'(' => token(TokenKind::OpenParen, 1),
        b')' => token(TokenKind::CloseParen, 1),
        b';' => token(TokenKind::Semicolon, 1),
        b',' => token(TokenKind::Comma, 1),
        b'=' => token(TokenKind::Assign, 1),
        b'*' => token(TokenKind::Star, 1),
        b'&' => token(TokenKind::And, 1),
        b'+' => token(TokenKind::Plus, 1),
        b'-' => token(TokenKind::Minus, 1),
        b'<' => token(TokenKind::Less, 1),
        b'>' => token(TokenKind::Greater, 1),
        _ => refused(InputKind::BadByte, 1),
    }
}

fn mark_piece(mark: u8, behind: &[u8]) -> Piece
    ensures { result ≡ piece_of_mark mark behind.now }
{
    if let [b'=', ..] = behind {
        match mark {
            b'=' => return token(TokenKind::Equal, 2),
            b'!' => return token(TokenKind::NotEqual, 2),
            b'<' => return token(TokenKind::AtMost, 2),
            b'>' => return token(TokenKind::AtLeast, 2),
            _ => {}
        }
    }
    mark_alone(mark)
}

/// The first piece of a text: a blank, a comment or a token, as long as it can be, or none of these.
pub(crate) fn first_piece(text: &[u8]) -> Piece
    requires { 0 < length text.now }
    ensures { result ≡ first_piece_of text.now }
{
    let first = text[0];
    if is_blank(first) {
        return skipped(1);
    }
    if is_letter(first) {
        return word_piece(text);
    }
    if is_digit(first) {
        return token(TokenKind::Number, number_len(text));
    }
    if first == b'/' {
        return slash_piece(&text[1..]);
    }
    mark_piece(first, &text[1..])
}
