//! The bytes of which pieces are made, and how far they run.
ghost use Rattle.std.specs.Prelude.{◌≡◌, ◌≤◌, ◌==◌, not, length, IfSome};
ghost use Rattle.std.specs.List.{prefix_len};
ghost use Rattle.c_lexer.specs.Pieces.{is_blank as is_blank_byte, is_digit as is_digit_byte, is_letter as is_letter_byte, is_word_byte as is_byte_of_word, begins_with as text_begins_with, past_close};

/// Whether the byte is a space, a tab, a carriage return or a line feed.
pub(crate) fn is_blank(byte: u8) -> bool
    ensures { result ≡ is_blank_byte byte }
{
    byte == b' ' || byte == b'\t' || byte == b'\r' || byte == b'\n'
}

/// Whether the byte is an ASCII digit.
pub(crate) fn is_digit(byte: u8) -> bool
    ensures { result ≡ is_digit_byte byte }
{
    b'0' <= byte && byte <= b'9'
}

/// Whether the byte is an ASCII letter or `_`.
pub(crate) fn is_letter(byte: u8) -> bool
    ensures { result ≡ is_letter_byte byte }
{
    b'a' <= byte && byte <= b'z' || b'A' <= byte && byte <= b'Z' || byte == b'_'
}

fn is_word_byte(byte: u8) -> bool
    ensures { result ≡ is_byte_of_word byte }
{
    is_letter(byte) || is_digit(byte)
}

/// How many bytes of a word the text begins with.
pub(crate) fn word_len(text: &[u8]) -> usize
    ensures run { result ≡ prefix_len is_byte_of_word text.now }
    ensures within { result ≤ length text.now }
{
    let mut len = 0;
    while len < text.len() && is_word_byte(text[len]) {
        len += 1;
    }
    len
}

/// How many digits the text begins with.
pub(crate) fn number_len(text: &[u8]) -> usize
    ensures run { result ≡ prefix_len is_digit_byte text.now }
    ensures within { result ≤ length text.now }
{
    let mut len = 0;
    while len < text.len() && is_digit(text[len]) {
        len += 1;
    }
    len
}

/// How many bytes stand before the first line feed, or in all where there is none.
pub(crate) fn line_len(text: &[u8]) -> usize
    ensures run { result ≡ prefix_len (λ b. not (b == 10)) text.now }
    ensures within { result ≤ length text.now }
{
    let mut len = 0;
    while len < text.len() && text[len] != b'\n' {
        len += 1;
    }
    len
}

/// Whether the text begins with the byte.
pub(crate) fn begins_with(byte: u8, text: &[u8]) -> bool
    ensures { result ≡ text_begins_with byte text.now }
{
    match text {
        [] => false,
        [first, ..] => *first == byte,
    }
}

/// How many bytes there are up to and with the first `*/`.
pub(crate) fn close_len(text: &[u8]) -> Option<usize>
    ensures close { result ≡ past_close text.now }
    ensures within { IfSome result (λ n. n ≤ length text.now) }
{
    let mut rest = text;
    let mut seen = 0;
    while let [first, behind @ ..] = rest {
        if *first == b'*' && begins_with(b'/', behind) {
            return Some(seen + 2);
        }
        seen += 1;
        rest = behind;
    }
    None
}
