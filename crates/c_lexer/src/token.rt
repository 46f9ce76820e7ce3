//! Tokens and their kinds.

/// What a token is: a name, a number, one of the keywords or one of the marks.
#[derive(Clone, Copy, PartialEq, Eq, Debug)]
pub enum TokenKind {
    /// A letter or `_`, and then letters, digits and `_`, that is no keyword.
    Name,
    /// One or more digits.
    Number,
    /// `int`
    Int,
    /// `char`
    Char,
    /// `void`
    Void,
    /// `if`
    If,
    /// `else`
    Else,
    /// `while`
    While,
    /// `return`
    Return,
    /// `NULL`
    Null,
    /// `malloc`
    Malloc,
    /// `{`
    OpenBrace,
    /// `}`
    CloseBrace,
    /// `(`
    OpenParen,
    /// `)`
    CloseParen,
    /// `;`
    Semicolon,
    /// `,`
    Comma,
    /// `=`
    Assign,
    /// `*`
    Star,
    /// `&`
    And,
    /// `+`
    Plus,
    /// `-`
    Minus,
    /// `<`
    Less,
    /// `>`
    Greater,
    /// `==`
    Equal,
    /// `!=`
    NotEqual,
    /// `<=`
    AtMost,
    /// `>=`
    AtLeast,
}

/// A token of a text.
#[derive(Clone, Copy, PartialEq, Eq, Debug)]
pub struct Token {
    /// What it is.
    pub kind: TokenKind,
    /// The place of its first byte in the text, counted from 0.
    pub start: usize,
    /// The place behind its last byte.
    pub end: usize,
    /// The line of its first byte, counted from 1.
    pub line: u64,
}
