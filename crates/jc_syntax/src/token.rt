//! Tokens and their kinds, as the lexer returns them and the parser reads them.

/// The kind of a token.
#[derive(Clone, Copy, PartialEq, Eq)]
pub enum TokenKind {
    /// A letter or `_`, then letters, digits and `_`.
    Name,
    /// A JSON number.
    Number,
    /// A JSON string literal, with its quotes.
    Str,
    /// `.`
    Dot,
    /// `(`
    ParenL,
    /// `)`
    ParenR,
    /// `{`
    BraceL,
    /// `}`
    BraceR,
    /// `[`
    BracketL,
    /// `]`
    BracketR,
    /// `,`
    Comma,
    /// `;`
    Semi,
    /// `:=`
    Assign,
    /// `=`
    Equals,
}

/// A token: the bytes from the offset `start` up to but not including `stop`. A text has at most 8,388,608 bytes, so
/// offsets fit into 32 bits: a long text has half a million tokens, and each takes 12 bytes.
#[derive(Clone, Copy)]
pub struct Token {
    pub kind: TokenKind,
    pub start: u32,
    pub stop: u32,
}
