/// What a token is. A keyword is no name.
#[derive(Clone, Copy, Debug, PartialEq, Eq)]
pub enum TokenKind {
    /// A letter or `_`, and then letters, digits or `_`, of any length.
    Name,
    /// A word that no name may be, in any case.
    Keyword,
    /// A run of digits.
    Number,
    /// A text in single quotes, with `''` for a quote in it.
    Quoted,
    /// One of `( ) , . = <> != < <= > >= + - *`.
    Mark,
}

/// A token: its bytes as they stand in the source, from the byte `start` up to the byte `end`.
#[derive(Clone, Copy, Debug)]
pub struct Token<'a> {
    pub kind: TokenKind,
    pub text: &'a str,
    pub start: u32,
    pub end: u32,
}

/// The byte at which no token begins, or the quote of a text that isn't closed.
#[derive(Clone, Copy, Debug, PartialEq, Eq)]
pub struct SyntaxAt(pub u32);
