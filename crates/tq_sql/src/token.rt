// Tokens, the smallest parts of a statement's text.

/// The kind of a token.
#[derive(Clone, Copy, PartialEq, Eq, Debug)]
pub enum TokenKind {
    /// No token: the end of the text.
    End,
    Validtime,
    Period,
    Select,
    From,
    Where,
    Group,
    By,
    And,
    Or,
    Not,
    Count,
    Sum,
    As,
    Except,
    All,
    /// A word of at most 64 bytes that is not a keyword.
    Name,
    /// A longer word that is not a keyword.
    LongWord,
    Number,
    Text,
    Open,
    Close,
    Comma,
    Dot,
    Star,
    Semicolon,
    Eq,
    Ne,
    Lt,
    Le,
    Gt,
    Ge,
}

/// A slice of the source: the byte at which it begins, its kind, and its bytes.
#[derive(Clone, Copy, Debug)]
pub struct Token<'a> {
    pub at: usize,
    pub kind: TokenKind,
    pub text: &'a [u8],
}
