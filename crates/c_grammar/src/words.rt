//! Tokens as the grammar sees them.

/// What a token is to the grammar.
#[derive(Clone, Copy, Debug, PartialEq, Eq)]
pub enum Terminal {
    Name,
    Number,
    Character,
    String,
    Char,
    Int,
    Long,
    Void,
    Struct,
    Private,
    If,
    Else,
    While,
    For,
    Do,
    Return,
    Break,
    Continue,
    Sizeof,
    Plus,
    Minus,
    Star,
    Slash,
    Percent,
    Ampersand,
    Bar,
    Caret,
    Tilde,
    Exclamation,
    Less,
    Greater,
    Equals,
    Question,
    Colon,
    Semicolon,
    Comma,
    Dot,
    Open,
    Close,
    OpenBracket,
    CloseBracket,
    OpenBrace,
    CloseBrace,
    ShiftLeft,
    ShiftRight,
    LessEqual,
    GreaterEqual,
    EqualEqual,
    NotEqual,
    Both,
    Either,
    Arrow,
    /// A sign that no rule of the grammar uses.
    Unused,
}

/// A token with its terminal, its place, and its value: the number of a name, of a string, a number or
/// a character. That of any other is 0.
#[derive(Clone, Copy, Debug, PartialEq, Eq)]
pub struct Word {
    pub terminal: Terminal,
    pub place: u32,
    pub value: u64,
}
