//! Tokens, the interface between lexer and grammar. docs/DEVELOPING.md lists what a new keyword or symbol touches.

/// The kind of a token.
#[derive(Clone, Copy, Debug, PartialEq, Eq)]
pub enum Kind {
    /// A word that is not a keyword.
    Name,
    /// A number, with its value.
    Number(u64),
    Int,
    Void,
    Const,
    If,
    Else,
    While,
    Return,
    Print,
    Len,
    Cut,
    At,
    As,
    Region,
    Reducer,
    Sum,
    Max,
    Grain,
    Over,
    Spawn,
    Sync,
    Scope,
    For,
    LeftParen,
    RightParen,
    LeftBrace,
    RightBrace,
    LeftBracket,
    RightBracket,
    Comma,
    Semicolon,
    Assign,
    AddAssign,
    Increment,
    Plus,
    Minus,
    Star,
    Slash,
    Percent,
    Less,
    LessEqual,
    Greater,
    GreaterEqual,
    Equal,
    NotEqual,
    Not,
}

/// A token: its kind, the range of bytes of the text that spells it (`start` up to, not including, `end`), and the
/// line in which it begins, counted from 1.
#[derive(Clone, Copy, Debug, PartialEq, Eq)]
pub struct Token {
    pub kind: Kind,
    pub start: u32,
    pub end: u32,
    pub line: u32,
}
