//! Tokens of the accepted language, each with the line on which it begins.
//!
//! Blanks and comments are no tokens. A semicolon that a newline stands for is one.

use golf_base::List;

/// A token and the line on which it begins, from 1.
#[derive(Debug, Drop)]
pub struct Token {
    pub kind: TokenKind,
    pub line: u32,
}

/// The kind of a token, with its content.
#[derive(Debug, Drop)]
pub enum TokenKind {
    Name(List<u8>),
    /// The digits of an integer literal. It may be too large for an `int`.
    Integer(List<u8>),
    /// The bytes for which a string literal stands.
    Text(List<u8>),
    Keyword(Keyword),
    Punctuation(Punctuation),
}

/// A keyword of Go. No grammar rule of the accepted language has the last five.
#[derive(Clone, Copy, Debug, PartialEq, Eq)]
pub enum Keyword {
    Break,
    Case,
    Chan,
    Const,
    Continue,
    Default,
    Defer,
    Else,
    For,
    Func,
    Go,
    If,
    Import,
    Package,
    Range,
    Return,
    Select,
    Struct,
    Type,
    Var,
    Fallthrough,
    Goto,
    Interface,
    Map,
    Switch,
}

/// An operator or a punctuation mark.
#[derive(Clone, Copy, Debug, PartialEq, Eq)]
pub enum Punctuation {
    Plus,
    Minus,
    Star,
    Slash,
    Percent,
    Equal,
    NotEqual,
    Less,
    AtMost,
    Greater,
    AtLeast,
    And,
    Or,
    Not,
    Arrow,
    Ampersand,
    OpenParen,
    CloseParen,
    OpenBracket,
    CloseBracket,
    OpenBrace,
    CloseBrace,
    Comma,
    Semicolon,
    Colon,
    Dot,
    Assign,
    Define,
    PlusAssign,
    MinusAssign,
    StarAssign,
    SlashAssign,
    PercentAssign,
    Increment,
    Decrement,
}
