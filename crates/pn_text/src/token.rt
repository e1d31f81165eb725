//! The tokens of the configuration language.

use crate::place::Place;

/// A sign.
#[derive(Clone, Copy, Debug, PartialEq, Eq, Drop)]
pub enum Sign {
    /// `{`
    OpenBrace,
    /// `}`
    CloseBrace,
    /// `[`
    OpenBracket,
    /// `]`
    CloseBracket,
    /// `(`
    OpenParen,
    /// `)`
    CloseParen,
    /// `(*`
    OpenCode,
    /// `*)`
    CloseCode,
    /// `;`
    Semicolon,
    /// `,`
    Comma,
    /// `++`
    PlusPlus,
    /// `--`
    MinusMinus,
    /// `=`
    Assign,
    /// `==`
    Equal,
    /// `!=`
    NotEqual,
    /// `<`
    Less,
    /// `<=`
    LessEqual,
    /// `>`
    Greater,
    /// `>=`
    GreaterEqual,
}

/// What a token is.
#[derive(Clone, Copy, Debug, PartialEq, Eq, Drop)]
pub enum TokenKind {
    /// A letter or `_`, and then letters, digits, `_` and `.`.
    Name,
    /// Digits, with the number that they spell, at most 2,147,483,647.
    Number(u32),
    /// A text in double quotes, without a quote or an LF between them.
    Quoted,
    /// A `/` and a letter, and all bytes up to white space, `;` or `{`.
    Focus,
    /// `$focus`
    FocusWord,
    /// `$all`
    AllWord,
    /// `$metric`
    MetricWord,
    /// `$value`
    ValueWord,
    /// `$arg`
    ArgWord,
    /// One of the signs.
    Sign(Sign),
}

/// A token of a text: the bytes from `from` up to `to`, which is after its last byte.
#[derive(Clone, Copy, Debug, PartialEq, Eq, Drop)]
pub struct Token {
    /// What it is.
    pub kind: TokenKind,
    /// Where its first byte stands, counted from 0.
    pub from: usize,
    /// Where its last byte ends.
    pub to: usize,
    /// The line of its first byte, from 1.
    pub line: u32,
    /// The column of its first byte, in bytes from 1.
    pub col: u32,
}

/// Why a text has no further token.
#[derive(Clone, Copy, Debug, PartialEq, Eq, Drop)]
pub enum LexFault {
    /// No token begins with this byte, or none that goes on as the bytes after it do.
    BadByte(Place),
    /// An LF or the text's end comes before the second quote of a string. This is the place of its first.
    OpenString(Place),
    /// A number is above 2,147,483,647. This is the place of its first digit.
    BigNumber(Place),
}
