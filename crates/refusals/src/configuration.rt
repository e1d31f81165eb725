//! The faults of configurations and of directives.

ghost use Rattle.std.specs.Prelude.{◌≡◌};
ghost use Rattle.refusals.specs.Kinds.{kind_text, syntax_kind, check_kind, directive_kind};

use directives::DirectiveKind;
use mdl_check::CheckKind;
use mdl_parse::SyntaxKind;

/// What is wrong with a configuration or with directives.
#[derive(Clone, Copy, PartialEq, Eq, Drop)]
pub enum ConfKind {
    /// A byte with which no word begins or goes on.
    BadByte,
    /// A string without its second quote.
    OpenString,
    /// A number above 2,147,483,647.
    BigNumber,
    /// A word that can't stand where it stands, or the end where more has to come.
    Unexpected,
    /// The seventeenth nested `if`.
    TooDeep,
    /// More than 1,048,576 bytes.
    TooLong,
    /// A name that the configuration doesn't have, or a variable that isn't the item's own.
    UnknownName,
    /// A name or a demand that an item before it has already.
    TwiceNamed,
    /// What is named can't be used so, or a number is out of its range.
    WrongKind,
    /// A hypothesis that is its own ancestor.
    CyclicParent,
    /// A focus that selects nothing.
    BadFocus,
}

impl ConfKind {
    /// Returns the kind as the line of its fault says it.
    pub fn text(self) -> &'static [u8]
        ensures { result.now ≡ kind_text self }
    {
        match self {
            ConfKind::BadByte => b"bad byte",
            ConfKind::OpenString => b"open string",
            ConfKind::BigNumber => b"number too large",
            ConfKind::Unexpected => b"unexpected",
            ConfKind::TooDeep => b"nesting too deep",
            ConfKind::TooLong => b"too long",
            ConfKind::UnknownName => b"unknown name",
            ConfKind::TwiceNamed => b"named twice",
            ConfKind::WrongKind => b"wrong kind",
            ConfKind::CyclicParent => b"cyclic parent",
            ConfKind::BadFocus => b"bad focus",
        }
    }
}

/// A fault of a configuration or of directives, and where it stands.
#[derive(Clone, Copy, PartialEq, Eq, Drop)]
pub struct ConfFault {
    /// The line, from 1, or 0 for the whole text.
    pub line: u32,
    /// The column in bytes, from 1, or 0 where none is told.
    pub col: u32,
    /// What is wrong.
    pub kind: ConfKind,
}

/// Returns a fault of form.
pub fn syntax_kind(kind: SyntaxKind) -> ConfKind
    ensures { result ≡ syntax_kind kind }
{
    match kind {
        SyntaxKind::BadByte => ConfKind::BadByte,
        SyntaxKind::OpenString => ConfKind::OpenString,
        SyntaxKind::BigNumber => ConfKind::BigNumber,
        SyntaxKind::Unexpected => ConfKind::Unexpected,
        SyntaxKind::TooDeep => ConfKind::TooDeep,
    }
}

/// Returns a fault that the check finds.
pub fn check_kind(kind: CheckKind) -> ConfKind
    ensures { result ≡ check_kind kind }
{
    match kind {
        CheckKind::UnknownName => ConfKind::UnknownName,
        CheckKind::TwiceNamed => ConfKind::TwiceNamed,
        CheckKind::WrongKind => ConfKind::WrongKind,
        CheckKind::CyclicParent => ConfKind::CyclicParent,
        CheckKind::BadFocus => ConfKind::BadFocus,
    }
}

/// Returns a fault of directives.
pub fn directive_kind(kind: DirectiveKind) -> ConfKind
    ensures { result ≡ directive_kind kind }
{
    match kind {
        DirectiveKind::BadByte => ConfKind::BadByte,
        DirectiveKind::OpenString => ConfKind::OpenString,
        DirectiveKind::BigNumber => ConfKind::BigNumber,
        DirectiveKind::Unexpected => ConfKind::Unexpected,
        DirectiveKind::UnknownName => ConfKind::UnknownName,
        DirectiveKind::WrongKind => ConfKind::WrongKind,
    }
}
