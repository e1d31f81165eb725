//! What is wrong with a text.

ghost use Rattle.std.specs.Prelude.{◌≡◌};
ghost use Rattle.mdl_parse.specs.Meaning.{refusal_kind, lex_kind};
ghost use Rattle.mdl_parse.specs.Ends.{lex_fault, end_fault};
ghost use Rattle.mdl_parse.specs.Lexing.{ending_of};

use crate::refusal::Refusal;
use pn_text::{LexFault, Place};
use std::alloc::AllocError;

/// What kind of fault it is.
#[derive(Clone, Copy, Debug, PartialEq, Eq, Drop)]
pub enum SyntaxKind {
    /// No word begins with the byte, or none that goes on as the bytes after it do.
    BadByte,
    /// The line or the text ends before the second quote of a string.
    OpenString,
    /// A number is above 2,147,483,647.
    BigNumber,
    /// The word can't stand here, or the text ends too early.
    Unexpected,
    /// It is the `if` of a seventeenth condition of one statement.
    TooDeep,
}

/// The first fault of a text that is no configuration.
#[derive(Clone, Copy, Debug, PartialEq, Eq, Drop)]
pub struct ParseFault {
    /// The line of its first byte, from 1.
    pub line: u32,
    /// The column of its first byte, in bytes from 1.
    pub col: u32,
    /// What it is.
    pub kind: SyntaxKind,
}

/// Why no configuration was read.
#[derive(Clone, Copy, Debug, PartialEq, Eq, Drop)]
pub enum ParseError {
    /// Memory ran out.
    NoMemory,
    /// The first fault of the text.
    Fault(ParseFault),
}

impl From<AllocError> for ParseError {
    ghost use Rattle.std.specs.Prelude.{◌≡◌};
    ghost use Rattle.mdl_parse.specs.declared.fault.ParseError.TheVariants.{NoMemory};

    ghost from_gives = { λ _ e. e ≡ NoMemory };

    fn from(_error: AllocError) -> ParseError {
        ParseError::NoMemory
    }
}

/// The kind of the fault of a word.
pub(crate) fn refusal_kind(why: Refusal) -> SyntaxKind
    ensures { result ≡ refusal_kind why }
{
    match why {
        Refusal::Unexpected => SyntaxKind::Unexpected,
        Refusal::TooDeep => SyntaxKind::TooDeep,
    }
}

/// The fault of bytes that are no word.
pub(crate) fn lex_fault(fault: LexFault) -> ParseFault
    ensures { result ≡ lex_fault fault }
{
    let (place, kind): (Place, SyntaxKind) = match fault {
        LexFault::BadByte(place) => (place, SyntaxKind::BadByte),
        LexFault::OpenString(place) => (place, SyntaxKind::OpenString),
        LexFault::BigNumber(place) => (place, SyntaxKind::BigNumber),
    };
    ParseFault {
        line: place.line,
        col: place.col,
        kind,
    }
}

/// The fault where no word is left: what stands after them is none, or the text ends too early.
pub(crate) fn end_fault(ending: Result<Place, LexFault>, why: Refusal) -> ParseFault
    ensures { result ≡ end_fault (ending_of ending) why }
{
    match ending {
        Ok(last) => ParseFault {
            line: last.line,
            col: last.col,
            kind: refusal_kind(why),
        },
        Err(fault) => lex_fault(fault),
    }
}
