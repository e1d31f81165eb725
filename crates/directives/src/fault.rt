//! What is wrong with directives.

ghost use Rattle.std.specs.Prelude.{◌≡◌};
ghost use Rattle.directives.specs.Ahead.{lex_fault};

use pn_text::{LexFault, Place};
use std::alloc::{AllocError, AllocFailed};

/// What kind of fault it is.
#[derive(Clone, Copy, PartialEq, Eq, Drop)]
pub enum DirectiveKind {
    /// No word begins with the byte, or none that goes on as the bytes after it do.
    BadByte,
    /// The line or the text ends before the second quote of a string.
    OpenString,
    /// A number is above 2,147,483,647.
    BigNumber,
    /// The word can't stand here, or the text ends too early.
    Unexpected,
    /// No hypothesis of this name stands any more.
    UnknownName,
    /// The hypothesis isn't refined along an axis of this name.
    WrongKind,
}

/// The first fault of directives.
#[derive(Clone, Copy, PartialEq, Eq, Drop)]
pub struct DirectiveFault {
    /// The line of its first byte, or of its directive, from 1.
    pub line: u32,
    /// The column of its first byte, in bytes from 1, and 0 where a directive names what doesn't stand.
    pub col: u32,
    /// What it is.
    pub kind: DirectiveKind,
}

/// Why directives can't be used.
#[derive(Clone, Copy, PartialEq, Eq, Drop)]
pub enum DirectiveError {
    /// Memory ran out.
    NoMemory,
    /// The first fault.
    Fault(DirectiveFault),
}

impl From<AllocError> for DirectiveError {
    ghost use Rattle.std.specs.Prelude.{◌≡◌};
    ghost use Rattle.directives.specs.declared.fault.DirectiveError.TheVariants.{NoMemory};

    ghost from_gives = { λ _ e. e ≡ NoMemory };

    fn from(_error: AllocError) -> DirectiveError {
        DirectiveError::NoMemory
    }
}

impl<T: Drop> From<AllocFailed<T>> for DirectiveError {
    ghost use Rattle.std.specs.Prelude.{◌≡◌};
    ghost use Rattle.directives.specs.declared.fault.DirectiveError.TheVariants.{NoMemory};

    ghost from_gives = { λ _ e. e ≡ NoMemory };

    fn from(_error: AllocFailed<T>) -> DirectiveError {
        DirectiveError::NoMemory
    }
}

/// The fault of bytes that are no word.
pub(crate) fn lex_fault(fault: LexFault) -> DirectiveFault
    ensures { result ≡ lex_fault fault }
{
    let (place, kind): (Place, DirectiveKind) = match fault {
        LexFault::BadByte(place) => (place, DirectiveKind::BadByte),
        LexFault::OpenString(place) => (place, DirectiveKind::OpenString),
        LexFault::BigNumber(place) => (place, DirectiveKind::BigNumber),
    };
    DirectiveFault {
        line: place.line,
        col: place.col,
        kind,
    }
}
