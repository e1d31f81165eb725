//! Why bytes are no line table, and why a line table was not read.

ghost use Rattle.std.specs.Prelude.{◌≡◌};
ghost use Rattle.line_table.specs.Reading.{fault};

use std::alloc::{AllocError, AllocFailed};

/// What is wrong with a line table.
#[derive(Clone, Copy, Debug, PartialEq, Eq, Drop)]
pub enum FaultKind {
    /// What begins here reaches past the end of its unit, or of the section.
    Truncated,
    /// The length is that of the 64-bit format or a reserved one, or is 0 where an operation has it.
    BadLength,
    /// The version is neither 4 nor 5.
    BadVersion,
    /// An address doesn't have eight bytes, or there are segments.
    BadAddressSize,
    /// The instructions have more than one operation each.
    BadOperations,
    /// The lines that special opcodes can advance by are none.
    BadLineRange,
    /// The first special opcode is 0.
    BadOpcodeBase,
    /// The number has more than ten bytes, or more than 64 bits.
    BadNumber,
    /// The form of a value is unknown, or not one of its kind of content, or an entry has no name.
    BadForm,
    /// No string that is ended begins there in the strings' section.
    BadString,
}

/// The first fault of a line table.
#[derive(Clone, Copy, Debug, PartialEq, Eq, Drop)]
pub struct LineFault {
    /// Where it is, in bytes from the front of `.debug_line`.
    pub place: u64,
    /// What is wrong there.
    pub kind: FaultKind,
}

/// Why a line table was not read.
#[derive(Clone, Copy, Debug, PartialEq, Eq, Drop)]
pub enum LineError {
    /// Memory ran out.
    NoMemory,
    /// The first fault of the line table.
    Fault(LineFault),
}

impl From<LineFault> for LineError {
    ghost use Rattle.std.specs.Prelude.{◌≡◌};
    ghost use Rattle.line_table.specs.declared.fault.LineError.TheVariants.{Fault};

    ghost from_gives = { λ fault e. e ≡ Fault fault };

    fn from(fault: LineFault) -> LineError {
        LineError::Fault(fault)
    }
}

impl From<AllocError> for LineError {
    ghost use Rattle.std.specs.Prelude.{◌≡◌};
    ghost use Rattle.line_table.specs.declared.fault.LineError.TheVariants.{NoMemory};

    ghost from_gives = { λ _ e. e ≡ NoMemory };

    fn from(_error: AllocError) -> LineError {
        LineError::NoMemory
    }
}

impl<T: Drop> From<AllocFailed<T>> for LineError {
    ghost use Rattle.std.specs.Prelude.{◌≡◌};
    ghost use Rattle.line_table.specs.declared.fault.LineError.TheVariants.{NoMemory};

    ghost from_gives = { λ _ e. e ≡ NoMemory };

    fn from(_error: AllocFailed<T>) -> LineError {
        LineError::NoMemory
    }
}

/// The fault of this kind at a place.
pub(crate) fn fault(place: usize, kind: FaultKind) -> LineFault
    ensures { result ≡ fault place kind }
{
    LineFault {
        place: place as u64,
        kind,
    }
}
