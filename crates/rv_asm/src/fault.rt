//! Why a text is no program.

use std::alloc::AllocError;

/// Why a text is no program. Lines count from 1.
#[derive(Clone, Copy, PartialEq, Eq, Drop)]
pub enum AsmFault {
    /// The line has no form, it doesn't stand where it is, or the procedure that it begins is open at the end.
    BadLine(u32),
    /// A number of the line doesn't fit its place.
    BadNumber(u32),
    /// The line names x31 in the text.
    UsesScratch(u32),
    /// The line defines a name that is defined already.
    TwiceNamed(u32),
    /// The line leads to a name that no line defines.
    UnknownName(u32),
    /// The line leads to a name too far away.
    OutOfReach(u32),
    /// There is no text.
    NoText,
    /// The text has this many bytes, too many.
    TextTooLong(u64),
    /// The data has this many bytes, too many.
    DataTooLong(u128),
}

/// Why a text was not assembled.
#[derive(Clone, Copy, PartialEq, Eq, Drop)]
pub enum AsmError {
    /// Memory ran out.
    NoMemory,
    /// The first fault of the text.
    Fault(AsmFault),
}

impl From<AsmFault> for AsmError {
    ghost use Rattle.std.specs.Prelude.{◌≡◌};
    ghost use Rattle.rv_asm.specs.declared.fault.AsmError.TheVariants.{Fault};

    ghost from_gives = { λ fault error. error ≡ Fault fault };

    fn from(fault: AsmFault) -> AsmError {
        AsmError::Fault(fault)
    }
}

impl From<AllocError> for AsmError {
    ghost use Rattle.std.specs.Prelude.{◌≡◌};
    ghost use Rattle.rv_asm.specs.declared.fault.AsmError.TheVariants.{NoMemory};

    ghost from_gives = { λ _ error. error ≡ NoMemory };

    fn from(_error: AllocError) -> AsmError {
        AsmError::NoMemory
    }
}
