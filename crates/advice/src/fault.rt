//! Where a report has its first fault, and why none was read.

use std::alloc::{AllocError, AllocFailed};

/// Why bytes are no report.
#[derive(Clone, Copy, Debug, PartialEq, Eq, Drop)]
pub enum ReportFault {
    /// The line that begins at this place, in bytes from the front, isn't as it must be; or the report ends there too early.
    BadReport(u64),
}

/// Why a report's verdicts were not read.
#[derive(Clone, Copy, Debug, PartialEq, Eq, Drop)]
pub enum ReportError {
    /// Memory ran out.
    NoMemory,
    /// The first fault of the bytes.
    Fault(ReportFault),
}

impl From<AllocError> for ReportError {
    ghost use Rattle.std.specs.Prelude.{◌≡◌};
    ghost use Rattle.advice.specs.declared.fault.ReportError.TheVariants.{NoMemory};

    ghost from_gives = { λ _ e. e ≡ NoMemory };

    fn from(_error: AllocError) -> ReportError {
        ReportError::NoMemory
    }
}

impl<T: Drop> From<AllocFailed<T>> for ReportError {
    ghost use Rattle.std.specs.Prelude.{◌≡◌};
    ghost use Rattle.advice.specs.declared.fault.ReportError.TheVariants.{NoMemory};

    ghost from_gives = { λ _ e. e ≡ NoMemory };

    fn from(_error: AllocFailed<T>) -> ReportError {
        ReportError::NoMemory
    }
}
