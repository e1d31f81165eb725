//! Why bytes are no log, and why a log was not read.

use std::alloc::{AllocError, AllocFailed};

/// Why bytes are no log. Places are in bytes from the front.
#[derive(Clone, Copy, Debug, PartialEq, Eq, Drop)]
pub enum LogFault {
    /// They don't begin as a log of either version.
    BadHead,
    /// They end here, before the head does or the entries that it counts.
    Short(u64),
    /// The number at this place is outside its range.
    BadField(u64),
    /// The log ends here, and there are more bytes.
    Trailing(u64),
}

/// Why a log was not read.
#[derive(Clone, Copy, Debug, PartialEq, Eq, Drop)]
pub enum LogError {
    /// Memory ran out.
    NoMemory,
    /// The first fault of the bytes.
    Fault(LogFault),
}

impl From<LogFault> for LogError {
    ghost use Rattle.std.specs.Prelude.{◌≡◌};
    ghost use Rattle.quanta_log.specs.declared.fault.LogError.TheVariants.{Fault};

    ghost from_gives = { λ fault e. e ≡ Fault fault };

    fn from(fault: LogFault) -> LogError {
        LogError::Fault(fault)
    }
}

impl From<AllocError> for LogError {
    ghost use Rattle.std.specs.Prelude.{◌≡◌};
    ghost use Rattle.quanta_log.specs.declared.fault.LogError.TheVariants.{NoMemory};

    ghost from_gives = { λ _ e. e ≡ NoMemory };

    fn from(_error: AllocError) -> LogError {
        LogError::NoMemory
    }
}

impl<T: Drop> From<AllocFailed<T>> for LogError {
    ghost use Rattle.std.specs.Prelude.{◌≡◌};
    ghost use Rattle.quanta_log.specs.declared.fault.LogError.TheVariants.{NoMemory};

    ghost from_gives = { λ _ e. e ≡ NoMemory };

    fn from(_error: AllocFailed<T>) -> LogError {
        LogError::NoMemory
    }
}
