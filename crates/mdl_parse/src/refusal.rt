//! Why reading stops.

ghost use Rattle.std.specs.Prelude.{◌≡◌};
ghost use Rattle.mdl_parse.specs.declared.refusal.Stop.TheVariants.{NoMemory};

use std::alloc::{AllocError, AllocFailed};

/// Why a word can't stand where it stands.
#[derive(Clone, Copy, Drop)]
pub(crate) enum Refusal {
    /// No configuration goes on with it.
    Unexpected,
    /// It is the `if` of a seventeenth condition of one statement.
    TooDeep,
}

/// Why no part of the grammar was read.
#[derive(Drop)]
pub(crate) enum Stop {
    /// Memory ran out.
    NoMemory,
    /// The word in view, or the end, can't stand here.
    Refused(Refusal),
}

impl From<AllocError> for Stop {
    ghost from_gives = { λ _ e. e ≡ NoMemory };

    fn from(_fault: AllocError) -> Stop {
        Stop::NoMemory
    }
}

impl<T: Drop> From<AllocFailed<T>> for Stop {
    ghost from_gives = { λ _ e. e ≡ NoMemory };

    fn from(_fault: AllocFailed<T>) -> Stop {
        Stop::NoMemory
    }
}
