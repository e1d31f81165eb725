//! A fault, or out of memory.

ghost use Rattle.std.specs.Prelude.{◌≡◌};
ghost use Rattle.refusals.specs.Logs.{log_fault_at};

use crate::fault::Fault;
use crate::log::LogCause;
use pn_types::NoMemory;
use quanta_log::LogFault;

/// Why a step was refused.
#[derive(Drop)]
pub enum Refusal {
    /// Memory ran out.
    NoMemory,
    /// The first fault.
    Fault(Fault),
}

impl From<NoMemory> for Refusal {
    ghost use Rattle.refusals.specs.declared.refusal.Refusal.TheVariants.{NoMemory as no_memory};
    ghost use Rattle.std.specs.Prelude.{◌≡◌};

    ghost from_gives = { λ _ e. e ≡ no_memory };

    fn from(_: NoMemory) -> Self {
        Refusal::NoMemory
    }
}

/// Returns the refusal of bytes that are no log.
pub fn bad_log(fault: LogFault) -> Refusal
    ensures { result ≡ Refusal.Fault (log_fault_at fault) }
{
    let (place, cause) = match fault {
        LogFault::BadHead => (0, LogCause::BadHead),
        LogFault::Short(place) => (place, LogCause::Short),
        LogFault::BadField(place) => (place, LogCause::BadField),
        LogFault::Trailing(place) => (place, LogCause::Trailing),
    };
    Refusal::Fault(Fault::BadLog(place, cause))
}
