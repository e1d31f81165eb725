//! Why a session doesn't begin.

use pn_types::{NoMemory, PickCause, Text};

/// Why a session doesn't begin.
#[derive(Drop)]
pub enum StartFault {
    /// Out of memory.
    NoMemory,
    /// A wish of the opening is refused, the first such: the name of its metric, its focus, and why.
    BadPick(Text, Text, PickCause),
}

impl From<NoMemory> for StartFault {
    ghost use Rattle.std.specs.Prelude.{◌≡◌};
    ghost use Rattle.session.specs.declared.fault.StartFault.TheVariants.{NoMemory};

    ghost from_gives = { λ _ fault. fault ≡ NoMemory };

    fn from(_fault: NoMemory) -> StartFault {
        StartFault::NoMemory
    }
}
