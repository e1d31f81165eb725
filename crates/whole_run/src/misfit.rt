//! Why quanta that are told are no whole run, and why a replay has no report.

use pn_types::NoMemory;
use session::StartFault;

/// Why quanta that are told are no whole run. Quanta are numbered from 0.
#[derive(Clone, Copy, Debug, PartialEq, Eq, Drop)]
pub enum Misfit {
    /// At the quantum of this number, this hart can't go on.
    NotRunnable(u64, u32),
    /// The quantum of this number is told to have the first number of ticks, and has the second.
    OtherOwns(u64, u32, u32),
    /// They end before the run does.
    Unfinished,
}

/// Why a run along quanta that are told has no report.
#[derive(Drop)]
pub enum ReplayFault {
    /// No session could be opened, or memory ran out later.
    NotOpened(StartFault),
    /// The quanta are no whole run.
    Misfit(Misfit),
}

impl From<NoMemory> for ReplayFault {
    ghost use Rattle.std.specs.Prelude.{◌≡◌};
    ghost use Rattle.session.specs.declared.fault.StartFault.TheVariants.{NoMemory};
    ghost use Rattle.whole_run.specs.declared.misfit.ReplayFault.TheVariants.{NotOpened};

    ghost from_gives = { λ _ fault. fault ≡ NotOpened NoMemory };

    fn from(_error: NoMemory) -> ReplayFault {
        ReplayFault::NotOpened(StartFault::NoMemory)
    }
}

impl From<StartFault> for ReplayFault {
    ghost use Rattle.std.specs.Prelude.{◌≡◌};
    ghost use Rattle.whole_run.specs.declared.misfit.ReplayFault.TheVariants.{NotOpened};

    ghost from_gives = { λ why fault. fault ≡ NotOpened why };

    fn from(why: StartFault) -> ReplayFault {
        ReplayFault::NotOpened(why)
    }
}
