//! Why a pair gets no instrument.

ghost use Rattle.std.specs.Prelude.{◌≡◌};
ghost use Rattle.session.specs.Outcomes.{bar_cause_of, pick_cause_of};

use instrument::Refused;
use mdl_plan::PlanFault;
use pn_types::{BarCause, PickCause};

/// Why a pair gets no instrument.
#[derive(Clone, Copy, Drop)]
pub(crate) enum Failure {
    /// There is no plan of it.
    NoPlan(PlanFault),
    /// Its plan isn't admitted.
    Refused(Refused),
}

impl Failure {
    /// Returns why its wish is refused. Running out of memory is no cause.
    pub(crate) fn pick_cause(self) -> Option<PickCause>
        ensures { result ≡ pick_cause_of self }
    {
        match self {
            Failure::NoPlan(PlanFault::NoConstraint(axis)) => Some(PickCause::NoConstraint(axis)),
            Failure::NoPlan(PlanFault::TooManySites(sites)) => Some(PickCause::TooManySites(sites)),
            Failure::NoPlan(PlanFault::TooManyStmts(at)) => Some(PickCause::TooManyStmts(at)),
            Failure::Refused(Refused::NoMemory) => None,
            Failure::Refused(Refused::OverCost(words)) => Some(PickCause::OverCost(words)),
            Failure::Refused(Refused::TooMany) => Some(PickCause::TooMany),
            Failure::Refused(Refused::NoSlot(slots)) => Some(PickCause::NoSlot(slots)),
            Failure::Refused(Refused::NoRoom(words)) => Some(PickCause::NoRoom(words)),
            Failure::Refused(Refused::Unmovable(at)) => Some(PickCause::Unmovable(at)),
        }
    }

    /// Returns why its node is barred. Running out of memory is no cause, and where no more instruments are allowed the node waits.
    pub(crate) fn bar_cause(self) -> Option<BarCause>
        ensures { result ≡ bar_cause_of self }
    {
        match self {
            Failure::NoPlan(PlanFault::NoConstraint(axis)) => Some(BarCause::NoConstraint(axis)),
            Failure::NoPlan(PlanFault::TooManySites(sites)) => Some(BarCause::TooManySites(sites)),
            Failure::NoPlan(PlanFault::TooManyStmts(at)) => Some(BarCause::TooManyStmts(at)),
            Failure::Refused(Refused::NoMemory | Refused::TooMany) => None,
            Failure::Refused(Refused::OverCost(words)) => Some(BarCause::OverCost(words)),
            Failure::Refused(Refused::NoSlot(slots)) => Some(BarCause::NoSlot(slots)),
            Failure::Refused(Refused::NoRoom(words)) => Some(BarCause::NoRoom(words)),
            Failure::Refused(Refused::Unmovable(at)) => Some(BarCause::Unmovable(at)),
        }
    }
}
