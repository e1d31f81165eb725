//! Why a metric has no plan at a focus.

use pn_types::{Axis, NoMemory};

/// Why there is no plan.
#[derive(Clone, Copy, Debug, PartialEq, Eq, Drop)]
pub enum PlanFault {
    /// The focus selects a part of this hierarchy, for which the metric has no constraint.
    NoConstraint(Axis),
    /// There would be this many sites, more than 4,096.
    TooManySites(u32),
    /// There would be more than 32 statements at this address, the lowest such.
    TooManyStmts(u64),
}

/// Why no plan was made.
#[derive(Clone, Copy, Debug, PartialEq, Eq, Drop)]
pub enum PlanError {
    /// Memory ran out.
    NoMemory,
    /// There is none.
    Fault(PlanFault),
}

impl From<PlanFault> for PlanError {
    ghost use Rattle.std.specs.Prelude.{◌≡◌};
    ghost use Rattle.mdl_plan.specs.declared.fault.PlanError.TheVariants.{Fault};

    ghost from_gives = { λ fault e. e ≡ Fault fault };

    fn from(fault: PlanFault) -> PlanError {
        PlanError::Fault(fault)
    }
}

impl From<NoMemory> for PlanError {
    ghost use Rattle.std.specs.Prelude.{◌≡◌};
    ghost use Rattle.mdl_plan.specs.declared.fault.PlanError.TheVariants.{NoMemory};

    ghost from_gives = { λ _ e. e ≡ NoMemory };

    fn from(_error: NoMemory) -> PlanError {
        PlanError::NoMemory
    }
}
