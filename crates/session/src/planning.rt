//! Plans of metrics at foci.

ghost use Rattle.std.specs.Prelude.{◌<◌, ◌^◌, IfOk};
ghost use Rattle.mdl_plan.specs.Plans.{IsPlanOr};
ghost use Rattle.prim_code.specs.Counts.{predicted};
ghost use Rattle.session_spec.specs.Inputs.{planned};
ghost use Rattle.session.specs.Candidates.{IsPlanOrFault, IsShort};
ghost use Rattle.session.specs.Given.{AreGiven};

use crate::inputs::Inputs;
use mdl_plan::{PlanError, PlanFault, plan, start_plan};
use pn_types::{Focus, NoMemory, Plan, Seq};
use std::alloc::Global;

/// Returns the plan of a metric at a focus, started as the settings say, or why there is none.
fn planned(alloc: Global, inputs: &Inputs, metric: u32, focus: &Focus) -> Result<Plan, PlanError>
    requires { AreGiven inputs.now }
    ensures answer { IsPlanOr result (planned inputs.now metric focus.now) }
    ensures short { IfOk result (IsShort inputs.now) }
{
    if metric as usize >= inputs.checked.metrics.as_slice().len() {
        return Err(PlanError::Fault(PlanFault::TooManySites(0)));
    }
    let whole = plan(
        alloc,
        &inputs.checked,
        metric,
        focus,
        &inputs.tree,
        &inputs.index,
    )?;
    Ok(start_plan(alloc, whole, inputs.settings.start))
}

/// Returns a plan of nothing.
pub(crate) fn nothing(alloc: Global) -> Plan
    ensures { predicted result < 2 ^ 32 }
{
    Plan {
        vars: Seq::from_vec(Vec::new(alloc)),
        sites: Seq::from_vec(Vec::new(alloc)),
        opens: Seq::from_vec(Vec::new(alloc)),
    }
}

/// Returns the plan of a metric at a focus, or one of nothing and why there is none.
///
/// # Errors
///
/// `NoMemory` where memory runs out.
pub(crate) fn plan_or_fault(
    alloc: Global,
    inputs: &Inputs,
    metric: u32,
    focus: &Focus,
) -> Result<(Plan, Option<PlanFault>), NoMemory>
    requires { AreGiven inputs.now }
    ensures plan { IfOk result (λ made. IsPlanOrFault inputs.now metric focus.now made.1 made.0) }
    ensures words { IfOk result (λ made. predicted made.0 < 2 ^ 32) }
{
    match planned(alloc, inputs, metric, focus) {
        Ok(plan) => Ok((plan, None)),
        Err(PlanError::NoMemory) => Err(NoMemory {}),
        Err(PlanError::Fault(fault)) => Ok((nothing(alloc), Some(fault))),
    }
}
