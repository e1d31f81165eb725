//! The variables of a plan.

ghost use Rattle.std.specs.Prelude.{◌≡◌, ◌<◌, ◌^◌, IfOk, map};
ghost use Rattle.std.specs.List.{AllByRecursion};
ghost use Rattle.mdl_plan.specs.Pieces as spec;
ghost use Rattle.mdl_plan.specs.Plans.{base_var, counter_var, vars_of};

use crate::active::Active;
use crate::pieces::base_initially;
use mdl_ast::{Constraint, Metric};
use pn_types::{NoMemory, Text, Var};
use std::alloc::Global;

/// A copy of a text.
fn copy(alloc: Global, text: &Text) -> Result<Text, NoMemory>
    ensures { IfOk result (λ copy. copy ≡ text.now) }
{
    Ok(Text::from_vec(Vec::from_slice(alloc, text.bytes())?))
}

/// The metric's own variable.
fn base_var(alloc: Global, metric: &Metric, active: &Active<'_>) -> Result<Var, NoMemory>
    ensures var { IfOk result (λ var. var ≡ base_var metric.now active.now) }
    ensures narrow { IfOk result (λ var. var.initially < 2 ^ 32) }
{
    let initially = base_initially(metric, active.replacement());
    Ok(Var {
        name: copy(alloc, &metric.name)?,
        timer: metric.timer,
        initially: initially.unwrap_or(0),
    })
}

/// The variable of a counter.
fn counter_var(alloc: Global, counter: &Constraint) -> Result<Var, NoMemory>
    ensures var { IfOk result (λ var. var ≡ counter_var counter.now) }
    ensures narrow { IfOk result (λ var. var.initially < 2 ^ 32) }
{
    Ok(Var {
        name: copy(alloc, &counter.name)?,
        timer: false,
        initially: counter.initially.unwrap_or(0),
    })
}

/// The metric's own variable, and then those of the active counters.
pub(crate) fn vars(
    alloc: Global,
    metric: &Metric,
    active: &Active<'_>,
    counters: &[&Constraint],
) -> Result<Vec<Var>, NoMemory>
    requires { map (λ c. c.now) counters.now ≡ spec.counters active.now }
    ensures vars { IfOk result (λ vars. vars.items ≡ vars_of metric.now active.now) }
    ensures narrow { IfOk result (λ vars. AllByRecursion (λ v. v.initially < 2 ^ 32) vars.items) }
{
    let mut vars = vec![in alloc; base_var(alloc, metric, active)?]?;
    for counter in counters {
        vars.push(counter_var(alloc, counter)?)?;
    }
    Ok(vars)
}
