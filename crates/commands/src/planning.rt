//! The command `plan`.

ghost use Rattle.std.specs.Prelude.{◌≡◌, ◌<◌, ◌^◌, MatchOption, length, slice_get, Some, None};
ghost use Rattle.code_points.specs.Procedures.{AreProcsOf};
ghost use Rattle.command_words.specs.Asked.{asked_plan};
ghost use Rattle.command_words.specs.Requests.{HasRanges, plan};
ghost use Rattle.mdl_ast.specs.declared.metric.Metric.{Metric};
ghost use Rattle.mdl_check.specs.Sound.{IsSoundCheck};
ghost use Rattle.commands.specs.Plans.{metric_named, IsSelected, IsPlanAt, IsPlan, IsPlanDue};
ghost use Rattle.commands.specs.FileReadings.{reads, Looks};
ghost use Rattle.pn_types.specs.Images.{IsImage};
ghost use Rattle.refusals.specs.Refusals.{Comes};

use crate::configuration::bad_configuration;
use crate::files::text_of;
use crate::finding::{Found, find};
use crate::inputs::read_inputs;
use crate::opening::bad_pick;
use crate::texts::Texts;
use command_words::PlanRequest;
use mdl_ast::Metric;
use mdl_plan::{PlanError, PlanFault, PlanIndex};
use outside::Files;
use pn_types::{Focus, Image, PickCause};
use prim_code::predicted;
use refusals::{ConfKind, Refusal};
use report::plan_text;
use std::alloc::Global;

/// Returns the number of the first metric of this name.
pub(crate) fn metric_number(metrics: &[Metric], name: &[u8]) -> Option<u32>
    requires { length metrics.now < 2 ^ 32 }
    ensures { MatchOption result (metric_named metrics.now name.now ≡ None)
        (λ k. (k < length metrics.now) × (slice_get metrics.now k ≡ metric_named metrics.now name.now)) }
{
    for (number, metric) in metrics.iter().enumerate() {
        if name == metric.name.bytes() {
            return Some(number as u32);
        }
    }
    None
}

/// Returns the focus that a text selects.
pub(crate) fn select(found: &Found, text: &str) -> Result<Focus, Refusal>
    ensures { Comes result (IsSelected found.now.tree text.now) }
{
    match found.tree.selected(text.as_bytes()) {
        Some(focus) => Ok(focus),
        None => Err(bad_configuration(0, 0, ConfKind::BadFocus)),
    }
}

/// Returns the plan of a metric, which has this name and number, at a focus.
fn plan_at(
    alloc: Global,
    found: Found,
    name: &str,
    number: u32,
    focus: &Focus,
) -> Result<Texts, Refusal>
    requires procs { length found.procs < 2 ^ 32 }
    requires points { length found.points < 2 ^ 32 }
    requires number { number < length found.checked.metrics }
    requires sound { IsSoundCheck found.checked }
    ensures { (m : Metric) → slice_get found.checked.metrics number ≡ Some m → Comes result (IsPlanAt name.now found m focus.now) }
{
    let text = found.tree.focus_text(alloc, focus)?;
    let metric = text_of(alloc, name)?;
    let index = PlanIndex::new(alloc, found.procs, found.points)?;
    match mdl_plan::plan(alloc, &found.checked, number, focus, &found.tree, &index) {
        Ok(plan) => {
            let words = predicted(&plan);
            let shown = plan_text(alloc, metric.bytes(), text.bytes(), words, &plan)?;
            Ok(Texts::output(alloc, shown))
        }
        Err(PlanError::NoMemory) => Err(Refusal::NoMemory),
        Err(PlanError::Fault(PlanFault::NoConstraint(axis))) => {
            Err(bad_pick(metric, text, PickCause::NoConstraint(axis)))
        }
        Err(PlanError::Fault(PlanFault::TooManySites(count))) => {
            Err(bad_pick(metric, text, PickCause::TooManySites(count)))
        }
        Err(PlanError::Fault(PlanFault::TooManyStmts(at))) => {
            Err(bad_pick(metric, text, PickCause::TooManyStmts(at)))
        }
    }
}

/// Returns the plan of the named metric at the focus of the text. First the name is looked for, and then what the text selects.
fn plan_found(alloc: Global, request: &PlanRequest<'_>, found: Found) -> Result<Texts, Refusal>
    requires procs { length found.procs < 2 ^ 32 }
    requires points { length found.points < 2 ^ 32 }
    requires metrics { length found.checked.metrics < 2 ^ 32 }
    requires sound { IsSoundCheck found.checked }
    ensures { Comes result (IsPlan (asked_plan request.now) found) }
{
    let metrics = found.checked.metrics.as_slice();
    let Some(number) = metric_number(metrics, request.metric.as_bytes()) else {
        return Err(bad_configuration(0, 0, ConfKind::UnknownName));
    };
    let focus = select(&found, request.focus)?;
    plan_at(alloc, found, request.metric, number, &focus)
}

/// Returns what is due for `plan`.
///
/// # Errors
///
/// `Refusal::NoMemory` where memory runs out, or the first fault that is due.
pub fn plan<F: Files>(
    alloc: Global,
    request: &PlanRequest<'_>,
    files: &mut F,
) -> Result<Texts, Refusal>
    requires { HasRanges (plan (asked_plan request.now)) }
    ensures due { Comes result (IsPlanDue (asked_plan request.now) (reads (F.holds files.old) (F.faults files.old) (F.faults files.new))) }
    ensures looks { Looks F.holds F.faults files.old files.new result }
{
    let inputs = read_inputs(alloc, files, request.program, request.conf)?;
    let found = find(alloc, &inputs.image, request.harts, &inputs.conf)?;
    plan_found(alloc, request, found)
}
