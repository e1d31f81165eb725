//! The command `visi`.

ghost use Rattle.std.specs.Prelude.{◌≤◌};
ghost use Rattle.command_words.specs.Asked.{asked_visi};
ghost use Rattle.command_words.specs.Requests.{HasRanges, IsOrderInRange, visi};
ghost use Rattle.commands.specs.Runs.{IsInOrder, IsSession, IsVisiDue, views_of};
ghost use Rattle.commands.specs.FileReadings.{reads, Looks};
ghost use Rattle.refusals.specs.Refusals.{Comes};
ghost use Rattle.session.specs.Given.{AreGiven};

use crate::opening::unopened;
use crate::preparing::prepare;
use crate::texts::Texts;
use command_words::{MAX_VIEWS, TurnOrder, VisiRequest};
use outside::{Files, Gate};
use refusals::Refusal;
use session::Inputs;
use std::alloc::Global;
use std::sync::Wait;
use std::thread::Threads;
use visi_run::{ViewedCourse, view_run};
use whole_run::Progress;

/// Returns what is due of a session in this order before `views` views.
fn view_prepared<R: Threads + Wait + Sync, G: Gate + Progress + Sync>(
    rt: &R,
    alloc: Global,
    inputs: Inputs,
    order: TurnOrder,
    views: u32,
    gate: &G,
) -> Result<Texts, Refusal>
    requires given { AreGiven inputs }
    requires order { IsOrderInRange order }
    requires views { (1 ≤ views) × (views ≤ MAX_VIEWS) }
    ensures { Comes result (IsSession (IsInOrder order) (views_of views) inputs) }
{
    let course = ViewedCourse {
        seed: order.seed,
        turns: order.quantum,
        views,
    };
    match view_run(rt, alloc, inputs, &course, gate) {
        Ok(text) => Ok(Texts::output(alloc, text)),
        Err(fault) => Err(unopened(fault)),
    }
}

/// Returns what is due for `visi`.
///
/// # Errors
///
/// `Refusal::NoMemory` where memory runs out, also for one view alone, or the first fault that is due.
pub fn visi<F: Files, R: Threads + Wait + Sync, G: Gate + Progress + Sync>(
    rt: &R,
    alloc: Global,
    request: &VisiRequest<'_>,
    files: &mut F,
    gate: &G,
) -> Result<Texts, Refusal>
    requires ranges { HasRanges (visi (asked_visi request.now)) }
    ensures due { Comes result (IsVisiDue (asked_visi request.now) (reads (F.holds files.old) (F.faults files.old) (F.faults files.new))) }
    ensures looks { Looks F.holds F.faults files.old files.new result }
{
    let prepared = prepare(alloc, files, &request.session)?;
    view_prepared(
        rt,
        alloc,
        prepared.inputs,
        request.order,
        request.views,
        gate,
    )
}
