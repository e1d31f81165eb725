//! The command `run`.

ghost use Rattle.std.specs.Prelude.{◌≡◌};
ghost use Rattle.code_points.specs.Procedures.{skipped_of};
ghost use Rattle.command_words.specs.Asked.{asked_run};
ghost use Rattle.command_words.specs.Requests.{HasRanges, IsOrderInRange, run};
ghost use Rattle.commands.specs.Runs.{IsInOrder, IsRunDue, IsSession, report_and_log};
ghost use Rattle.commands.specs.FileReadings.{reads, Looks};
ghost use Rattle.refusals.specs.Refusals.{Comes};
ghost use Rattle.session.specs.Given.{AreGiven};

use crate::opening::unopened;
use crate::preparing::{Prepared, prepare};
use crate::texts::Texts;
use command_words::{RunRequest, TurnOrder};
use outside::Files;
use pn_types::Seq;
use refusals::Refusal;
use std::alloc::Global;
use whole_run::{Course, Progress, Recorded, record_run};

/// Returns the texts of what is left of a run.
pub fn texts_of(recorded: Recorded) -> Texts
    ensures { result ≡ record { out = recorded.report.items; log = recorded.log.items } }
{
    Texts {
        out: Seq::from_vec(recorded.report),
        log: Seq::from_vec(recorded.log),
    }
}

/// Returns what is due of a session in this order.
fn run_prepared<P: Progress>(
    alloc: Global,
    prepared: Prepared,
    order: TurnOrder,
    progress: &P,
) -> Result<Texts, Refusal>
    requires given { AreGiven prepared.inputs }
    requires skipped { prepared.skipped ≡ skipped_of prepared.inputs.image }
    requires order { IsOrderInRange order }
    ensures { Comes result (IsSession (IsInOrder order) report_and_log prepared.inputs) }
{
    let course = Course {
        seed: order.seed,
        turns: order.quantum,
        skipped: prepared.skipped,
    };
    match record_run(alloc, prepared.inputs, &course, progress) {
        Ok(recorded) => Ok(texts_of(recorded)),
        Err(fault) => Err(unopened(fault)),
    }
}

/// Returns what is due for `run`.
///
/// # Errors
///
/// `Refusal::NoMemory` where memory runs out, or the first fault that is due.
pub fn run<F: Files, P: Progress>(
    alloc: Global,
    request: &RunRequest<'_>,
    files: &mut F,
    progress: &P,
) -> Result<Texts, Refusal>
    requires ranges { HasRanges (run (asked_run request.now)) }
    ensures due { Comes result (IsRunDue (asked_run request.now) (reads (F.holds files.old) (F.faults files.old) (F.faults files.new))) }
    ensures looks { Looks F.holds F.faults files.old files.new result }
{
    let prepared = prepare(alloc, files, &request.session)?;
    run_prepared(alloc, prepared, request.order, progress)
}
