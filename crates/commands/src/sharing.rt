//! The command `live`.

ghost use Rattle.std.specs.Prelude.{◌≡◌, ◌≤◌};
ghost use Rattle.code_points.specs.Procedures.{skipped_of};
ghost use Rattle.command_words.specs.Asked.{asked_live};
ghost use Rattle.command_words.specs.Requests.{HasRanges, IsQuantum, live};
ghost use Rattle.commands.specs.Runs.{IsByWorkers, IsLiveDue, IsSession, report_and_log};
ghost use Rattle.commands.specs.FileReadings.{reads, Looks};
ghost use Rattle.refusals.specs.Refusals.{Comes};
ghost use Rattle.session.specs.Given.{AreGiven};

use crate::opening::unopened;
use crate::preparing::{Prepared, prepare};
use crate::running::texts_of;
use crate::texts::Texts;
use command_words::LiveRequest;
use live_run::{LiveCourse, Team, record_live};
use outside::{Files, Gate};
use pn_types::MAX_WORKERS;
use refusals::Refusal;
use std::alloc::Global;
use std::sync::Wait;
use std::thread::Threads;
use whole_run::Progress;

/// Returns what is due of a session that a team shares.
fn share_prepared<R: Threads + Wait + Sync, G: Gate + Progress + Sync>(
    rt: &R,
    alloc: Global,
    prepared: Prepared,
    team: Team,
    gate: &G,
) -> Result<Texts, Refusal>
    requires given { AreGiven prepared.inputs }
    requires skipped { prepared.skipped ≡ skipped_of prepared.inputs.image }
    requires harts { team.harts ≡ prepared.inputs.settings.harts }
    requires workers { (1 ≤ team.workers) × (team.workers ≤ MAX_WORKERS) }
    requires quantum { IsQuantum team.turns }
    ensures { Comes result (IsSession (IsByWorkers team.workers team.turns) report_and_log prepared.inputs) }
{
    let course = LiveCourse {
        team,
        skipped: prepared.skipped,
    };
    match record_live(rt, alloc, prepared.inputs, &course, gate) {
        Ok(recorded) => Ok(texts_of(recorded)),
        Err(fault) => Err(unopened(fault)),
    }
}

/// Returns what is due for `live`.
///
/// # Errors
///
/// `Refusal::NoMemory` where memory runs out, also for one worker alone, or the first fault that is due.
pub fn live<F: Files, R: Threads + Wait + Sync, G: Gate + Progress + Sync>(
    rt: &R,
    alloc: Global,
    request: &LiveRequest<'_>,
    files: &mut F,
    gate: &G,
) -> Result<Texts, Refusal>
    requires ranges { HasRanges (live (asked_live request.now)) }
    ensures due { Comes result (IsLiveDue (asked_live request.now) (reads (F.holds files.old) (F.faults files.old) (F.faults files.new))) }
    ensures looks { Looks F.holds F.faults files.old files.new result }
{
    let prepared = prepare(alloc, files, &request.session)?;
    let team = Team {
        workers: request.workers,
        harts: request.session.settings.harts,
        turns: request.quantum,
    };
    share_prepared(rt, alloc, prepared, team, gate)
}
