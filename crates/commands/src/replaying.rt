//! The commands `replay` and `relog`.

ghost use Rattle.std.specs.Prelude.{◌≡◌, ◌≤◌, length};
ghost use Rattle.std.specs.List.{AllByRecursion};
ghost use Rattle.code_points.specs.Procedures.{AreModulesGood, skipped_of};
ghost use Rattle.command_words.specs.Asked.{asked_replay};
ghost use Rattle.mdl_ast.specs.Small.{HasSmall};
ghost use Rattle.commands.specs.Given.{CanRun, IsUnscratched};
ghost use Rattle.commands.specs.Replays.{IsRelogDue, IsReplay, IsReplayDue, IsReplayOf, IsReplayWith};
ghost use Rattle.commands.specs.FileReadings.{reads, Looks};
ghost use Rattle.pn_types.specs.Images.{IsImage};
ghost use Rattle.quanta_log.specs.Spelling.{CanSpell};
ghost use Rattle.quanta_log.specs.declared.version.Version.TheVariants as version;
ghost use Rattle.refusals.specs.Refusals.{Comes};
ghost use Rattle.session.specs.Given.{AreGiven};

use crate::finding::{Found, find};
use crate::inputs::{Inputs, read_inputs};
use crate::logs::{Log, misfit_fault, read_log};
use crate::opening::unopened;
use crate::preparing::{Prepared, prepare_found};
use crate::texts::Texts;
use command_words::ReplayRequest;
use outside::Files;
use pn_types::Image;
use quanta_log::write;
use refusals::{Fault, Refusal};
use std::alloc::Global;
use whole_run::{Progress, ReplayFault, replay_run};

/// Returns what is due of a session along a log's quanta.
fn replay_prepared<P: Progress>(
    alloc: Global,
    log: &Log,
    prepared: Prepared,
    progress: &P,
) -> Result<Texts, Refusal>
    requires given { AreGiven prepared.inputs }
    requires skipped { prepared.skipped ≡ skipped_of prepared.inputs.image }
    requires spelled { CanSpell version.Two prepared.inputs.settings log.now.quanta }
    ensures { Comes result (IsReplayWith log.now prepared.inputs) }
{
    let quanta = log.quanta.as_slice();
    match replay_run(alloc, prepared.inputs, quanta, prepared.skipped, progress) {
        Ok(report) => Ok(Texts::output(alloc, report)),
        Err(ReplayFault::NotOpened(fault)) => Err(unopened(fault)),
        Err(ReplayFault::Misfit(misfit)) => Err(Refusal::Fault(misfit_fault(log, misfit))),
    }
}

/// Returns what is due of a run along a log's quanta of the image with what was found of it.
fn replay_found<P: Progress>(
    alloc: Global,
    log: &Log,
    image: Image,
    found: Found,
    progress: &P,
) -> Result<Texts, Refusal>
    requires skipped { found.skipped ≡ skipped_of image }
    requires spelled { CanSpell version.Two log.now.settings log.now.quanta }
    requires runs { CanRun image log.now.settings.harts found }
    ensures { Comes result (IsReplay log.now image found) }
{
    let prepared = prepare_found(alloc, image, found, log.settings)?;
    replay_prepared(alloc, log, prepared, progress)
}

/// Returns what is due of a program and a configuration along a log's quanta.
fn replay_log<P: Progress>(
    alloc: Global,
    log: &Log,
    inputs: Inputs,
    progress: &P,
) -> Result<Texts, Refusal>
    requires spelled { CanSpell version.Two log.now.settings log.now.quanta }
    requires image { IsImage inputs.image }
    requires unscratched { IsUnscratched inputs.image }
    requires modules { AreModulesGood inputs.image }
    requires few { length inputs.conf.items ≤ 1048576 }
    requires small { AllByRecursion HasSmall inputs.conf.items }
    ensures { Comes result (IsReplayOf log.now inputs) }
{
    let found = find(alloc, &inputs.image, log.settings.harts, &inputs.conf)?;
    replay_found(alloc, log, inputs.image, found, progress)
}

/// Returns what is due for `replay`.
///
/// # Errors
///
/// `Refusal::NoMemory` where memory runs out, or the first fault that is due.
pub fn replay<F: Files, P: Progress>(
    alloc: Global,
    request: &ReplayRequest<'_>,
    files: &mut F,
    progress: &P,
) -> Result<Texts, Refusal>
    ensures due { Comes result
        (IsReplayDue (asked_replay request.now) (reads (F.holds files.old) (F.faults files.old) (F.faults files.new))) }
    ensures looks { Looks F.holds F.faults files.old files.new result }
{
    let inputs = read_inputs(alloc, files, request.program, request.conf)?;
    let log = read_log(alloc, files, request.log)?;
    replay_log(alloc, &log, inputs, progress)
}

/// Returns what is due for `relog`.
///
/// # Errors
///
/// `Refusal::NoMemory` where memory runs out, or the first fault that is due.
pub fn relog<F: Files>(alloc: Global, name: &str, files: &mut F) -> Result<Texts, Refusal>
    ensures due { Comes result (IsRelogDue name.now (reads (F.holds files.old) (F.faults files.old) (F.faults files.new))) }
    ensures looks { Looks F.holds F.faults files.old files.new result }
{
    let log = read_log(alloc, files, name)?;
    let bytes = write(alloc, &log.settings, log.quanta.as_slice())?;
    Ok(Texts::output(alloc, bytes))
}
