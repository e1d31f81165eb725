//! What a session is given.

ghost use Rattle.std.specs.Prelude.{◌≡◌, ◌<◌, ◌^◌, IfOk, length};
ghost use Rattle.code_points.specs.Procedures.{skipped_of};
ghost use Rattle.command_words.specs.Asked.{asked_session};
ghost use Rattle.commands.specs.Given.{inputs_with};
ghost use Rattle.commands.specs.Preparing.{IsPreparedOf};
ghost use Rattle.commands.specs.Runs.{IsPrepared};
ghost use Rattle.commands.specs.FileReadings.{reads, Looks};
ghost use Rattle.pn_types.specs.Settings.{AreInRange};
ghost use Rattle.refusals.specs.Refusals.{Comes};
ghost use Rattle.session.specs.Given.{AreGiven};

use crate::finding::{Found, find};
use crate::inputs::read_inputs;
use command_words::SessionRequest;
use outside::Files;
use pn_types::{Image, NoMemory, Settings};
use refusals::Refusal;
use session::Inputs;
use std::alloc::Global;

/// What a session is given, and what its report says of the program beside the run.
#[derive(Drop)]
pub struct Prepared {
    /// What the session is given.
    pub inputs: Inputs,
    /// The number of the program's function symbols that are no procedures.
    pub skipped: u32,
}

/// Puts together what a session is given: an image, what was found of it, and settings.
///
/// # Errors
///
/// `NoMemory` where memory runs out.
pub fn prepare_found(
    alloc: Global,
    image: Image,
    found: Found,
    settings: Settings,
) -> Result<Prepared, NoMemory>
    requires procs { length found.procs < 2 ^ 32 }
    requires points { length found.points < 2 ^ 32 }
    ensures inputs { IfOk result (λ prepared. prepared.inputs ≡ inputs_with image found settings) }
    ensures skipped { IfOk result (λ prepared. prepared.skipped ≡ found.skipped) }
{
    let inputs = Inputs::new(
        alloc,
        image,
        found.checked,
        found.tree,
        found.procs,
        found.points,
        settings,
    )?;
    Ok(Prepared {
        inputs,
        skipped: found.skipped,
    })
}

/// Reads a program and a configuration, and puts together what a session is given.
///
/// # Errors
///
/// `Refusal::NoMemory` where memory runs out, or the first fault that is due.
pub fn prepare<F: Files>(
    alloc: Global,
    files: &mut F,
    request: &SessionRequest<'_>,
) -> Result<Prepared, Refusal>
    requires range { AreInRange request.now.settings }
    ensures prepared { Comes result
        (IsPreparedOf (IsPrepared (asked_session request.now) (reads (F.holds files.old) (F.faults files.old) (F.faults files.new)))) }
    ensures given { IfOk result (λ prepared. AreGiven prepared.inputs) }
    ensures skipped { IfOk result (λ prepared. prepared.skipped ≡ skipped_of prepared.inputs.image) }
    ensures settings { IfOk result (λ prepared. prepared.inputs.settings ≡ request.now.settings) }
    ensures looks { Looks F.holds F.faults files.old files.new result }
{
    let inputs = read_inputs(alloc, files, request.program, request.conf)?;
    let found = find(alloc, &inputs.image, request.settings.harts, &inputs.conf)?;
    let prepared = prepare_found(alloc, inputs.image, found, request.settings)?;
    Ok(prepared)
}
