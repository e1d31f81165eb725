//! The command `stress`.

ghost use Rattle.std.specs.Prelude.{◌≡◌, IfOk, codes};
ghost use Rattle.command_words.specs.Asked.{asked_session, asked_stress};
ghost use Rattle.command_words.specs.Requests.{IsOrderInRange};
ghost use Rattle.outside.specs.SureFiles.{content_of};
ghost use Rattle.commands.specs.Preparing.{IsPreparedOf};
ghost use Rattle.commands.specs.Runs.{IsInOrder, IsPrepared, IsSession, IsStressDue, stress_session, stress_sight, summary_of};
ghost use Rattle.refusals.specs.Refusals.{Comes};
ghost use Rattle.session.specs.Given.{AreGiven};
ghost use Rattle.stress_run.specs.Configuration.{configuration_text};
ghost use Rattle.stress_run.specs.Program.{program_text};

use crate::opening::unopened;
use crate::preparing::{Prepared, prepare};
use crate::texts::Texts;
use command_words::{SessionRequest, StressRequest, TurnOrder};
use outside::{OpenGate, SureFiles};
use pn_types::{NoMemory, Settings, Start};
use refusals::Refusal;
use session::Inputs;
use std::alloc::Global;
use stress_run::{configuration_text, program_text, summary_text};
use whole_run::run_parts;

/// Returns what the session is made of.
fn session() -> SessionRequest<'static>
    ensures { asked_session result ≡ stress_session }
{
    SessionRequest {
        program: "program",
        conf: "configuration",
        settings: Settings {
            harts: 2,
            budget: 1_000_000,
            bins: 64,
            width: 1_000,
            start: Start::Warm,
            instruments: 64,
        },
    }
}

/// Returns the program's text and the configuration's, as files.
fn made_files(alloc: Global, request: StressRequest) -> Result<SureFiles, NoMemory>
    ensures program { IfOk result (λ files. content_of files (codes "program") ≡ program_text request.procs request.seed) }
    ensures conf { IfOk result (λ files. content_of files (codes "configuration") ≡ configuration_text request.procs) }
{
    let mut files = SureFiles::new(alloc);
    let program = program_text(alloc, request.procs, request.seed)?;
    files.give(alloc, "program", program)?;
    let conf = configuration_text(alloc, request.procs)?;
    files.give(alloc, "configuration", conf)?;
    Ok(files)
}

/// Returns what the session is given.
fn prepare_made(alloc: Global, request: StressRequest) -> Result<Prepared, Refusal>
    ensures prepared { Comes result (IsPreparedOf (IsPrepared stress_session (stress_sight (asked_stress request)))) }
    ensures given { IfOk result (λ prepared. AreGiven prepared.inputs) }
{
    let mut files = made_files(alloc, request)?;
    prepare(alloc, &mut files, &session())
}

/// Returns the line that sums up a session in this order.
fn sum_up(alloc: Global, inputs: Inputs, order: TurnOrder, procs: u32) -> Result<Texts, Refusal>
    requires given { AreGiven inputs }
    requires order { IsOrderInRange order }
    ensures { Comes result (IsSession (IsInOrder order) (summary_of procs) inputs) }
{
    match run_parts(alloc, inputs, order.seed, order.quantum, &OpenGate) {
        Ok(parts) => {
            let line = summary_text(alloc, procs, &parts)?;
            Ok(Texts::output(alloc, line))
        }
        Err(fault) => Err(unopened(fault)),
    }
}

/// Returns what is due for `stress`.
///
/// # Errors
///
/// `Refusal::NoMemory` where memory runs out, or the first fault that is due.
pub fn stress(alloc: Global, request: StressRequest) -> Result<Texts, Refusal>
    ensures { Comes result (IsStressDue (asked_stress request)) }
{
    let prepared = prepare_made(alloc, request)?;
    let order = TurnOrder {
        seed: request.seed,
        quantum: 50,
    };
    sum_up(alloc, prepared.inputs, order, request.procs)
}
