//! What is left of a run.

ghost use Rattle.std.specs.Prelude.{◌≡◌, ◌≤◌, false, IfErr, IfOk, None};
ghost use Rattle.session.specs.Given.{AreGiven};
ghost use Rattle.session.specs.Sessions.{new_session, IsStartFault};
ghost use Rattle.session_spec.specs.Opening.{bad_pick};
ghost use Rattle.whole_run.specs.Recorded.{IsRecorded, IsRecordOf, log_of};

use crate::order::take_quanta;
use crate::progress::Progress;
use pn_types::{MAX_QUANTUM, NoMemory, Settings};
use quanta_log::write;
use report::report;
use session::{Inputs, Session, StartFault};
use std::alloc::Global;

/// What is left of a run.
#[derive(Drop)]
pub struct Recorded {
    /// The text of its report.
    pub report: Vec<u8>,
    /// The bytes of its log.
    pub log: Vec<u8>,
}

/// In which order harts take quanta, and what a report says of the program beside the run.
#[derive(Clone, Copy, PartialEq, Eq, Drop)]
pub struct Course {
    /// The seed of the order.
    pub seed: u32,
    /// The turns of a quantum, at most.
    pub turns: u32,
    /// The number of the program's function symbols that are no procedures.
    pub skipped: u32,
}

/// Returns the bytes of a session's log.
fn log_of(alloc: Global, settings: &Settings, session: &Session) -> Result<Vec<u8>, NoMemory>
    requires given { AreGiven session.now.inputs }
    requires settings { settings.now ≡ session.now.inputs.settings }
    ensures { IfOk result (λ log. log.items ≡ log_of session.now.inputs session.now.quanta) }
{
    session.laws();
    write(alloc, settings, session.quanta())
}

/// Ends a session, and returns the report of its quanta and its log. In the report `skipped` function symbols are no procedures.
///
/// # Errors
///
/// `NoMemory` where memory runs out.
pub fn record_end(
    alloc: Global,
    settings: &Settings,
    session: &mut Session,
    skipped: u32,
) -> Result<Recorded, NoMemory>
    requires given { AreGiven session.old.inputs }
    requires going { session.old.closed ≡ false }
    requires settings { settings.now ≡ session.old.inputs.settings }
    ensures { IfOk result (IsRecordOf session.old.inputs session.old.quanta skipped) }
{
    let log = log_of(alloc, settings, session)?;
    session.close();
    let parts = session.parts()?;
    let report = report(alloc, &parts, skipped)?;
    Ok(Recorded { report, log })
}

/// Runs a session that just began to its end.
fn run_on<P: Progress>(
    alloc: Global,
    settings: &Settings,
    session: &mut Session,
    course: &Course,
    progress: &P,
) -> Result<Recorded, NoMemory>
    requires given { AreGiven session.old.inputs }
    requires begun { session.old ≡ new_session session.old.inputs }
    requires settings { settings.now ≡ session.old.inputs.settings }
    requires turns { (1 ≤ course.now.turns) × (course.now.turns ≤ MAX_QUANTUM) }
    ensures { IfOk result (IsRecorded session.old.inputs course.now) }
{
    take_quanta(
        alloc,
        session,
        settings.harts,
        course.seed,
        course.turns,
        progress,
    )?;
    record_end(alloc, settings, session, course.skipped)
}

/// Runs a program with its instruments: its harts take quanta in the order of a seed until none can follow, and each is told of. Returns
/// the report and the log.
///
/// # Errors
///
/// `NoMemory` where memory runs out; `BadPick` with the first wish at tick 0 that is refused, if one is.
pub fn record_run<P: Progress>(
    alloc: Global,
    inputs: Inputs,
    course: &Course,
    progress: &P,
) -> Result<Recorded, StartFault>
    requires given { AreGiven inputs }
    requires turns { (1 ≤ course.now.turns) × (course.now.turns ≤ MAX_QUANTUM) }
    ensures recorded { IfOk result (IsRecorded inputs course.now) }
    ensures picked { IfOk result (λ recorded. bad_pick inputs ≡ None) }
    ensures refused { IfErr result (IsStartFault inputs) }
{
    let settings = inputs.settings;
    let mut session = Session::begin(alloc, inputs)?;
    match run_on(alloc, &settings, &mut session, course, progress) {
        Ok(recorded) => Ok(recorded),
        Err(_) => Err(StartFault::NoMemory),
    }
}
