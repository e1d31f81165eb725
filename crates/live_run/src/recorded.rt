//! What is left of a run that workers share.

ghost use Rattle.std.specs.Prelude.{◌≡◌, ◌≤◌, IfErr, IfOk, None};
ghost use Rattle.session.specs.Given.{AreGiven};
ghost use Rattle.session.specs.Sessions.{new_session, IsStartFault};
ghost use Rattle.session_spec.specs.Opening.{bad_pick};
ghost use Rattle.live_run.specs.Recorded.{IsLiveRecorded};

use crate::live::run_live;
use crate::team::Team;
use outside::Gate;
use pn_types::{MAX_QUANTUM, MAX_WORKERS, NoMemory, Settings};
use session::{Inputs, Session, StartFault};
use std::alloc::Global;
use std::sync::Wait;
use std::thread::Threads;
use whole_run::{Progress, Recorded, record_end};

/// Who runs a program, and what a report says of the program beside the run.
#[derive(Clone, Copy, PartialEq, Eq, Drop)]
pub struct LiveCourse {
    /// The workers.
    pub team: Team,
    /// The number of the program's function symbols that are no procedures.
    pub skipped: u32,
}

/// Lets a team run a session that just began to its end.
///
/// # Errors
///
/// `NoMemory` where memory runs out, also for one worker alone.
fn live_on<R: Threads + Wait + Sync, G: Gate + Progress + Sync>(
    rt: &R,
    alloc: Global,
    settings: &Settings,
    session: Session,
    course: &LiveCourse,
    gate: &G,
) -> Result<Recorded, NoMemory>
    requires given { AreGiven session.inputs }
    requires begun { session ≡ new_session session.inputs }
    requires settings { settings.now ≡ session.inputs.settings }
    requires workers { (1 ≤ course.now.team.workers) × (course.now.team.workers ≤ MAX_WORKERS) }
    requires harts { course.now.team.harts ≡ session.inputs.settings.harts }
    requires turns { (1 ≤ course.now.team.turns) × (course.now.team.turns ≤ MAX_QUANTUM) }
    ensures { IfOk result (IsLiveRecorded session.inputs course.now) }
{
    let mut session = run_live(rt, alloc, session, course.team, gate)?;
    record_end(alloc, settings, &mut session, course.skipped)
}

/// Runs a program with its instruments by a team of workers, until none of its harts can take another quantum. Returns the report
/// and the log.
///
/// # Errors
///
/// `NoMemory` where memory runs out, also for one worker alone; `BadPick` with the first wish at tick 0 that is refused, if one is.
pub fn record_live<R: Threads + Wait + Sync, G: Gate + Progress + Sync>(
    rt: &R,
    alloc: Global,
    inputs: Inputs,
    course: &LiveCourse,
    gate: &G,
) -> Result<Recorded, StartFault>
    requires given { AreGiven inputs }
    requires workers { (1 ≤ course.now.team.workers) × (course.now.team.workers ≤ MAX_WORKERS) }
    requires harts { course.now.team.harts ≡ inputs.settings.harts }
    requires turns { (1 ≤ course.now.team.turns) × (course.now.team.turns ≤ MAX_QUANTUM) }
    ensures recorded { IfOk result (IsLiveRecorded inputs course.now) }
    ensures picked { IfOk result (λ recorded. bad_pick inputs ≡ None) }
    ensures refused { IfErr result (IsStartFault inputs) }
{
    let settings = inputs.settings;
    let session = Session::begin(alloc, inputs)?;
    match live_on(rt, alloc, &settings, session, course, gate) {
        Ok(recorded) => Ok(recorded),
        Err(_) => Err(StartFault::NoMemory),
    }
}
