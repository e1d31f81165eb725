//! The parts of a report, for those that sum a run up.

ghost use Rattle.std.specs.Prelude.{◌≡◌, ◌≤◌, ◌<◌, ◌^◌, IfErr, IfOk, None, length, sum_by};
ghost use Rattle.pn_types.specs.declared.limits.TheConstants.{MAX_HARTS};
ghost use Rattle.session.specs.Given.{AreGiven};
ghost use Rattle.session.specs.Sessions.{new_session, IsStartFault};
ghost use Rattle.session_spec.specs.Opening.{bad_pick};
ghost use Rattle.whole_run.specs.Recorded.{AreSeededParts};

use crate::order::take_quanta;
use crate::progress::Progress;
use pn_types::{MAX_QUANTUM, NoMemory};
use report::ReportParts;
use session::{Inputs, Session, StartFault};
use std::alloc::Global;

/// Runs a session that just began to its end.
fn parts_on<P: Progress>(
    alloc: Global,
    session: &mut Session,
    harts: u32,
    seed: u32,
    turns: u32,
    progress: &P,
) -> Result<ReportParts, NoMemory>
    requires given { AreGiven session.old.inputs }
    requires begun { session.old ≡ new_session session.old.inputs }
    requires harts { harts ≡ session.old.inputs.settings.harts }
    requires turns { (1 ≤ turns) × (turns ≤ MAX_QUANTUM) }
    ensures seeded { IfOk result (AreSeededParts session.old.inputs seed turns) }
    ensures harts { IfOk result (λ parts. length parts.harts ≤ MAX_HARTS) }
    ensures ticks { IfOk result (λ parts. sum_by (λ part. part.ticks) parts.harts < 2 ^ 64) }
{
    take_quanta(alloc, session, harts, seed, turns, progress)?;
    session.close();
    session.parts()
}

/// Runs a program with its instruments, as [`record_run`](crate::record_run) does, and returns the parts of its report.
///
/// # Errors
///
/// `NoMemory` where memory runs out; `BadPick` with the first wish at tick 0 that is refused, if one is.
pub fn run_parts<P: Progress>(
    alloc: Global,
    inputs: Inputs,
    seed: u32,
    turns: u32,
    progress: &P,
) -> Result<ReportParts, StartFault>
    requires given { AreGiven inputs }
    requires turns { (1 ≤ turns) × (turns ≤ MAX_QUANTUM) }
    ensures seeded { IfOk result (AreSeededParts inputs seed turns) }
    ensures harts { IfOk result (λ parts. length parts.harts ≤ MAX_HARTS) }
    ensures ticks { IfOk result (λ parts. sum_by (λ part. part.ticks) parts.harts < 2 ^ 64) }
    ensures picked { IfOk result (λ parts. bad_pick inputs ≡ None) }
    ensures refused { IfErr result (IsStartFault inputs) }
{
    let harts = inputs.settings.harts;
    let mut session = Session::begin(alloc, inputs)?;
    match parts_on(alloc, &mut session, harts, seed, turns, progress) {
        Ok(parts) => Ok(parts),
        Err(_) => Err(StartFault::NoMemory),
    }
}
