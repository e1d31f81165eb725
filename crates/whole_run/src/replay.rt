//! Runs along quanta that are told.

ghost use Rattle.std.specs.Prelude.{◌≡◌, ◌≤◌, ◌<◌, false, IfErr, IfOk, None, Some, length};
ghost use Rattle.std.specs.List.{AllByRecursion};
ghost use Rattle.pn_types.specs.declared.limits.TheConstants.{MAX_QUANTA};
ghost use Rattle.quanta_log.specs.Spelling.{CanSpell, IsQuantum};
ghost use Rattle.quanta_log.specs.declared.version.Version.TheVariants as version;
ghost use Rattle.session.specs.Given.{AreGiven};
ghost use Rattle.session.specs.Sessions.{new_session};
ghost use Rattle.session_spec.specs.Opening.{bad_pick};
ghost use Rattle.session_spec.specs.Work.{IsWhole};
ghost use Rattle.whole_run.specs.Recorded.{report_of};
ghost use Rattle.whole_run.specs.Replayed.{misfit_of, IsMisfit, IsReplayFault};

use crate::misfit::{Misfit, ReplayFault};
use crate::progress::Progress;
use pn_types::Quantum;
use report::report;
use session::{Inputs, Session};
use std::alloc::Global;

/// Lets the harts of a session that just began take the quanta that are told.
fn follow<P: Progress>(
    session: &mut Session,
    quanta: &[Quantum],
    progress: &P,
) -> Result<(), ReplayFault>
    requires begun { session.old ≡ new_session session.old.inputs }
    requires few { length quanta.now ≤ MAX_QUANTA }
    requires quanta { AllByRecursion (IsQuantum session.old.inputs.settings.harts) quanta.now }
    ensures inputs { session.new.inputs ≡ session.old.inputs }
    ensures going { session.new.closed ≡ false }
    ensures fit { IfOk result (λ done. misfit_of session.old.inputs quanta.now ≡ None) }
    ensures taken { IfOk result (λ done. session.new.quanta ≡ quanta.now) }
    ensures whole { IfOk result (λ done. IsWhole session.old.inputs quanta.now) }
    ensures misfit { IfErr result (IsMisfit session.old.inputs quanta.now) }
{
    'quanta: for (number, told) in quanta.iter().enumerate() {
        let hart = told.hart as u32;
        let Some(taken) = session.quantum(told.worker as u32, hart, told.turns as u32)? else {
            return Err(ReplayFault::Misfit(Misfit::NotRunnable(number as u64, hart)));
        };
        if taken.owns != told.owns {
            return Err(ReplayFault::Misfit(Misfit::OtherOwns(
                number as u64,
                told.owns as u32,
                taken.owns as u32,
            )));
        }
        progress.see(session);
    }
    if !session.done() {
        return Err(ReplayFault::Misfit(Misfit::Unfinished));
    }
    Ok(())
}

/// Runs a session that just began along the quanta, to its end. Returns the text of its report.
fn run_along<P: Progress>(
    alloc: Global,
    session: &mut Session,
    quanta: &[Quantum],
    skipped: u32,
    progress: &P,
) -> Result<Vec<u8>, ReplayFault>
    requires begun { session.old ≡ new_session session.old.inputs }
    requires few { length quanta.now ≤ MAX_QUANTA }
    requires quanta { AllByRecursion (IsQuantum session.old.inputs.settings.harts) quanta.now }
    ensures fit { IfOk result (λ report. misfit_of session.old.inputs quanta.now ≡ None) }
    ensures whole { IfOk result (λ report. IsWhole session.old.inputs quanta.now) }
    ensures report { IfOk result (λ report. report.items ≡ report_of session.old.inputs quanta.now skipped) }
    ensures misfit { IfErr result (IsMisfit session.old.inputs quanta.now) }
{
    follow(session, quanta, progress)?;
    session.close();
    let parts = session.parts()?;
    Ok(report(alloc, &parts, skipped)?)
}

/// Runs a program with its instruments along quanta that are told, such as those that were read from a log with these settings.
/// Returns the text of the report, in which `skipped` function symbols are no procedures.
///
/// # Errors
///
/// `NotOpened` with `NoMemory` where memory runs out, and with `BadPick` and the first wish at tick 0 that is refused, if one is;
/// `Misfit` with the first quantum that isn't the run's, or where the quanta end before the run does.
pub fn replay_run<P: Progress>(
    alloc: Global,
    inputs: Inputs,
    quanta: &[Quantum],
    skipped: u32,
    progress: &P,
) -> Result<Vec<u8>, ReplayFault>
    requires given { AreGiven inputs }
    requires quanta { CanSpell version.Two inputs.settings quanta.now }
    ensures picked { IfOk result (λ report. bad_pick inputs ≡ None) }
    ensures fit { IfOk result (λ report. misfit_of inputs quanta.now ≡ None) }
    ensures whole { IfOk result (λ report. IsWhole inputs quanta.now) }
    ensures report { IfOk result (λ report. report.items ≡ report_of inputs quanta.now skipped) }
    ensures refused { IfErr result (IsReplayFault inputs quanta.now) }
{
    let mut session = Session::begin(alloc, inputs)?;
    run_along(alloc, &mut session, quanta, skipped, progress)
}
