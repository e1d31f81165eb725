//! Refusals where a session can't be opened.

ghost use Rattle.std.specs.Prelude.{◌≡◌};
ghost use Rattle.commands.specs.Given.{IsPickFault};
ghost use Rattle.refusals.specs.Refusals.{RefusalIs};
ghost use Rattle.session.specs.Sessions.{IsStartFault};
ghost use Rattle.session_spec.specs.Inputs.{Inputs as inputs};

use pn_types::{PickCause, Text};
use refusals::{Fault, Refusal};
use session::StartFault;

/// Returns the refusal of a metric at a focus.
pub fn bad_pick(metric: Text, focus: Text, cause: PickCause) -> Refusal
    ensures { result ≡ Refusal.Fault (Fault.BadPick metric focus cause) }
{
    Refusal::Fault(Fault::BadPick(metric, focus, cause))
}

/// Returns the refusal where a session can't be opened: that of the first wish at tick 0 that is refused, or `NoMemory`.
pub fn unopened(fault: StartFault) -> Refusal
    ensures { (i : inputs) → IsStartFault i fault → RefusalIs result (IsPickFault i) }
{
    match fault {
        StartFault::NoMemory => Refusal::NoMemory,
        StartFault::BadPick(metric, focus, cause) => bad_pick(metric, focus, cause),
    }
}
