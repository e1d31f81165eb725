//! How a session begins.

ghost use Rattle.std.specs.Prelude.{◌≡◌, IfErr, IfOk, None, OnOk, [], false};
ghost use Rattle.std.specs.Option.{option_map};
ghost use Rattle.session_spec.specs.Inputs.{later_wishes};
ghost use Rattle.session_spec.specs.Opening.{bad_pick, first_refused};
ghost use Rattle.session.specs.KnownCosts.{AreKnown};
ghost use Rattle.session.specs.Given.{AreGiven};
ghost use Rattle.session.specs.Kept.{IsAdmitted, IsTableAfter};
ghost use Rattle.session.specs.Sessions.{IsStartFault};

use crate::fault::StartFault;
use crate::inputs::Inputs;
use crate::known_costs::KnownCosts;
use crate::later::first;
use crate::parts::refused_part;
use crate::stored::StoredState;
use pn_types::NoMemory;
use session_spec::RefusedWish;
use std::alloc::Global;

/// Makes the stored after the admissions of the opening.
///
/// # Errors
///
/// `NoMemory` where memory runs out.
fn admitted(alloc: Global, inputs: &Inputs, costs: &mut KnownCosts) -> Result<StoredState, NoMemory>
    requires given { AreGiven inputs.now }
    requires known { AreKnown inputs.now costs.old }
    ensures known { AreKnown inputs.now costs.new }
    ensures admitted { IfOk result (IsAdmitted inputs.now) }
    ensures picked { IfOk result (λ stored. first_refused stored.refused ≡ bad_pick inputs.now) }
{
    let wishes = first(alloc, inputs.checked.wishes.as_slice())?;
    let mut stored = StoredState::new(alloc, inputs)?;
    stored.admit(alloc, inputs, &wishes, costs)?;
    Ok(stored)
}

/// Returns the first wish that was refused, if one was.
fn first_refused(refused: &[RefusedWish]) -> Option<&RefusedWish>
    ensures { option_map (λ wish. wish.now) result ≡ first_refused refused.now }
{
    refused.first()
}

/// Returns an error where a wish of the opening is refused.
///
/// # Errors
///
/// `NoMemory` where memory runs out; `BadPick` with the first such wish, if there is one.
fn pick(alloc: Global, inputs: &Inputs, refused: &[RefusedWish]) -> Result<(), StartFault>
    requires { first_refused refused.now ≡ bad_pick inputs.now }
    ensures picked { OnOk result (bad_pick inputs.now ≡ None) }
    ensures refused { IfErr result (IsStartFault inputs.now) }
{
    match first_refused(refused) {
        None => Ok(()),
        Some(refused) => {
            let wish = refused_part(alloc, inputs, refused)?;
            Err(StartFault::BadPick(wish.metric, wish.focus, wish.cause))
        }
    }
}

/// Makes the stored after the opening.
///
/// # Errors
///
/// `NoMemory` where memory runs out; `BadPick` with the first wish of the opening that is refused, if one is.
pub(crate) fn opened(
    alloc: Global,
    inputs: &Inputs,
    costs: &mut KnownCosts,
) -> Result<StoredState, StartFault>
    requires given { AreGiven inputs.now }
    requires known { AreKnown inputs.now costs.old }
    ensures known { AreKnown inputs.now costs.new }
    ensures kept { IfOk result (IsTableAfter inputs.now [] false (later_wishes inputs.now)) }
    ensures picked { IfOk result (λ stored. bad_pick inputs.now ≡ None) }
    ensures refused { IfErr result (IsStartFault inputs.now) }
{
    let mut stored = admitted(alloc, inputs, costs)?;
    pick(alloc, inputs, &stored.refused)?;
    stored.open();
    Ok(stored)
}
