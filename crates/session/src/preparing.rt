//! Takes the memory that is needed to look at wishes.

ghost use Rattle.std.specs.Prelude.{◌<◌, IfOk};
ghost use Rattle.machine.specs.Cores.{In};
ghost use Rattle.mdl_check.specs.declared.checked.CheckedWish.{CheckedWish};
ghost use Rattle.session.specs.Candidates.{AreOfWishes, IsOfWish};
ghost use Rattle.session.specs.Given.{AreGiven, IsWishOf};
ghost use Rattle.session.specs.Tables.{IsCount};

use crate::candidate::{Candidate, prepare};
use crate::inputs::Inputs;
use crate::planning::nothing;
use mdl_check::CheckedWish;
use pn_types::{NoMemory, Plan};
use std::alloc::Global;
use std::collections::VecDeque;

/// The plans of wishes, and what else each needs, in their order. A wish to drop a pair needs nothing, and has a plan of nothing.
#[derive(Drop)]
pub(crate) struct Prepared {
    pub(crate) plans: Vec<Plan>,
    pub(crate) candidates: VecDeque<Option<Candidate>>,
}

/// Prepares what is needed to look at a wish.
///
/// # Errors
///
/// `NoMemory` where memory runs out.
fn prepare_wish(
    alloc: Global,
    inputs: &Inputs,
    wish: &CheckedWish,
) -> Result<(Plan, Option<Candidate>), NoMemory>
    requires given { AreGiven inputs.now }
    requires wish { IsWishOf inputs.now wish.now }
    ensures { IfOk result (λ made. IsOfWish inputs.now wish.now made.0 made.1) }
{
    if !wish.show {
        return Ok((nothing(alloc), None));
    }
    let (plan, candidate) = prepare(alloc, inputs, None, wish.metric, wish.focus)?;
    Ok((plan, Some(candidate)))
}

/// Prepares what is needed to look at wishes.
///
/// # Errors
///
/// `NoMemory` where memory runs out.
pub(crate) fn prepare_wishes(
    alloc: Global,
    inputs: &Inputs,
    wishes: &[CheckedWish],
) -> Result<Prepared, NoMemory>
    requires given { AreGiven inputs.now }
    requires wishes { (w : CheckedWish) → In w wishes.now → IsWishOf inputs.now w }
    ensures { IfOk result (λ p. AreOfWishes inputs.now wishes.now p.plans.items p.candidates.items) }
{
    let mut plans = Vec::new(alloc);
    let mut candidates = VecDeque::new(alloc);
    for wish in wishes {
        let (plan, candidate) = prepare_wish(alloc, inputs, wish)?;
        plans.push(plan)?;
        candidates.push_back(candidate)?;
    }
    Ok(Prepared { plans, candidates })
}

/// Returns how many wishes at the front are due at a time or before.
pub(crate) fn count_due(wishes: &[CheckedWish], time: u64) -> usize
    ensures { IsCount time wishes.now result }
{
    let mut count = 0;
    while count < wishes.len() && wishes[count].at <= time {
        count += 1;
    }
    count
}
