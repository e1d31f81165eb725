//! Pairs for which instruments are wanted.

ghost use Rattle.std.specs.Prelude.{◌≡◌, IfOk};
ghost use Rattle.session.specs.Candidates.{IsCandidate, IsPairOf, HasItsHarts, first_hist};
ghost use Rattle.session.specs.Given.{AreGiven};

use crate::inputs::Inputs;
use crate::planning::plan_or_fault;
use fold_hist::Hist;
use mdl_plan::PlanFault;
use pn_types::{Focus, NoMemory, Plan};
use std::alloc::Global;

/// A metric at a focus for which an instrument is wanted.
#[derive(Drop)]
pub(crate) struct Candidate {
    // The node of the search that it is to test. None where the pair was wished.
    pub(crate) node: Option<u32>,
    pub(crate) metric: u32,
    pub(crate) focus: Focus,
    // Why there is no plan of it, if there is none.
    pub(crate) fault: Option<PlanFault>,
    // For its samples. None where a node is tested.
    pub(crate) hist: Option<Hist>,
}

/// Returns an empty histogram, where no node is tested.
fn first_hist(alloc: Global, inputs: &Inputs, node: Option<u32>) -> Result<Option<Hist>, NoMemory>
    requires { AreGiven inputs.now }
    ensures { IfOk result (λ hist. hist ≡ first_hist inputs.now node) }
{
    if node.is_some() {
        return Ok(None);
    }
    Ok(Some(Hist::new(alloc, inputs.settings.bins)?))
}

/// Prepares what the admission of a metric at a focus needs: its plan, or one of nothing and why there is none; and where no node
/// is to be tested a histogram.
///
/// # Errors
///
/// `NoMemory` where memory runs out.
pub(crate) fn prepare(
    alloc: Global,
    inputs: &Inputs,
    node: Option<u32>,
    metric: u32,
    focus: Focus,
) -> Result<(Plan, Candidate), NoMemory>
    requires given { AreGiven inputs.now }
    requires within { HasItsHarts inputs.now focus }
    ensures candidate { IfOk result (λ made. IsCandidate inputs.now made.0 made.1) }
    ensures pair { IfOk result (λ made. IsPairOf node metric focus made.1) }
{
    let hist = first_hist(alloc, inputs, node)?;
    let (plan, fault) = plan_or_fault(alloc, inputs, metric, &focus)?;
    Ok((
        plan,
        Candidate {
            node,
            metric,
            focus,
            fault,
            hist,
        },
    ))
}
