//! What of a configuration can't be measured or tested.

ghost use Rattle.mdl_check.specs.Sound.{IsSoundCheck};

use crate::causes::cause_meaning;
use crate::texts::{add, name_text};
use mdl_ast::{Hypothesis, Item, Wish};
use mdl_check::Checked;
use mdl_plan::{PlanError, PlanFault, PlanIndex, plan};
use pn_types::{CodePart, Focus, NoMemory, PickCause};
use prim_code::predicted;
use resource_tree::Tree;
use std::alloc::{AllocError, Global};

/// The whole program.
const WHOLE: Focus = Focus {
    code: CodePart::All,
    hart: None,
    object: None,
};

/// What measuring a metric at a focus would cost.
#[derive(Clone, Copy, Drop)]
enum Cost {
    /// This many words at its points.
    Words(u64),
    /// It can't be measured.
    Refused(PickCause),
    /// There is no such metric.
    Unknown,
}

/// What plans are made from.
#[derive(Clone, Copy, Drop)]
pub(crate) struct Plans<'a> {
    pub(crate) checked: &'a Checked,
    pub(crate) tree: &'a Tree,
    pub(crate) index: &'a PlanIndex,
}

/// Returns the cause of a fault.
fn cause_of(fault: PlanFault) -> PickCause {
    match fault {
        PlanFault::NoConstraint(axis) => PickCause::NoConstraint(axis),
        PlanFault::TooManySites(count) => PickCause::TooManySites(count),
        PlanFault::TooManyStmts(at) => PickCause::TooManyStmts(at),
    }
}

impl Plans<'_> {
    /// Returns what it would cost to measure the metric of a name at a focus.
    fn cost(&self, alloc: Global, name: &[u8], focus: &Focus) -> Result<Cost, NoMemory>
        requires { IsSoundCheck self.now.checked.now }
    {
        let metrics = self.checked.metrics.as_slice();
        let place = metrics
            .iter()
            .position(|metric| metric.name.bytes() == name);
        let Some(place) = place else {
            return Ok(Cost::Unknown);
        };
        let Ok(number) = u32::try_from(place) else {
            return Ok(Cost::Unknown);
        };
        match plan(alloc, self.checked, number, focus, self.tree, self.index) {
            Ok(plan) => Ok(Cost::Words(predicted(&plan))),
            Err(PlanError::NoMemory) => Err(AllocError),
            Err(PlanError::Fault(fault)) => Ok(Cost::Refused(cause_of(fault))),
        }
    }

    /// Adds a line on a wish that will be refused.
    fn add_wish(&self, alloc: Global, text: &mut String, wish: &Wish) -> Result<(), NoMemory>
        requires { IsSoundCheck self.now.checked.now }
    {
        let Some(focus) = self.tree.selected(wish.focus.bytes()) else {
            return Ok(());
        };
        let Cost::Refused(cause) = self.cost(alloc, wish.metric.bytes(), &focus)? else {
            return Ok(());
        };
        let line = wish.line.to_string(alloc)?;
        let cause = cause.to_string(alloc)?;
        let meaning = cause_meaning(cause.as_str());
        add(
            text,
            "pd: the wish of line {} will be refused ({}). {}\n",
            &[line.as_str(), cause.as_str(), meaning],
        )
    }

    /// Adds a line on a hypothesis, if its test of the whole program costs more than a search allows.
    fn add_hypothesis(
        &self,
        alloc: Global,
        text: &mut String,
        hypothesis: &Hypothesis,
        most: u32,
    ) -> Result<(), NoMemory>
        requires { IsSoundCheck self.now.checked.now }
    {
        match self.cost(alloc, hypothesis.metric.bytes(), &WHOLE)? {
            Cost::Words(words) if words > u64::from(most) => {
                let words = words.to_string(alloc)?;
                let name = name_text(hypothesis.name.bytes());
                add(
                    text,
                    "pd: the search's cost is too small for {}, which is never tested: give it {} or more\n",
                    &[name, words.as_str()],
                )
            }
            _ => Ok(()),
        }
    }

    /// Adds a line on each hypothesis that a search can't test.
    fn add_search(&self, alloc: Global, text: &mut String) -> Result<(), NoMemory>
        requires { IsSoundCheck self.now.checked.now }
    {
        let Some(search) = self.checked.search else {
            return Ok(());
        };
        let hypotheses = self.checked.hypotheses.as_slice();
        if hypotheses.is_empty() {
            text.push_str(
                "pd: the search has nothing to test: write include hypotheses; or some of your own\n",
            )?;
        }
        for hypothesis in hypotheses
            .iter()
            .filter(|hypothesis| hypothesis.parent.is_none())
        {
            self.add_hypothesis(alloc, text, hypothesis, search.cost)?;
        }
        Ok(())
    }
}

/// Adds a line on each wish that will be refused, and on each hypothesis that the search can't test.
pub(crate) fn add_plan_findings(
    alloc: Global,
    text: &mut String,
    plans: &Plans<'_>,
    items: &[Item],
) -> Result<(), NoMemory>
    requires { IsSoundCheck plans.now.checked.now }
{
    for item in items {
        if let Item::Wish(wish) = item
            && wish.show
        {
            plans.add_wish(alloc, text, wish)?;
        }
    }
    plans.add_search(alloc, text)
}
