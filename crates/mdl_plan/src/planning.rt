//! The plan.

ghost use Rattle.std.specs.Prelude.{◌≡◌, ◌<◌, ◌≤◌, ◌^◌, length, map, slice_get, IfOk, Ok, Some};
ghost use Rattle.std.specs.List.{AllByRecursion};
ghost use Rattle.std.specs.List.Sorted.{IsStrictlyIncreasing};
ghost use Rattle.mdl_ast.specs.declared.metric.Metric.{Metric};
ghost use Rattle.mdl_check.specs.Sound.{IsSoundCheck};
ghost use Rattle.prim_code.specs.Counts.{predicted};
ghost use Rattle.prim_code.specs.Fitting.{IsMeasurable};
ghost use Rattle.mdl_plan.specs.Fitting.{most_words, HasFewConds, HasLowObjects};
ghost use Rattle.mdl_plan.specs.Plans.{plan_at, plan_of, IsPlanOr, IsPlanOver};

use crate::active::{Active, active_at};
use crate::fault::{PlanError, PlanFault};
use crate::index::PlanIndex;
use crate::planner::Planner;
use crate::variables::vars;
use mdl_ast::Metric;
use mdl_check::Checked;
use pn_types::{Focus, Plan, Seq};
use resource_tree::Tree;
use std::alloc::Global;

/// The most sites that a plan can have.
const MOST_SITES: u32 = 4096;

/// The plan of a metric at a focus that makes these constraints active.
fn planned(
    alloc: Global,
    metric: &Metric,
    active: &Active<'_>,
    focus: &Focus,
    tree: &Tree,
    index: &PlanIndex,
) -> Result<Plan, PlanError>
    ensures answer { IsPlanOr result (plan_at tree.now focus.now index.now.procs index.now.points metric.now (Ok active.now)) }
    ensures narrow { IfOk result (λ plan. AllByRecursion (λ v. v.initially < 2 ^ 32) plan.vars) }
{
    let counters = active.counters(alloc)?;
    let planner = Planner::of(alloc, metric, active, &counters, focus, tree, index)?;
    let reached = planner.reached(alloc, index)?;
    let sites = planner.count(&reached);
    if sites > MOST_SITES {
        return Err(PlanError::Fault(PlanFault::TooManySites(sites)));
    }
    let sites = planner.sites(alloc, &reached)?;
    let opens = planner.opens(alloc, index.procs(), &reached)?;
    let vars = vars(alloc, metric, active, &counters)?;
    Ok(Plan {
        vars: Seq::from_vec(vars),
        sites: Seq::from_vec(sites),
        opens: Seq::from_vec(opens),
    })
}

/// Returns the plan of a checked configuration's metric at a focus: its variables, and the statements that act on them at the
/// points of a program.
///
/// The metric's own variable stands first, and then those of the active counter constraints. A focus below the root of
/// the code or of the objects makes the metric's constraint for that hierarchy active. An active replacement's blocks
/// stand in the place of the metric's own, and so does what it is at first; the object's goes before the code's. What is
/// constrained acts only where no active counter is 0.
///
/// The statements of a point stand kind by kind: entry, after, return, call. Of one kind those that are prepended come
/// first, the counters' and then the base's, and then those that are appended, the base's and then the counters'.
///
/// For each procedure at whose entry at least one entry statement stands, the plan has its range and these statements, by
/// address: they tell a warm start what an open procedure has counted and started.
///
/// A plan has one to three variables, and at most 4,096 sites at addresses of the points, each with 1 to 32 statements, as
/// many as a procedure with its range has. Where what was checked was parsed or shipped, a statement has at most 18
/// conditions, so that the plan's mini blocks have at most 13,373,440 words together. Where moreover the tree's objects lie
/// below 2^31, as those of every image do, and the points ascend, the tool's code measures the plan: the conditions are on
/// counters of the plan and on the arguments 0 to 7, a statement counts a counter or starts and stops a timer, and no number
/// in it is 2^31 or above.
///
/// The tree's procedures are the index's, and the points are theirs, by address. The work is n log n in the points of the
/// procedures that the insertions select, and linear in the configuration's constraints, which are looked through for each
/// name that the metric has of them; four lists of a number for each procedure are set to 0.
///
/// # Errors
///
/// Out of memory, or the first of these that holds:
///
/// - `NoConstraint`: the metric has no constraint for a hierarchy below whose root the focus is; the code's goes first.
/// - `TooManySites`: more than 4,096 points have statements.
/// - `TooManyStmts`: a point has more than 32.
pub fn plan(
    alloc: Global,
    checked: &Checked,
    metric: u32,
    focus: &Focus,
    tree: &Tree,
    index: &PlanIndex,
) -> Result<Plan, PlanError>
    requires { metric < length checked.now.metrics }
    ensures answer { (m : Metric) → slice_get checked.now.metrics metric ≡ Some m →
        IsPlanOr result (plan_of checked.now.constraints m focus.now tree.now index.now.procs index.now.points) }
    ensures within { IfOk result (IsPlanOver index.now.points) }
    // What is checked is sound where it was parsed or shipped.
    ensures few_conds { IsSoundCheck checked.now → IfOk result HasFewConds }
    ensures cost { IsSoundCheck checked.now → IfOk result (λ plan. predicted plan ≤ most_words) }
    // The tree of an image's objects has low ones, and the points of an image ascend.
    ensures measurable { IsSoundCheck checked.now → HasLowObjects tree.now
        → IsStrictlyIncreasing (map (λ p. p.at) index.now.points) → IfOk result IsMeasurable }
{
    let metric = &checked.metrics.as_slice()[metric as usize];
    let active = active_at(checked.constraints.as_slice(), metric, focus)?;
    planned(alloc, metric, &active, focus, tree, index)
}
