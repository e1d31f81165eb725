//! The children of a hypothesis at a focus, looked for among all hypotheses.

ghost use Rattle.std.specs.Prelude.{◌≡◌, ◌<◌, ◌^◌, IfSome, length, slice_get};
ghost use Rattle.resource_tree.specs.Foci.{IsFocusOf};
ghost use Rattle.w3_search.specs.Refining.{children, is_root, is_under, refinements};

use crate::axis_set::AxisSet;
use mdl_ast::Hypothesis;
use pn_types::Focus;
use resource_tree::Tree;

/// Whether the parent of a hypothesis has this name.
fn is_under(name: &[u8], hypothesis: &Hypothesis) -> bool
    ensures { result ≡ is_under name.now hypothesis.now }
{
    match &hypothesis.parent {
        Some(parent) => name == parent.bytes(),
        None => false,
    }
}

/// How many hypotheses have a parent of this name.
#[tactic(auto, unfolding(crate::specs::Refining::refinements))]
fn refinement_count(hypotheses: &[Hypothesis], name: &[u8]) -> usize
    ensures { result ≡ length (refinements hypotheses.now name.now) }
{
    let mut count = 0;
    for hypothesis in hypotheses {
        if is_under(name, hypothesis) {
            count += 1;
        }
    }
    count
}

/// The number of a hypothesis whose parent has this name, given its place among those from 0.
#[tactic(auto, unfolding(crate::specs::Refining::refinements))]
fn refinement(hypotheses: &[Hypothesis], name: &[u8], place: usize) -> Option<u32>
    requires { length hypotheses.now < 2 ^ 32 }
    ensures { result ≡ slice_get (refinements hypotheses.now name.now) place }
{
    let mut left = place;
    for (number, hypothesis) in hypotheses.iter().enumerate() {
        if !is_under(name, hypothesis) {
            continue;
        }
        if left == 0 {
            return Some(number as u32);
        }
        left -= 1;
    }
    None
}

/// Returns child number i, from 0, of hypothesis number h at a focus: first the hypotheses whose parent it is, at that focus and
/// in their order; then the hypothesis itself at each focus just below, for each of its axes in the order Code, Machine,
/// SyncObject, in the order of the tree. None exactly where there are no more.
#[tactic(auto, unfolding(crate::specs::Refining::children))]
pub fn child_node(
    h: u32,
    focus: &Focus,
    i: u32,
    hypotheses: &[Hypothesis],
    tree: &Tree,
) -> Option<(u32, Focus)>
    requires { length hypotheses.now < 2 ^ 32 }
    ensures { result ≡ slice_get (children hypotheses.now tree.now h focus.now) i }
{
    let own = hypotheses.get(h as usize)?;
    let name = own.name.bytes();
    let under = refinement_count(hypotheses, name);
    let i = i as usize;
    if i < under {
        return Some((refinement(hypotheses, name, i)?, *focus));
    }
    let axes = AxisSet::named(own.axes.as_slice());
    Some((h, axes.finer(tree, focus, i - under)?))
}
