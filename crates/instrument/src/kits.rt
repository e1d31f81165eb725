//! The kits of several plans.

ghost use Rattle.std.specs.Prelude.{◌≡◌, ◌<◌, ◌^◌, IfNone, IfOk, IfSome, Some, length, map, remove, slice_get};
ghost use Rattle.machine.specs.Cores.{In};
ghost use Rattle.pn_types.specs.declared.plan.Plan.{Plan};
ghost use Rattle.prim_code.specs.Counts.{predicted};
ghost use Rattle.instrument.specs.Needs.{need_of, sites_in, without};

use crate::kit::Kit;
use pn_types::{NoMemory, Plan};
use std::alloc::Global;

/// Returns how many sites the kits are for. None where they are more than can be counted.
pub fn sites_in(kits: &[Kit]) -> Option<usize>
    ensures { IfSome result (λ sites. sites ≡ sites_in kits.now) }
{
    let mut sites: usize = 0;
    for kit in kits {
        sites = sites.checked_add(kit.sites())?;
    }
    Some(sites)
}

/// Takes the memory of a kit for each plan.
///
/// # Errors
///
/// `NoMemory` where memory runs out.
pub fn kits_for(alloc: Global, plans: &[Plan]) -> Result<Vec<Kit>, NoMemory>
    requires { (p : Plan) → In p plans.now → predicted p < 2 ^ 32 }
    ensures { IfOk result (λ kits. kits.items ≡ map need_of plans.now) }
{
    let mut kits = Vec::new(alloc);
    for plan in plans {
        kits.push(Kit::new(alloc, plan)?)?;
    }
    Ok(kits)
}

/// Returns the place of the first kit for the plan.
fn find_kit(kits: &[Kit], plan: &Plan) -> Option<usize>
    requires { predicted plan.now < 2 ^ 32 }
    ensures within { IfSome result (λ place. place < length kits.now) }
    ensures found { IfSome result (λ place. slice_get kits.now place ≡ Some (need_of plan.now)) }
    ensures first { IfSome result (λ place. without (need_of plan.now) kits.now ≡ remove kits.now place) }
    ensures none { IfNone result (without (need_of plan.now) kits.now ≡ kits.now) }
{
    for place in 0..kits.len() {
        if kits[place].is_for(plan) {
            return Some(place);
        }
    }
    None
}

/// Removes the first kit for the plan and returns it, if there is one.
pub fn take_kit(kits: &mut Vec<Kit>, plan: &Plan) -> Option<Kit>
    requires { predicted plan.now < 2 ^ 32 }
    ensures kits { kits.new.items ≡ without (need_of plan.now) kits.old.items }
    ensures kit { IfSome result (λ kit. kit ≡ need_of plan.now) }
    ensures some { IfSome result (λ kit. In (need_of plan.now) kits.old.items) }
    ensures none { IfNone result (kits.new.items ≡ kits.old.items) }
{
    let place = find_kit(kits, plan)?;
    Some(kits.remove(place))
}
