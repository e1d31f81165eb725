//! The memory that admissions need.

ghost use Rattle.std.specs.Prelude.{◌≡◌, ℕ, ◌+◌, ◌<◌, ◌^◌, IfOk, IfSome, OnOk, IsOk, IsSome, length};
ghost use Rattle.prim_code.specs.Counts.{predicted};
ghost use Rattle.instrument.specs.Needs.{need_of, sites_in};
ghost use Rattle.instrument.specs.Placers.{HasMemory};

use crate::kit::Kit;
use crate::kits::sites_in;
use crate::roster::Roster;
use crate::tool_text::ToolText;
use pn_types::{NoMemory, Plan};
use std::alloc::{AllocError, Global};

/// Reserves memory for the admission of `plans` plans that have `sites` sites together, where `count` plans were admitted before.
///
/// # Errors
///
/// `NoMemory` where memory or numbers run out.
pub fn take_memory(
    text: &mut ToolText,
    roster: &mut Roster,
    count: u64,
    sites: usize,
    plans: usize,
) -> Result<(), NoMemory>
    ensures memory { OnOk result (HasMemory text.new roster.new count sites plans) }
    ensures kept { (sites plans : ℕ) → HasMemory text.old roster.old count sites plans → HasMemory text.new roster.new count sites plans }
    ensures program { text.new.program ≡ text.old.program }
    ensures book { text.new.book ≡ text.old.book }
    ensures instruments { roster.new.instruments ≡ roster.old.instruments }
{
    if count.checked_add(plans as u64).is_none() {
        return Err(AllocError);
    }
    text.reserve(sites)?;
    roster.reserve(plans)
}

/// Returns how many sites the kits are for, and `more` beside them. None where they are more than can be counted.
fn sites_with(kits: &[Kit], more: usize) -> Option<usize>
    ensures { IfSome result (λ sites. sites ≡ sites_in kits.now + more) }
{
    sites_in(kits)?.checked_add(more)
}

/// Makes a kit for a plan, with memory for its admission beside those of the kits.
///
/// # Errors
///
/// `NoMemory` where memory or numbers run out.
fn new_kit(
    alloc: Global,
    text: &mut ToolText,
    roster: &mut Roster,
    count: u64,
    kits: &[Kit],
    plan: &Plan,
) -> Result<Kit, NoMemory>
    requires words { predicted plan.now < 2 ^ 32 }
    ensures kit { IfOk result (λ kit. kit ≡ need_of plan.now) }
    ensures memory { OnOk result (HasMemory text.new roster.new count (sites_in kits.now + length plan.now.sites) (length kits.now + 1)) }
    ensures kept { (sites plans : ℕ) → HasMemory text.old roster.old count sites plans → HasMemory text.new roster.new count sites plans }
    ensures program { text.new.program ≡ text.old.program }
    ensures book { text.new.book ≡ text.old.book }
    ensures instruments { roster.new.instruments ≡ roster.old.instruments }
{
    let kit = Kit::new(alloc, plan)?;
    let Some(sites) = sites_with(kits, plan.sites.as_slice().len()) else {
        return Err(AllocError);
    };
    take_memory(text, roster, count, sites, kits.len() + 1)?;
    Ok(kit)
}

/// Returns the kit for a plan: `kit`, which has the memory, if it is there, and else a new one, beside the other kits.
///
/// # Errors
///
/// `NoMemory` where a new one is needed, and memory or numbers run out.
pub fn kit_for(
    alloc: Global,
    text: &mut ToolText,
    roster: &mut Roster,
    count: u64,
    kits: &[Kit],
    kit: Option<Kit>,
    plan: &Plan,
) -> Result<Kit, NoMemory>
    requires words { predicted plan.now < 2 ^ 32 }
    requires kit { IfSome kit (λ kit. kit ≡ need_of plan.now) }
    requires memory { IfSome kit
        (λ kit. HasMemory text.old roster.old count (sites_in kits.now + length plan.now.sites) (length kits.now + 1)) }
    ensures kit { IfOk result (λ kit. kit ≡ need_of plan.now) }
    ensures memory { OnOk result (HasMemory text.new roster.new count (sites_in kits.now + length plan.now.sites) (length kits.now + 1)) }
    ensures ready { IsSome kit → IsOk result }
    ensures kept { (sites plans : ℕ) → HasMemory text.old roster.old count sites plans → HasMemory text.new roster.new count sites plans }
    ensures program { text.new.program ≡ text.old.program }
    ensures book { text.new.book ≡ text.old.book }
    ensures instruments { roster.new.instruments ≡ roster.old.instruments }
{
    match kit {
        Some(kit) => Ok(kit),
        None => new_kit(alloc, text, roster, count, kits, plan),
    }
}
