//! The slots of instruments.

ghost use Rattle.std.specs.Prelude.{◌≡◌, ◌+◌, ◌^◌, ◌<◌, ◌≤◌, [], IfOk, length, nat_lt, vec_capacity, if◌then◌else◌};
ghost use Rattle.tool_space.specs.Rooms.{IsTaken, after_give};
ghost use Rattle.tramp_spec.specs.Banks.{first_slot};
ghost use Rattle.instrument.specs.Admission as table;
ghost use Rattle.instrument.specs.Admission.{slot_count};
ghost use Rattle.instrument.specs.Spaces.{first_or, slots_of_placed};

use crate::costs::slot_count;
use crate::instrument::Instrument;
use pn_types::{FIRST_SLOT, NoMemory, Placed, Var};
use std::alloc::Global;
use tool_space::Space;

/// Returns the first slot of an instrument.
fn first_slot_of(placed: &Placed) -> u32
    ensures { result ≡ first_or first_slot placed.now.slots }
{
    match placed.slots.as_slice().first() {
        Some(slot) => *slot,
        None => FIRST_SLOT,
    }
}

/// Gives back the slots of an instrument, if it has any.
pub fn give_slots(slots: &mut Space, placed: &Placed)
    requires few { slot_count placed.now.vars < 2 ^ 32 }
    requires reserved { 0 < slot_count placed.now.vars → 0 < slots.old.gives }
    requires taken { 0 < slot_count placed.now.vars → IsTaken slots.old (slots_of_placed placed.now).at (slots_of_placed placed.now).len }
    ensures { slots.new ≡ (if nat_lt 0 (slot_count placed.now.vars)
        then after_give slots.old (slots_of_placed placed.now).at (slots_of_placed placed.now).len else slots.old) }
{
    let count = slot_count(placed.vars.as_slice());
    if count > 0 {
        slots.give(u64::from(first_slot_of(placed)), count);
    }
}

/// Returns the slots of variables, which follow each other from `first` on. `slots` gives the memory.
pub fn slots_from(slots: Vec<u32>, first: u32, vars: &[Var]) -> Vec<u32>
    requires few { first + slot_count vars.now < 2 ^ 32 }
    requires empty { slots.items ≡ [] }
    requires room { length vars.now ≤ vec_capacity slots }
    ensures { result.items ≡ table.slots_from first vars.now }
{
    let mut slots = slots;
    let mut slot = first;
    for var in vars {
        slots.push_reserved(slot);
        slot += if var.timer { 2 } else { 1 };
    }
    slots
}

/// Returns a copy of variables.
///
/// # Errors
///
/// `NoMemory` where memory runs out.
pub fn copy_vars(alloc: Global, vars: &[Var]) -> Result<Vec<Var>, NoMemory>
    ensures { IfOk result (λ copies. copies.items ≡ vars.now) }
{
    let mut copies = Vec::new(alloc);
    for var in vars {
        copies.push(Var {
            name: var.name.copy(alloc)?,
            timer: var.timer,
            initially: var.initially,
        })?;
    }
    Ok(copies)
}
