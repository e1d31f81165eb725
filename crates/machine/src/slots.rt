//! The slots of an instrument in a hart's bank.

ghost use Rattle.std.specs.Prelude.{◌≡◌, ◌+◌, ◌<◌, ◌^◌, length, slice_index, slice_set};
ghost use Rattle.tramp_spec.specs.Slots.{places_of, read_place, reading_of, set_place, set_places};

use frame_walk::Values;
use pn_types::{Placed, Var};

/// Puts a value into a slot, if the bank has it.
fn set_slot(bank: &mut [u64], slot: u64, value: u64)
    ensures { bank.new ≡ slice_set bank.old slot value }
{
    if slot < bank.len() as u64 {
        bank[slot as usize] = value;
    }
}

/// What a slot holds, and 0 where the bank doesn't have it.
fn slot_of(bank: &[u64], slot: u64) -> u64
    ensures { result ≡ slice_index bank.now slot }
{
    if slot < bank.len() as u64 {
        bank[slot as usize]
    } else {
        0
    }
}

/// Sets the slots of a variable: a counter's to its value; a timer's second to its number of starts, and its first to 0, or to
/// minus the ticks where that number isn't 0.
fn set_variable(bank: &mut [u64], timer: bool, slot: u64, value: u64, ticks: u64)
    requires { slot + 1 < 2 ^ 64 }
    ensures { bank.new ≡ set_place timer slot value ticks bank.old }
{
    if timer {
        set_slot(bank, slot + 1, value);
        let sum = if value == 0 {
            0
        } else {
            0u64.wrapping_sub(ticks)
        };
        set_slot(bank, slot, sum);
    } else {
        set_slot(bank, slot, value);
    }
}

/// Sets the slots of all variables of an instrument to these values.
pub fn set_variables(bank: &mut [u64], instrument: &Placed, values: &Values, ticks: u64)
    requires { length values.now.values ≡ length instrument.now.vars }
    ensures { bank.new ≡ set_places (places_of instrument.now) values.now.values ticks bank.old }
{
    let slots = instrument.slots.as_slice();
    let vars = instrument.vars.as_slice();
    for i in 0..slots.len().min(vars.len()) {
        set_variable(bank, vars[i].timer, slots[i] as u64, values.get(i), ticks);
    }
}

/// What is read of a variable: a counter's value, or a timer's sum with the ticks where it runs.
fn read_variable(bank: &[u64], timer: bool, slot: u64, ticks: u64) -> u64
    requires { slot + 1 < 2 ^ 64 }
    ensures { result ≡ read_place timer slot ticks bank.now }
{
    let value = slot_of(bank, slot);
    if !timer {
        return value;
    }
    let running = if slot_of(bank, slot + 1) == 0 {
        0
    } else {
        ticks
    };
    value.wrapping_add(running)
}

/// The reading of an instrument: that of its first variable, or 0 where it has none.
pub fn read_first(bank: &[u64], instrument: &Placed, ticks: u64) -> u64
    ensures { result ≡ reading_of instrument.now ticks bank.now }
{
    let Some(slot) = instrument.slots.as_slice().first() else {
        return 0;
    };
    let Some(var) = instrument.vars.as_slice().first() else {
        return 0;
    };
    read_variable(bank, var.timer, *slot as u64, ticks)
}
