//! Filling up the arrays of the tool text where nothing was put.

ghost use Rattle.std.specs.Prelude.{◌≡◌, ◌-◌, ◌≤◌, ◌++◌, length, replicate, vec_capacity};
ghost use Rattle.code_store.specs.declared.word_use.WordUse.TheVariants.{Unwritten};

use crate::slot::Slot;
use crate::word_use::WordUse;

/// Fills up with blank slots until there are `count`. It takes no memory.
pub fn fill_slots(slots: &mut Vec<Slot>, blank: &Slot, count: usize)
    requires { count ≤ vec_capacity slots.old }
    ensures items { slots.new.items ≡ slots.old.items ++ replicate (count - length slots.old.items) blank.now }
    ensures capacity { vec_capacity slots.new ≡ vec_capacity slots.old }
{
    for _ in 0..count.saturating_sub(slots.len()) {
        slots.push_reserved(blank.copy());
    }
}

/// Fills up with words to which nothing was put until there are `count`. It takes no memory.
pub fn fill_uses(uses: &mut Vec<WordUse>, count: usize)
    requires { count ≤ vec_capacity uses.old }
    ensures items { uses.new.items ≡ uses.old.items ++ replicate (count - length uses.old.items) Unwritten }
    ensures capacity { vec_capacity uses.new ≡ vec_capacity uses.old }
{
    for _ in 0..count.saturating_sub(uses.len()) {
        uses.push_reserved(WordUse::Unwritten);
    }
}
