//! Consecutive words.

ghost use Rattle.std.specs.Prelude.{◌≡◌, ℕ, ◌<◌, ◌≤◌, ◌+◌, ◌*◌, ◌^◌, false, length};
ghost use Rattle.std.specs.Option.{option_copied};
ghost use Rattle.tramp_spec.specs.Codes.{is_word_of};
ghost use Rattle.code_store.specs.Views.{at_place};

use crate::slot::Slot;

/// The number of the word at an address in a run of words that begins at `first`, if the run has one there, and else a number that
/// is too great. The distance is rotated by two bits: one that is below 0 or no multiple of 4 becomes great, so that one test finds
/// all of these.
#[inline(always)]
pub fn place_of(first: u64, at: u64) -> u64
    ensures place { (len : ℕ) → first + 4 * len < 2 ^ 64 → result < len → at ≡ first + 4 * result }
    ensures outside { (len : ℕ) → first + 4 * len < 2 ^ 64 → len ≤ result → is_word_of first (4 * len) at ≡ false }
{
    let away = at.wrapping_sub(first);
    away / 4 + away % 4 * 0x4000_0000_0000_0000
}

/// The slots of the words from an address on.
#[derive(Drop)]
pub struct Span {
    pub at: u64,
    pub slots: Vec<Slot>,
    ghost ends: { at + 4 * length slots.items < 2 ^ 64 },
}

impl Span {
    /// The slot of the word at an address, if the span has one there.
    #[inline(always)]
    pub fn get(&self, at: u64) -> Option<&Slot>
        ensures { option_copied result ≡ at_place self.now.at self.now.slots.items at }
    {
        let i = place_of(self.at, at);
        if i < self.slots.len() as u64 {
            Some(&self.slots[i as usize])
        } else {
            None
        }
    }
}
