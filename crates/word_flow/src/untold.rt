//! The ticks that numbers don't tell.

ghost use Rattle.std.specs.Prelude.{◌≡◌, ◌-◌, count_by};
ghost use Rattle.word_flow.specs.HartEnds.{is_stopped_outside};
ghost use Rattle.word_flow.specs.Numbers.{told_ticks};

use crate::hart_end::HartEnd;

/// Returns whether a hart stopped where a text has no word.
fn is_stopped_outside(at: u64, words: &[u32], end: &HartEnd) -> bool
    ensures { result ≡ is_stopped_outside (record { at = at; words = words.now }) end.now }
{
    end.is_stopped
        && (end.pc < at || (end.pc - at) % 4 != 0 || (end.pc - at) / 4 >= words.len() as u64)
}

/// Returns how many harts stopped where a text has no word.
fn harts_stopped_outside(at: u64, words: &[u32], ends: &[HartEnd]) -> usize
    ensures { result ≡ count_by (is_stopped_outside (record { at = at; words = words.now })) ends.now }
{
    ends.iter()
        .filter(|end| is_stopped_outside(at, words, *end))
        .count()
}

/// Returns how many of a run's `ticks` the numbers of its words don't tell: 0 where they tell all, or more than there are.
pub fn untold_ticks(ticks: u64, at: u64, words: &[u32], ends: &[HartEnd], numbers: &[u64]) -> u64
    ensures { result ≡ ticks - told_ticks (record { at = at; words = words.now }) ends.now numbers.now }
{
    let mut rest = ticks.saturating_sub(harts_stopped_outside(at, words, ends) as u64);
    for number in numbers {
        rest = rest.saturating_sub(*number);
    }
    rest
}
