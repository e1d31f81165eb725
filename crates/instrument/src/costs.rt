//! What a plan takes: words of the tool text, and slots.

ghost use Rattle.std.specs.Prelude.{◌≡◌, ◌+◌, ◌*◌, ◌<◌, ◌^◌, IfSome, length};
ghost use Rattle.rv_word.specs.Table.{decode_of};
ghost use Rattle.instrument.specs.Admission as table;

use pn_types::Var;
use relocate::moved_len;

/// Returns how many slots a plan's variables have: a counter one, a timer two.
pub fn slot_count(vars: &[Var]) -> u32
    requires { table.slot_count vars.now < 2 ^ 32 }
    ensures { result ≡ table.slot_count vars.now }
{
    let mut slots = 0;
    for var in vars {
        slots += if var.timer { 2 } else { 1 };
    }
    slots
}

/// Returns how many words the base block of a word has.
pub fn base_len(word: u32) -> u32
    ensures len { result ≡ table.base_len word }
    ensures short { result < 8 }
{
    3 + moved_len(word)
}

/// Returns how many entries of the agenda are enough to place `sites` sites, and to drop them and the sites of `rooms` rooms: four
/// to place a site, and three to drop it. None where they are more than can be counted.
pub fn entries_for(rooms: usize, sites: usize) -> Option<usize>
    ensures { IfSome result (λ entries. entries ≡ 3 * rooms + 7 * sites) }
{
    let drops = rooms.checked_mul(3)?;
    drops.checked_add(sites.checked_mul(7)?)
}

/// Returns how many takes of a space are needed for `count` sites or instruments: two each. None where they are more than a space
/// can reserve.
pub fn takes_for(count: usize) -> Option<u32>
    ensures { IfSome result (λ takes. takes ≡ 2 * count) }
{
    u32::try_from(count.checked_mul(2)?).ok()
}
