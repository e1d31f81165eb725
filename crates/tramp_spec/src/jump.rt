//! Jumps of the tool.

ghost use Rattle.std.specs.Prelude.{◌≡◌};
ghost use Rattle.tramp_spec.specs.Jumps as jumps;

use rv_word::{Instr, encode};

/// The word `jal x0` from one address to another; it is that jump where the target is in reach.
pub fn jump_word(from: u64, to: u64) -> u32
    ensures { result ≡ jumps.jump_word from to }
{
    encode(&Instr::Jal {
        rd: 0,
        offset: to.wrapping_sub(from),
    })
}

/// A jump at `from` has its target in reach: from 1,048,576 bytes below to 1,048,574 above.
pub fn reaches(from: u64, to: u64) -> bool
    ensures { result ≡ jumps.reaches from to }
{
    from <= to.saturating_add(1_048_576) && to <= from.saturating_add(1_048_574)
}
