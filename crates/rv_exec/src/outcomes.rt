//! Why a hart stops, and where it goes on.

ghost use Rattle.std.specs.Prelude.{◌≡◌};
ghost use Rattle.rv_word.specs.Exec.{stop_of, next};

use rv_word::{Cause, MemStop};

/// The cause for which a hart stops where memory refuses an access.
pub fn cause_of(stop: MemStop) -> Cause
    ensures { result ≡ stop_of stop }
{
    match stop {
        MemStop::Unmapped(at) => Cause::Access(at),
        MemStop::InText(at) => Cause::TextAccess(at),
    }
}

/// The address of the next word.
pub fn next_pc(pc: u64) -> u64
    ensures { result ≡ next pc }
{
    pc.wrapping_add(4)
}
