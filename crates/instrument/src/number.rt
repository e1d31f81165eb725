//! Numbers of instruments, how far they have come, and why a plan is refused.

ghost use Rattle.std.specs.Prelude.{◌≡◌};
ghost use Rattle.instrument.specs.Placements as placements;

/// The number of an instrument, among all that were admitted.
#[derive(Clone, Copy, PartialEq, Eq, Drop)]
pub struct InstrumentNo {
    /// The number, from 0.
    pub n: u64,
}

/// How far an instrument has come.
#[derive(Clone, Copy, PartialEq, Eq, Drop)]
pub enum State {
    /// It was admitted, and not armed yet.
    Placing,
    /// It is armed.
    Armed,
    /// It was dropped, and some of its mini blocks weren't given back.
    Leaving,
    /// Nothing of it is left.
    Gone,
}

impl State {
    /// Returns whether it was dropped.
    pub fn is_leaving(self) -> bool
        ensures { result ≡ placements.is_leaving self }
    {
        matches!(self, State::Leaving | State::Gone)
    }
}

/// Why a plan isn't admitted.
#[derive(Clone, Copy, Debug, PartialEq, Eq, Drop)]
pub enum Refused {
    /// Its mini blocks have this many words, which is above the limit of the cost.
    OverCost(u64),
    /// There are as many instruments as are allowed at once.
    TooMany,
    /// There aren't this many consecutive free slots.
    NoSlot(u32),
    /// There aren't this many consecutive free words in the tool text.
    NoRoom(u32),
    /// The program's word at this address can't be moved.
    Unmovable(u64),
    /// Out of memory.
    NoMemory,
}
