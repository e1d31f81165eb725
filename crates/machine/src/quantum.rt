//! The turns of a quantum.

ghost use Rattle.std.specs.Prelude.{◌≡◌, ◌<◌, length};
ghost use Rattle.machine.specs.Quanta.{KeepsBudget};
ghost use Rattle.machine.specs.Replays.{owns, replay};
ghost use Rattle.machine.specs.States.{quantum_turns, with_core};

use crate::machine::Machine;
use pn_types::HartNo;

/// What a hart did in a quantum.
#[derive(Clone, Copy, Debug, PartialEq, Eq, Drop)]
pub struct Taken {
    /// The turns that it took.
    pub turns: u32,
    /// How many of them were ticks.
    pub ticks: u32,
}

impl Machine {
    /// Takes turns of the hart, at most `most`, as long as it is runnable. Returns how many, and takes no memory.
    pub fn take_turns(&mut self, hart: HartNo, most: u32) -> Taken
        requires { hart < length self.old.core.harts }
        ensures taken { self.new ≡ with_core self.old (replay (quantum_turns most hart self.old.core) self.old.core) }
        ensures turns { result.turns ≡ length (quantum_turns most hart self.old.core) }
        ensures ticks { result.ticks ≡ length (owns (quantum_turns most hart self.old.core) self.old.core) }
        ensures budget { KeepsBudget self.new.core }
        ensures harts { length self.new.core.harts ≡ length self.old.core.harts }
    {
        let state = &mut self.harts[hart.get() as usize];
        let before = state.ticks();
        let turns = state.take_turns(hart, most, self.budget, &self.store, &mut self.shared);
        let ticks = (state.ticks() - before) as u32;
        Taken { turns, ticks }
    }
}
