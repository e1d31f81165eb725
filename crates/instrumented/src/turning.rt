//! The turns of the harts.

ghost use Rattle.std.specs.Prelude.{◌≡◌, ◌+◌, ◌<◌, length};
ghost use Rattle.machine.specs.Events.{IsQuiet};
ghost use Rattle.machine.specs.Quanta.{KeepsBudget};
ghost use Rattle.machine.specs.Replays.{owns};
ghost use Rattle.machine.specs.States.{quantum_turns, settling};
ghost use Rattle.instrumented.specs.Instrumented.{after_turns};

use crate::instrumented_machine::InstrumentedMachine;
use machine::Taken;
use pn_types::HartNo;

impl InstrumentedMachine {
    /// Lets the hart take turns, at most `most`, as long as it is runnable. It takes no memory.
    #[inline(always)]
    pub fn take_turns(&mut self, hart: HartNo, most: u32) -> Taken
        requires { hart < length self.old.state.core.harts }
        ensures taken { self.new ≡ record self.old { state = after_turns (quantum_turns most hart self.old.state.core) self.old.state } }
        ensures turns { result.turns ≡ length (quantum_turns most hart self.old.state.core) }
        ensures ticks { result.ticks ≡ length (owns (quantum_turns most hart self.old.state.core) self.old.state.core) }
        ensures budget { KeepsBudget self.new.state.core }
        ensures harts { length self.new.state.core.harts ≡ length self.old.state.core.harts }
    {
        self.machine.take_turns(hart, most)
    }

    /// Lets each hart that is inside a trampoline, by number, take turns until it is outside or stopped. Returns how many turns
    /// these were. Then no hart is inside. It takes no memory.
    pub fn take_settling(&mut self) -> Taken
        ensures settled { self.new ≡ record self.old { state = after_turns (settling self.old.state.core) self.old.state } }
        ensures turns { result.turns ≡ length (settling self.old.state.core) }
        ensures ticks { result.ticks ≡ length (owns (settling self.old.state.core) self.old.state.core) }
        ensures quiet { IsQuiet self.new.state.core }
        ensures harts { length self.new.state.core.harts ≡ length self.old.state.core.harts }
    {
        self.machine.take_settling()
    }
}
