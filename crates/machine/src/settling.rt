//! Settling: harts that are inside trampolines go on until they are outside.

ghost use Rattle.std.specs.Prelude.{◌≡◌, ◌-◌, ◌<◌, ◌≤◌, length};
ghost use Rattle.machine.specs.Events.{IsQuiet};
ghost use Rattle.machine.specs.Leaving.{is_out};
ghost use Rattle.machine.specs.Replays.{owns, replay};
ghost use Rattle.machine.specs.States.{leaving, settling, with_core};

use crate::machine::Machine;
use crate::quantum::Taken;
use pn_types::HartNo;

impl Machine {
    /// Lets each hart that is inside a trampoline, by number, take turns until it is outside or stopped. Then no hart is inside. Returns
    /// how many of these turns weren't ticks, and takes no memory.
    pub fn settle(&mut self) -> u64
        ensures settled { self.new ≡ with_core self.old (replay (settling self.old.core) self.old.core) }
        ensures idle { result ≡ length (settling self.old.core) - length (owns (settling self.old.core) self.old.core) }
        ensures quiet { IsQuiet self.new.core }
        ensures harts { length self.new.core.harts ≡ length self.old.core.harts }
    {
        let taken = self.take_settling();
        u64::from(taken.turns - taken.ticks)
    }

    /// Settles. Returns how many turns that took, and how many of them were ticks.
    pub fn take_settling(&mut self) -> Taken
        ensures settled { self.new ≡ with_core self.old (replay (settling self.old.core) self.old.core) }
        ensures few { result.ticks ≤ result.turns }
        ensures turns { result.turns ≡ length (settling self.old.core) }
        ensures ticks { result.ticks ≡ length (owns (settling self.old.core) self.old.core) }
        ensures quiet { IsQuiet self.new.core }
        ensures harts { length self.new.core.harts ≡ length self.old.core.harts }
    {
        let most = self.blocks.words();
        let mut turns = 0;
        let mut ticks = 0;
        for hart in 0..self.harts.len() {
            let left = self.leave(HartNo::numbered(hart as u32), most);
            turns += left.turns;
            ticks += left.ticks;
        }
        Taken { turns, ticks }
    }

    /// Lets the hart take turns until it is outside or stopped, at most `most`. Returns how many these were.
    fn leave(&mut self, hart: HartNo, most: u32) -> Taken
        requires { hart < length self.old.core.harts }
        ensures left { self.new ≡ with_core self.old (replay (leaving most hart self.old.core) self.old.core) }
        ensures turns { result.turns ≡ length (leaving most hart self.old.core) }
        ensures ticks { result.ticks ≡ length (owns (leaving most hart self.old.core) self.old.core) }
        ensures few { result.ticks ≤ result.turns }
        ensures bound { result.turns ≤ most }
    {
        let mut ticks = 0;
        for turns in 0..most {
            if self.is_out(hart) {
                return Taken { turns, ticks };
            }
            if self.turn(hart) {
                ticks += 1;
            }
        }
        Taken { turns: most, ticks }
    }

    /// Whether the hart is stopped or outside.
    fn is_out(&self, hart: HartNo) -> bool
        requires { hart < length self.now.core.harts }
        ensures { result ≡ is_out self.now.core hart }
    {
        self.harts[hart.get() as usize].is_out()
    }
}
