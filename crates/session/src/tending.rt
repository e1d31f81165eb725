//! What a stored does in a quantum, at the opening and at the end.

ghost use Rattle.std.specs.Prelude.{◌≡◌, ◌+◌, ◌<◌, ◌≤◌, ◌^◌, length};
ghost use Rattle.std.specs.List.{AllByRecursion};
ghost use Rattle.machine.specs.Events.{IsQuiet};
ghost use Rattle.machine.specs.Replays.{owns};
ghost use Rattle.machine.specs.States.{quantum_turns};
ghost use Rattle.session_pairs.specs.SampledPairs.{AreLive, HasHarts};
ghost use Rattle.session.specs.Tables.{CanSample, table_closed, table_opened, table_tended, table_worked};

use crate::stored::StoredState;
use pn_types::HartNo;
use session_pairs::hand_out;

impl StoredState {
    /// Does the work that is due: it settles, samples, frees, arms and judges.
    #[inline(never)]
    fn work(&mut self, width: u64)
        requires time { self.old.time < 2 ^ 57 + 2 ^ 32 }
        requires idle { self.old.idle < 2 ^ 49 }
        requires width { (1 ≤ width) × (width < 2 ^ 62) }
        requires sampled { CanSample self.old }
        requires later { self.old.last < self.old.time }
        ensures table { self.new ≡ table_worked width self.old }
        ensures harts { length self.new.machine.state.core.harts ≡ length self.old.machine.state.core.harts }
        ensures later { self.new.time < self.old.time + 2 ^ 32 }
        ensures soon { self.new.last < self.new.due }
        ensures live { AreLive self.new.machine.state.placer self.new.pairs self.new.live }
    {
        self.settle();
        self.sample();
        self.free();
        self.arm();
        self.judge();
        self.go_on(width);
    }

    /// Does the hart's turns, some entries of the agenda, and the work that is due, if it is time. Returns how many of the turns
    /// were ticks.
    #[inline(always)]
    pub(crate) fn tend(&mut self, hart: HartNo, most: u32, width: u64) -> u32
        requires hart { hart < length self.old.machine.state.core.harts }
        requires time { self.old.time < 2 ^ 57 }
        requires idle { self.old.idle < 2 ^ 48 }
        requires width { (1 ≤ width) × (width < 2 ^ 62) }
        requires sampled { CanSample self.old }
        requires soon { self.old.last < self.old.due }
        ensures table { self.new ≡ table_tended width hart most self.old }
        ensures owns { result ≡ length (owns (quantum_turns most hart self.old.machine.state.core) self.old.machine.state.core) }
        ensures harts { length self.new.machine.state.core.harts ≡ length self.old.machine.state.core.harts }
        ensures later { self.new.time < self.old.time + 2 ^ 33 }
        ensures idle { self.new.idle ≤ self.old.idle + most }
        ensures soon { self.new.last < self.new.due }
        ensures live { AreLive self.new.machine.state.placer self.new.pairs self.new.live }
    {
        let owns = self.turn(hart, most);
        self.hand_out();
        if self.due <= self.time {
            self.work(width);
        }
        owns
    }

    /// Does what the end asks for: it settles, and samples and judges once more where time passed since the last sample. Then the
    /// search ends.
    pub(crate) fn end(&mut self)
        requires time { self.old.time ≤ 2 ^ 57 }
        requires idle { self.old.idle < 2 ^ 49 }
        requires sampled { CanSample self.old }
        ensures table { self.new ≡ table_closed self.old }
        ensures quiet { IsQuiet self.new.machine.state.core }
        ensures harts { length self.new.machine.state.core.harts ≡ length self.old.machine.state.core.harts }
        ensures later { self.new.time < self.old.time + 2 ^ 32 }
        ensures live { AreLive self.new.machine.state.placer self.new.pairs self.new.live }
    {
        self.settle();
        if self.last < self.time {
            self.sample();
            self.judge();
        }
        self.search.finish();
    }

    /// Does what is left of the opening after its admissions: hands out the whole agenda, and then arms all that is placed.
    pub(crate) fn open(&mut self)
        requires quiet { IsQuiet self.old.machine.state.core }
        requires places { self.old.places ≡ length self.old.machine.state.core.harts }
        requires harts { AllByRecursion (HasHarts (length self.old.machine.state.core.harts)) self.old.pairs }
        requires live { AreLive self.old.machine.state.placer self.old.pairs self.old.live }
        ensures live { AreLive self.new.machine.state.placer self.new.pairs self.new.live }
        ensures table { self.new ≡ table_opened self.old }
        ensures harts { length self.new.machine.state.core.harts ≡ length self.old.machine.state.core.harts }
    {
        let entries = self.machine.agenda_len();
        hand_out(&mut self.machine, entries);
        self.arm();
    }
}
