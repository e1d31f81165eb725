//! What a session goes on from, and the steps that change it.

ghost use Rattle.std.specs.Prelude.{◌≡◌, false, ◌+◌, ◌-◌, ◌<◌, ◌≤◌, ◌^◌, length};
ghost use Rattle.std.specs.List.{AllByRecursion};
ghost use Rattle.machine.specs.Events.{IsQuiet};
ghost use Rattle.machine.specs.Replays.{owns};
ghost use Rattle.machine.specs.States.{quantum_turns};
ghost use Rattle.machine.specs.Turns.{is_runnable};
ghost use Rattle.session_pairs.specs.SampledPairs.{AreLive, HasHarts};
ghost use Rattle.session.specs.Tables.{CanSample, table_armed, table_freed, table_handed, table_judged, table_next, table_quiet, table_sampled, table_turned};

use instrumented::InstrumentedMachine;
use machine::Sample;
use pn_types::HartNo;
use session_pairs::{
    SampledPairs, arm_pairs, drop_tests, hand_out, mark_ticks, sample_pairs, sweep,
};
use session_spec::{LatestSample, RefusedWish};
use std::marker::Model;
use w3_search::{NodeSample, Search};

/// How many entries of the agenda are handed out after the turns of a quantum.
const HANDED_AT_ONCE: usize = 8;

/// What a session goes on from. Contracts see it as the definitions' table.
pub(crate) struct StoredState {
    pub(crate) machine: InstrumentedMachine,
    pub(crate) refused: Vec<RefusedWish>,
    // What is or was shown, in the order of its admission.
    pub(crate) pairs: SampledPairs,
    pub(crate) search: Search,
    // The samples of the last time that any were taken: of what was wished, and of the nodes under test.
    pub(crate) latest: Vec<LatestSample>,
    pub(crate) tests: Vec<NodeSample>,
    // How many ticks each hart had then.
    pub(crate) marks: Vec<u64>,
    // Where readings are put.
    pub(crate) sample: Sample,
    // For how many more pairs there is room.
    pub(crate) room: usize,
    pub(crate) time: u64,
    pub(crate) due: u64,
    // Whether work was done since the last admission.
    pub(crate) worked: bool,
    pub(crate) samples: u64,
    // When the last sample was taken.
    pub(crate) last: u64,
    // How many turns since then weren't ticks.
    pub(crate) idle: u64,
    // What the patches cost in the interval that it ended.
    pub(crate) observed: u64,
}

impl Model for StoredState {
    ghost use Rattle.std.specs.Prelude.{◌+◌, ◌<◌, ◌≤◌, ◌^◌, length, vec_capacity, vec_len};
    ghost use Rattle.machine.specs.Codes.{core_code};
    ghost use Rattle.std.specs.Coded.{codes};
    ghost use Rattle.session.specs.Tables.{StateTable};

    ghost Value = { StateTable };

    ghost coded = { Prim.hlevel (codes, core_code) };

    ghost view = { λ d. record {
      machine = d.machine;
      refused = d.refused.items;
      pairs = d.pairs.all.items;
      live = d.pairs.live.items;
      search = d.search;
      latest = d.latest.items;
      tests = d.tests.items;
      marks = d.marks.items;
      places = length d.sample.readings;
      room = d.room;
      time = d.time;
      due = d.due;
      worked = d.worked;
      samples = d.samples;
      last = d.last;
      idle = d.idle;
      observed = d.observed;
    } };

    ghost invariant = { λ d. (vec_len d.refused + d.room ≤ vec_capacity d.refused)
        × (vec_len d.pairs.all + d.room ≤ vec_capacity d.pairs.all) × (vec_len d.pairs.live + d.room ≤ vec_capacity d.pairs.live)
        × (vec_len d.pairs.all + d.room ≤ vec_capacity d.latest) × (vec_len d.pairs.all + d.room ≤ vec_capacity d.tests) };
}

// Its drop is a function of its own, so that callers need not prove the drops of all its parts.
impl Drop for StoredState {
    fn drop(self) {
        let StoredState {
            machine: _,
            refused: _,
            pairs: _,
            search: _,
            latest: _,
            tests: _,
            marks: _,
            sample: _,
            room: _,
            time: _,
            due: _,
            worked: _,
            samples: _,
            last: _,
            idle: _,
            observed: _,
        } = self;
    }
}

impl StoredState {
    /// Returns whether the hart can take a turn.
    #[inline(always)]
    pub(crate) fn runnable(&self, hart: HartNo) -> bool
        requires { hart < length self.now.machine.state.core.harts }
        ensures { result ≡ is_runnable self.now.machine.state.core hart }
    {
        self.machine.runnable(hart)
    }

    /// Lets the hart take turns, at most `most`. Returns how many of them were ticks.
    #[inline(always)]
    pub(crate) fn turn(&mut self, hart: HartNo, most: u32) -> u32
        requires hart { hart < length self.old.machine.state.core.harts }
        requires time { self.old.time < 2 ^ 63 }
        requires idle { self.old.idle < 2 ^ 63 }
        ensures table { self.new ≡ table_turned hart most self.old }
        ensures live { AreLive self.old.machine.state.placer self.old.pairs self.old.live
            → AreLive self.new.machine.state.placer self.new.pairs self.new.live }
        ensures owns { result ≡ length (owns (quantum_turns most hart self.old.machine.state.core) self.old.machine.state.core) }
        ensures harts { length self.new.machine.state.core.harts ≡ length self.old.machine.state.core.harts }
        ensures later { self.new.time < self.old.time + 2 ^ 32 }
        ensures idle { self.new.idle ≤ self.old.idle + most }
    {
        let taken = self.machine.take_turns(hart, most);
        self.time += u64::from(taken.ticks);
        self.idle += u64::from(taken.turns.saturating_sub(taken.ticks));
        taken.ticks
    }

    /// Hands out eight entries of the agenda.
    #[inline(always)]
    pub(crate) fn hand_out(&mut self)
        requires live { AreLive self.old.machine.state.placer self.old.pairs self.old.live }
        ensures live { AreLive self.new.machine.state.placer self.new.pairs self.new.live }
        ensures table { self.new ≡ table_handed self.old }
        ensures harts { self.new.machine.state.core.harts ≡ self.old.machine.state.core.harts }
    {
        hand_out(&mut self.machine, HANDED_AT_ONCE);
    }

    /// Lets each hart that is inside a trampoline take turns until it is outside.
    pub(crate) fn settle(&mut self)
        requires time { self.old.time < 2 ^ 63 }
        requires idle { self.old.idle < 2 ^ 63 }
        ensures table { self.new ≡ table_quiet self.old }
        ensures live { AreLive self.old.machine.state.placer self.old.pairs self.old.live
            → AreLive self.new.machine.state.placer self.new.pairs self.new.live }
        ensures quiet { IsQuiet self.new.machine.state.core }
        ensures harts { length self.new.machine.state.core.harts ≡ length self.old.machine.state.core.harts }
        ensures later { self.new.time < self.old.time + 2 ^ 32 }
        ensures idle { self.new.idle < self.old.idle + 2 ^ 32 }
        ensures no_less { self.old.time ≤ self.new.time }
    {
        let taken = self.machine.take_settling();
        self.time += u64::from(taken.ticks);
        self.idle += u64::from(taken.turns.saturating_sub(taken.ticks));
    }

    /// Samples all that is armed. No hart is inside a trampoline, and time passed since the last sample.
    pub(crate) fn sample(&mut self)
        requires quiet { IsQuiet self.old.machine.state.core }
        requires sampled { CanSample self.old }
        requires time { self.old.time < 2 ^ 58 }
        requires idle { self.old.idle < 2 ^ 50 }
        requires later { self.old.last < self.old.time }
        ensures table { self.new ≡ table_sampled self.old }
        ensures still { self.new.machine ≡ self.old.machine }
        ensures live { AreLive self.new.machine.state.placer self.new.pairs self.new.live }
        ensures harts { AllByRecursion (HasHarts (length self.old.machine.state.core.harts)) self.new.pairs }
    {
        self.latest.clear();
        self.tests.clear();
        sample_pairs(
            &self.machine,
            self.time,
            &self.marks,
            &mut self.pairs,
            &mut self.latest,
            &mut self.tests,
            &mut self.sample,
        );
        mark_ticks(&self.machine, &mut self.marks);
        self.samples += 1;
        self.observed = self.idle * 1_000 / (self.time - self.last);
        self.idle = 0;
        self.last = self.time;
    }

    /// Does each Free in the agenda before which no unlinking of its point stands, and forgets tests that are gone then. No hart is
    /// inside a trampoline.
    pub(crate) fn free(&mut self)
        requires quiet { IsQuiet self.old.machine.state.core }
        requires live { AreLive self.old.machine.state.placer self.old.pairs self.old.live }
        ensures live { AreLive self.new.machine.state.placer self.new.pairs self.new.live }
        ensures table { self.new ≡ table_freed self.old }
        ensures harts { self.new.machine.state.core.harts ≡ self.old.machine.state.core.harts }
        ensures quiet { IsQuiet self.new.machine.state.core }
    {
        let entries = self.machine.agenda_len();
        sweep(&mut self.machine, entries);
        self.pairs.forget_gone(&self.machine);
    }

    /// Arms what is being placed and has all its sites linked. No hart is inside a trampoline.
    pub(crate) fn arm(&mut self)
        requires quiet { IsQuiet self.old.machine.state.core }
        requires places { self.old.places ≡ length self.old.machine.state.core.harts }
        requires harts { AllByRecursion (HasHarts (length self.old.machine.state.core.harts)) self.old.pairs }
        requires live { AreLive self.old.machine.state.placer self.old.pairs self.old.live }
        ensures live { AreLive self.new.machine.state.placer self.new.pairs self.new.live }
        ensures table { self.new ≡ table_armed self.old }
        ensures harts { length self.new.machine.state.core.harts ≡ length self.old.machine.state.core.harts }
    {
        arm_pairs(
            &mut self.machine,
            self.time,
            &mut self.pairs,
            &mut self.sample,
        );
    }

    /// Tells the search of the samples of its nodes, and drops the instruments of those whose tests ended.
    pub(crate) fn judge(&mut self)
        requires live { AreLive self.old.machine.state.placer self.old.pairs self.old.live }
        ensures live { AreLive self.new.machine.state.placer self.new.pairs self.new.live }
        ensures table { self.new ≡ table_judged self.old }
        ensures core { self.new.machine.state.core ≡ self.old.machine.state.core }
    {
        // What this returns is read again below, where the search is shared.
        let _drops = self.search.on_sample(self.time, &self.tests);
        drop_tests(&mut self.machine, &self.pairs, self.search.drops());
    }

    /// Sets when work is due next: at the least multiple of the width above the time.
    pub(crate) fn go_on(&mut self, width: u64)
        requires some { 1 ≤ width }
        requires time { self.old.time + width < 2 ^ 64 }
        ensures table { self.new ≡ table_next width self.old }
        ensures soon { self.new.time < self.new.due }
    {
        self.due = (self.time / width + 1) * width;
        self.worked = true;
    }

    /// Notes that an admission was done.
    pub(crate) fn rest(&mut self)
        ensures { self.new ≡ record self.old { worked = false } }
    {
        self.worked = false;
    }
}
