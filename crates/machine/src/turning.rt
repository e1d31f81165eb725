//! Turns of one hart.

ghost use Rattle.std.specs.Prelude.{◌≡◌, ◌+◌, ◌<◌, ◌≤◌, ◌^◌, ◌&&◌, ◌||◌, nat_lt, IsTrue, true, None, is_none, length};
ghost use Rattle.rv_exec.specs.Shared.{prog_in};
ghost use Rattle.tramp_spec.specs.Codes.{fetched_at, is_tool_word};
ghost use Rattle.tramp_spec.specs.Harts.{is_tick};
ghost use Rattle.machine.specs.Alone.{ArePlaced, TurnsLead, TakesAlone, alone_of, may_alone, turned_alone};
ghost use Rattle.machine.specs.Performing.{solo_of};

use crate::hart::{HartState, home};
use crate::performing::perform;
use crate::stretch::run_words;
use crate::tool_words::run_tool_words;
use code_store::Store;
use pn_types::HartNo;
use rv_exec::Shared;
use rv_word::Cause;

/// How far a hart is. While it takes turns this is kept apart from its registers.
#[derive(Clone, Copy, Drop)]
pub struct Progress {
    pub pc: u64,
    pub ticks: u64,
    pub inside: bool,
}

impl Progress {
    /// Whether a hart of this progress, which stopped for this cause or isn't stopped, can take a turn.
    #[inline(always)]
    fn may_turn(self, stop: Option<Cause>, budget: u64) -> bool
        ensures { result ≡ is_none stop && (self.inside || nat_lt self.ticks budget) }
    {
        stop.is_none() && (self.inside || self.ticks < budget)
    }
}

/// Takes one turn of a hart that isn't stopped. How far the hart is stands in `progress` alone. It takes no memory.
#[inline(always)]
fn take_turn(
    progress: &mut Progress,
    hart: &mut HartState,
    number: HartNo,
    store: &Store,
    shared: &mut Shared,
)
    requires number { number < length shared.old.resv }
    requires running { hart.old.stop ≡ None }
    requires placed { progress.old.inside ≡ true → is_tool_word store.now.program progress.old.pc ≡ true }
    requires countable { is_tick (fetched_at store.now.program store.now.code progress.old.pc progress.old.inside) ≡ true
        → progress.old.ticks + 1 < 2 ^ 64 }
    ensures turned { alone_of progress.new hart.new (prog_in shared.new)
        ≡ turned_alone store.now number (alone_of progress.old hart.old (prog_in shared.old)) }
    ensures harts { length shared.new.resv ≡ length shared.old.resv }
{
    let at = progress.pc;
    let inside = progress.inside;
    let ticks = progress.ticks;
    let Some(slot) = store.slot(at, inside) else {
        progress.pc = home(store, at, inside);
        progress.ticks = ticks + 1;
        progress.inside = false;
        hart.stop = Some(Cause::FetchOutside);
        return;
    };
    let goes = perform(slot, number, progress, hart, shared);
    progress.ticks = ticks + slot.is_tick() as u64;
    if goes {
        progress.inside = slot.inside_after(inside);
    } else {
        progress.pc = home(store, at, inside);
        progress.inside = false;
    }
}

/// Takes turns of a hart that can take one, by words of the program one after another, or inside by those of the tool: at most `most`,
/// and none where such a word isn't next. Returns how many, and takes no memory.
#[inline(always)]
fn take_words(
    progress: &mut Progress,
    hart: &mut HartState,
    number: HartNo,
    most: u32,
    budget: u64,
    store: &Store,
    shared: &mut Shared,
) -> u32
    requires number { number < length shared.old.resv }
    requires may { IsTrue (may_alone budget (alone_of progress.old hart.old (prog_in shared.old))) }
    ensures leads { TurnsLead store.now budget number result
        (alone_of progress.old hart.old (prog_in shared.old)) (alone_of progress.new hart.new (prog_in shared.new)) }
    ensures bound { result ≤ most }
    ensures harts { length shared.new.resv ≡ length shared.old.resv }
{
    if progress.inside {
        let (regs, bank) = (&mut hart.regs, hart.bank.as_mut_slice());
        return run_tool_words(most, number, progress, regs, bank, store, shared);
    }
    let words = (budget - progress.ticks).min(most as u64) as u32;
    let pc = &mut progress.pc;
    let turns = run_words(words, number, pc, &mut hart.regs, store, shared);
    progress.ticks += turns as u64;
    turns
}

/// Takes turns of a hart that can take one, at most `most`: by words one after another, and then one more by the word at which these
/// end, if the hart can take it. Returns how many, and takes no memory.
#[inline(always)]
fn take_some(
    progress: &mut Progress,
    hart: &mut HartState,
    number: HartNo,
    most: u32,
    budget: u64,
    store: &Store,
    shared: &mut Shared,
) -> u32
    requires number { number < length shared.old.resv }
    requires most { 1 ≤ most }
    requires may { IsTrue (may_alone budget (alone_of progress.old hart.old (prog_in shared.old))) }
    requires placed { ArePlaced store.now budget number (alone_of progress.old hart.old (prog_in shared.old)) }
    ensures leads { TurnsLead store.now budget number result
        (alone_of progress.old hart.old (prog_in shared.old)) (alone_of progress.new hart.new (prog_in shared.new)) }
    ensures bound { (1 ≤ result) × (result ≤ most) }
    ensures harts { length shared.new.resv ≡ length shared.old.resv }
{
    let words = take_words(progress, hart, number, most, budget, store, shared);
    if words == most || !progress.may_turn(hart.stop, budget) {
        return words;
    }
    take_turn(progress, hart, number, store, shared);
    words + 1
}

impl HartState {
    /// How far the hart is.
    #[inline(always)]
    fn progress(&self) -> Progress
        ensures { result ≡ record { pc = self.now.pc; ticks = self.now.ticks; inside = self.now.inside } }
    {
        Progress {
            pc: self.pc,
            ticks: self.ticks,
            inside: self.inside,
        }
    }

    /// Sets how far the hart is.
    #[inline(always)]
    fn set_progress(&mut self, progress: Progress)
        ensures { self.new ≡ record self.old { pc = progress.pc; ticks = progress.ticks; inside = progress.inside } }
    {
        self.pc = progress.pc;
        self.ticks = progress.ticks;
        self.inside = progress.inside;
    }

    /// Takes turns of the hart, at most `most`, as long as it can take them. Returns how many, and takes no memory.
    #[inline(never)]
    pub fn take_turns(
        &mut self,
        number: HartNo,
        most: u32,
        budget: u64,
        store: &Store,
        shared: &mut Shared,
    ) -> u32
        requires number { number < length shared.old.resv }
        requires placed { ArePlaced store.now budget number (solo_of self.old (prog_in shared.old)) }
        ensures taken { TakesAlone store.now budget number most
            (solo_of self.old (prog_in shared.old)) (solo_of self.new (prog_in shared.new)) result }
        ensures ticks { (self.old.ticks ≤ self.new.ticks) × (self.new.ticks ≤ self.old.ticks + result) }
        ensures harts { length shared.new.resv ≡ length shared.old.resv }
    {
        let mut progress = self.progress();
        let mut turns = 0;
        while turns < most && progress.may_turn(self.stop, budget) {
            turns += take_some(
                &mut progress,
                self,
                number,
                most - turns,
                budget,
                store,
                shared,
            );
        }
        self.set_progress(progress);
        turns
    }
}
