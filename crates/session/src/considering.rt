//! Looks at wishes, for which memory was taken.

ghost use Rattle.std.specs.Prelude.{◌≡◌, ◌+◌, ◌<◌, ◌≤◌, ◌++◌, List, None, Some, find, length, map, not};
ghost use Rattle.std.specs.Option.{option_map};
ghost use Rattle.rv_mem.specs.Start.{program_of};
ghost use Rattle.machine.specs.Cores.{In};
ghost use Rattle.mdl_check.specs.Rules.{is_same_focus};
ghost use Rattle.mdl_check.specs.declared.checked.CheckedWish.{CheckedWish};
ghost use Rattle.instrument.specs.Needs.{Need, need_of};
ghost use Rattle.instrument.specs.Placements.{is_leaving, state_of};
ghost use Rattle.session_spec.specs.Admission.{shows, with_plan, with_refused, with_wish};
ghost use Rattle.session_spec.specs.Inputs.{planned};
ghost use Rattle.session_spec.specs.Opening.{with_all};
ghost use Rattle.session_pairs.specs.SampledPairs.{AreLive};
ghost use Rattle.session.specs.Candidates.{AreOfWishes, IsCandidate, IsOfWish, IsPairOf};
ghost use Rattle.session.specs.Outcomes.{IsAdmissionStep};
ghost use Rattle.session.specs.Tables.{AreReady, IsMore, IsStill, kept_of};

use crate::candidate::Candidate;
use crate::inputs::Inputs;
use crate::room::put_refused;
use crate::stored::StoredState;
use instrument::{InstrumentNo, State};
use instrumented::InstrumentedMachine;
use mdl_check::CheckedWish;
use pn_types::{Focus, PickCause, Plan};
use session_pairs::SampledPair;
use session_spec::RefusedWish;
use std::alloc::Global;
use std::collections::VecDeque;

/// Returns whether two foci are the same.
fn same(a: &Focus, b: &Focus) -> bool
    ensures { result ≡ is_same_focus (Some a.now) (Some b.now) }
{
    a == b
}

/// Returns whether the instrument is being placed or armed.
fn stands(machine: &InstrumentedMachine, number: InstrumentNo) -> bool
    ensures { result ≡ not (is_leaving (state_of machine.now.state.placer number.n)) }
{
    matches!(machine.state(number), State::Placing | State::Armed)
}

/// Returns whether a pair is the wish's, and is shown.
fn shows(machine: &InstrumentedMachine, pair: &SampledPair, wish: &CheckedWish) -> bool
    ensures { result ≡ shows machine.now.state.placer wish.now pair.now.shown }
{
    pair.shown.node.is_none()
        && pair.shown.metric == wish.metric
        && same(&pair.shown.focus, &wish.focus)
        && stands(machine, pair.shown.instrument)
}

/// Returns the instrument that shows the pair of a wish.
fn find_shown(
    machine: &InstrumentedMachine,
    pairs: &[SampledPair],
    wish: &CheckedWish,
) -> Option<InstrumentNo>
    ensures { result ≡ option_map (λ k. k.shown.instrument) (find (λ k. shows machine.now.state.placer wish.now k.shown) pairs.now) }
{
    let pair = pairs.iter().find(|pair| shows(machine, pair, wish))?;
    Some(pair.shown.instrument)
}

impl StoredState {
    /// Appends a wish to the refused ones, if there is a cause. There is room for it.
    fn refuse(&mut self, wish: &CheckedWish, cause: Option<PickCause>)
        requires room { 0 < self.old.room }
        ensures kept { (ws : List CheckedWish) → kept_of ws self.new ≡ with_refused cause wish.now (kept_of ws self.old) }
        ensures room { self.old.room ≤ self.new.room + 1 }
        ensures same { self.new ≡ record self.old { refused = self.new.refused; room = self.new.room } }
    {
        let Some(cause) = cause else {
            return;
        };
        self.room -= 1;
        put_refused(
            &mut self.refused,
            RefusedWish {
                show: wish.show,
                metric: wish.metric,
                focus: wish.focus,
                at: self.time,
                cause,
            },
        );
    }

    /// Shows the pair of a wish, which isn't shown: it gets an instrument, or the wish is refused.
    fn show(
        &mut self,
        alloc: Global,
        inputs: &Inputs,
        wish: &CheckedWish,
        plan: &Plan,
        candidate: Candidate,
    )
        requires room { 0 < self.old.room }
        requires program { self.old.machine.state.core.program ≡ program_of inputs.now.image }
        requires pair { IsPairOf None wish.now.metric wish.now.focus candidate }
        requires candidate { IsCandidate inputs.now plan.now candidate }
        requires ready { In (need_of plan.now) self.old.machine.ready }
        requires live { AreLive self.old.machine.state.placer self.old.pairs self.old.live }
        ensures kept { (ws : List CheckedWish)
            → kept_of ws self.new ≡ with_plan (planned inputs.now wish.now.metric wish.now.focus) wish.now (kept_of ws self.old) }
        ensures step { IsAdmissionStep inputs.now plan.now self.old self.new }
        ensures search { self.new.search ≡ self.old.search }
    {
        match self.instrument(alloc, inputs, plan, candidate, None) {
            Ok(_) => {}
            Err(failure) => self.refuse(wish, failure.pick_cause()),
        }
    }

    /// Looks at a wish, for which there is room, with what it needs. Its plan is ready.
    fn consider(
        &mut self,
        alloc: Global,
        inputs: &Inputs,
        wish: &CheckedWish,
        plan: &Plan,
        candidate: Option<Candidate>,
    )
        requires room { 0 < self.old.room }
        requires program { self.old.machine.state.core.program ≡ program_of inputs.now.image }
        requires candidate { IsOfWish inputs.now wish.now plan.now candidate }
        requires ready { In (need_of plan.now) self.old.machine.ready }
        requires live { AreLive self.old.machine.state.placer self.old.pairs self.old.live }
        ensures kept { (ws : List CheckedWish) → kept_of ws self.new ≡ with_wish inputs.now wish.now (kept_of ws self.old) }
        ensures step { IsAdmissionStep inputs.now plan.now self.old self.new }
        ensures search { self.new.search ≡ self.old.search }
    {
        let shown = find_shown(&self.machine, &self.pairs.all, wish);
        match (candidate, shown) {
            (Some(candidate), None) => self.show(alloc, inputs, wish, plan, candidate),
            (Some(_), Some(_)) => self.refuse(wish, Some(PickCause::AlreadyShown)),
            (None, Some(number)) => self.machine.drop(number),
            (None, None) => self.refuse(wish, Some(PickCause::NotShown)),
        }
    }

    /// Looks at wishes, one after another, with what they need. For each there is room, and its plan is ready. What else is ready
    /// stays ready.
    pub(crate) fn consider_all(
        &mut self,
        alloc: Global,
        inputs: &Inputs,
        wishes: &[CheckedWish],
        plans: &[Plan],
        candidates: VecDeque<Option<Candidate>>,
    )
        requires room { length wishes.now ≤ self.old.room }
        requires program { self.old.machine.state.core.program ≡ program_of inputs.now.image }
        requires each { AreOfWishes inputs.now wishes.now plans.now candidates.items }
        requires ready { AreReady (map need_of plans.now) self.old.machine.ready }
        requires live { AreLive self.old.machine.state.placer self.old.pairs self.old.live }
        ensures kept { (ws : List CheckedWish) → kept_of ws self.new ≡ with_all inputs.now wishes.now (kept_of ws self.old) }
        ensures pairs { IsMore inputs.now self.old.pairs self.new.pairs }
        ensures few { length self.new.pairs ≤ length self.old.pairs + length wishes.now }
        ensures room { self.old.room ≤ self.new.room + length wishes.now }
        ensures live { AreLive self.new.machine.state.placer self.new.pairs self.new.live }
        ensures still { IsStill self.old self.new }
        ensures search { self.new.search ≡ self.old.search }
        ensures left { (needs : List Need)
            → AreReady (map need_of plans.now ++ needs) self.old.machine.ready → AreReady needs self.new.machine.ready }
    {
        let mut candidates = candidates;
        for place in 0..wishes.len() {
            if let Some(candidate) = candidates.pop_front() {
                self.consider(alloc, inputs, &wishes[place], &plans[place], candidate);
            }
        }
    }
}
