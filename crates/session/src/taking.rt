//! Takes nodes of the search, one after another, for which memory was taken.

ghost use Rattle.std.specs.Prelude.{◌≡◌, ◌+◌, ◌<◌, ◌≤◌, ◌^◌, List, false, length, map, slice_get};
ghost use Rattle.std.specs.List.{AllByRecursion};
ghost use Rattle.std.specs.Option.{option_map_or};
ghost use Rattle.rv_mem.specs.Start.{program_of};
ghost use Rattle.mdl_check.specs.declared.checked.CheckedWish.{CheckedWish};
ghost use Rattle.machine.specs.Cores.{In};
ghost use Rattle.instrument.specs.Needs.{need_of};
ghost use Rattle.w3_search.specs.Nodes.{is_waiting};
ghost use Rattle.w3_search.specs.Steps.{Waits};
ghost use Rattle.session_spec.specs.Tests.{barred, with_node, with_nodes};
ghost use Rattle.session_pairs.specs.SampledPairs.{AreLive};
ghost use Rattle.session.specs.NodeCandidates.{AreNodeCandidates, HasCost, IsNodeCandidate, IsOneChanged, counted, force_in, candidate_number, numbers_in};
ghost use Rattle.session.specs.Outcomes.{IsAdmissionStep};
ghost use Rattle.session.specs.Tables.{AreReady, IsMore, IsStill, kept_of};

use crate::candidate::Candidate;
use crate::inputs::Inputs;
use crate::node_candidates::must_wait;
use crate::stored::StoredState;
use instrument::State;
use pn_types::{BarCause, Plan};
use prim_code::predicted;
use session_pairs::SampledPair;
use std::alloc::Global;
use std::collections::VecDeque;
use w3_search::NodeState;

impl StoredState {
    /// Returns what a pair adds to the costs in force, in words.
    fn counted(&self, pair: &SampledPair) -> u64
        ensures { result ≡ counted self.now.machine.state.placer pair.now }
    {
        if matches!(self.machine.state(pair.shown.instrument), State::Gone) {
            return 0;
        }
        pair.cost
    }

    /// Returns the costs in force of the search, in words.
    pub(crate) fn in_force(&self) -> u64
        requires few { length self.now.pairs < 2 ^ 31 }
        requires low { AllByRecursion (λ k. k.cost < 2 ^ 32) self.now.pairs }
        requires live { AreLive self.now.machine.state.placer self.now.pairs self.now.live }
        ensures force { result ≡ force_in self.now.machine.state.placer self.now.pairs }
        ensures bound { result < 2 ^ 63 }
    {
        let mut force = 0;
        for place in &self.pairs.live {
            force += self.counted(&self.pairs.all[*place]);
        }
        force
    }

    /// Returns whether a node waits.
    fn waits(&self, node: u32) -> bool
        ensures { result ≡ option_map_or (λ node. is_waiting node.state) (slice_get self.now.search.nodes node) false }
    {
        match self.search.nodes().get(node as usize) {
            Some(node) => matches!(node.state, NodeState::Waiting),
            None => false,
        }
    }

    /// Bars a node that waits, if there is a cause.
    fn bar(&mut self, node: u32, cause: Option<BarCause>)
        requires { Waits node self.old.search.nodes }
        ensures kept { (ws : List CheckedWish) → kept_of ws self.new ≡ barred cause node (kept_of ws self.old) }
        ensures same { self.new ≡ record self.old { search = self.new.search } }
        ensures search { IsOneChanged node self.old.search self.new.search }
    {
        if let Some(cause) = cause {
            self.search.barred(node, cause);
        }
    }

    /// Takes a node, for which there is room and whose plan is ready, where `force` are the costs in force. Returns the costs in
    /// force afterwards.
    fn take_node(
        &mut self,
        alloc: Global,
        inputs: &Inputs,
        plan: &Plan,
        candidate: Candidate,
        force: u64,
    ) -> u64
        requires room { 0 < self.old.room }
        requires program { self.old.machine.state.core.program ≡ program_of inputs.now.image }
        requires node_candidate { IsNodeCandidate inputs.now self.old.search.nodes plan.now candidate }
        requires ready { In (need_of plan.now) self.old.machine.ready }
        requires live { AreLive self.old.machine.state.placer self.old.pairs self.old.live }
        requires costs { AllByRecursion (HasCost inputs.now) self.old.pairs }
        requires few { length self.old.pairs + 1 < 2 ^ 31 }
        requires force { force ≡ force_in self.old.machine.state.placer self.old.pairs }
        ensures kept { (ws : List CheckedWish) → kept_of ws self.new ≡ with_node inputs.now (candidate_number candidate) (kept_of ws self.old) }
        ensures step { IsAdmissionStep inputs.now plan.now self.old self.new }
        ensures search { IsOneChanged (candidate_number candidate) self.old.search self.new.search }
        ensures force { result ≡ force_in self.new.machine.state.placer self.new.pairs }
    {
        let Some(node) = candidate.node else {
            return force;
        };
        if !self.waits(node) {
            return force;
        }
        let words = predicted(plan);
        let limit = u64::from(inputs.search_decl().cost);
        if candidate.fault.is_none() && must_wait(limit, words, force) {
            return force;
        }
        match self.instrument(alloc, inputs, plan, candidate, Some(limit)) {
            Ok(_) => {
                self.search.admitted(node);
                force + words
            }
            Err(failure) => {
                self.bar(node, failure.bar_cause());
                force
            }
        }
    }

    /// Takes nodes, one after another, as long as one more instrument is allowed, with what they need. For each there is room, and
    /// its plan is ready.
    pub(crate) fn take_nodes(
        &mut self,
        alloc: Global,
        inputs: &Inputs,
        plans: &[Plan],
        candidates: VecDeque<Candidate>,
    )
        requires room { length plans.now ≤ self.old.room }
        requires program { self.old.machine.state.core.program ≡ program_of inputs.now.image }
        requires each { AreNodeCandidates inputs.now self.old.search.nodes plans.now candidates.items }
        requires ready { AreReady (map need_of plans.now) self.old.machine.ready }
        requires live { AreLive self.old.machine.state.placer self.old.pairs self.old.live }
        requires few { length self.old.pairs + length plans.now < 2 ^ 31 }
        requires costs { AllByRecursion (HasCost inputs.now) self.old.pairs }
        ensures kept { (ws : List CheckedWish)
            → kept_of ws self.new ≡ with_nodes inputs.now (numbers_in candidates.items) (kept_of ws self.old) }
        ensures pairs { IsMore inputs.now self.old.pairs self.new.pairs }
        ensures few { length self.new.pairs ≤ length self.old.pairs + length plans.now }
        ensures live { AreLive self.new.machine.state.placer self.new.pairs self.new.live }
        ensures still { IsStill self.old self.new }
    {
        let mut candidates = candidates;
        let mut force = self.in_force();
        for plan in plans {
            if self.machine.is_full() {
                return;
            }
            let Some(candidate) = candidates.pop_front() else {
                return;
            };
            force = self.take_node(alloc, inputs, plan, candidate, force);
        }
    }
}
