//! Admissions: looks at the wishes whose ticks have come, and then lets the search take nodes.

ghost use Rattle.std.specs.Prelude.{◌≡◌, ◌+◌, ◌<◌, ◌≤◌, ◌^◌, if◌then◌else◌, List, IfOk, OnErr, OnOk, drop, length};
ghost use Rattle.std.specs.List.{AllByRecursion, list_all};
ghost use Rattle.mdl_check.specs.declared.checked.CheckedWish.{CheckedWish};
ghost use Rattle.machine.specs.Cores.{In};
ghost use Rattle.rv_mem.specs.Start.{program_of};
ghost use Rattle.session.specs.Given.{AreGiven, IsWishOf};
ghost use Rattle.session_spec.specs.Opening.{with_all};
ghost use Rattle.session_spec.specs.Searches.{rules_of};
ghost use Rattle.session_spec.specs.Tests.{taken_at_once, with_tests};
ghost use Rattle.session_pairs.specs.SampledPairs.{AreLive};
ghost use Rattle.session.specs.NodeCandidates.{HasCost, force_in};
ghost use Rattle.session.specs.KnownCosts.{AreKnown};
ghost use Rattle.session.specs.Tables.{IsAfterAdmission, IsMore, IsSame, IsStill, kept_of};

use crate::inputs::Inputs;
use crate::known_costs::KnownCosts;
use crate::preparing::{Prepared, count_due, prepare_wishes};
use crate::stored::StoredState;
use mdl_check::CheckedWish;
use pn_types::NoMemory;
use std::alloc::Global;

/// Returns whether no wish drops a pair.
fn show_all(wishes: &[CheckedWish]) -> bool
    ensures { result ≡ list_all (λ w. w.show) wishes.now }
{
    wishes.iter().all(|wish| wish.show)
}

impl StoredState {
    /// Returns a lower bound of the costs in force during an admission in which these wishes are looked at: the costs that are in
    /// force now, and 0 where a pair is dropped.
    fn least_force(&self, wishes: &[CheckedWish]) -> u64
        requires few { length self.now.pairs < 2 ^ 31 }
        requires low { AllByRecursion (λ k. k.cost < 2 ^ 32) self.now.pairs }
        requires live { AreLive self.now.machine.state.placer self.now.pairs self.now.live }
        ensures least { result ≡ (if list_all (λ w. w.show) wishes.now then force_in self.now.machine.state.placer self.now.pairs else 0) }
        ensures bound { result < 2 ^ 63 }
    {
        if show_all(wishes) {
            return self.in_force();
        }
        0
    }

    /// Looks at wishes, one after another, and then lets the search take nodes. All memory is taken before anything changes.
    ///
    /// # Errors
    ///
    /// `NoMemory` where memory runs out. Then nothing but the memory that was taken has changed.
    #[inline(never)]
    pub(crate) fn admit(
        &mut self,
        alloc: Global,
        inputs: &Inputs,
        wishes: &[CheckedWish],
        costs: &mut KnownCosts,
    ) -> Result<(), NoMemory>
        requires given { AreGiven inputs.now }
        requires wishes { (w : CheckedWish) → In w wishes.now → IsWishOf inputs.now w }
        requires program { self.old.machine.state.core.program ≡ program_of inputs.now.image }
        requires rules { self.old.search.rules ≡ rules_of inputs.now }
        requires few { length self.old.pairs + length wishes.now + taken_at_once < 2 ^ 31 }
        requires costs { AllByRecursion (HasCost inputs.now) self.old.pairs }
        requires live { AreLive self.old.machine.state.placer self.old.pairs self.old.live }
        requires known { AreKnown inputs.now costs.old }
        ensures kept { OnOk result ((ws : List CheckedWish)
            → kept_of ws self.new ≡ with_tests inputs.now (with_all inputs.now wishes.now (kept_of ws self.old))) }
        ensures pairs { OnOk result (IsMore inputs.now self.old.pairs self.new.pairs) }
        ensures few { OnOk result (length self.new.pairs ≤ length self.old.pairs + length wishes.now + taken_at_once) }
        ensures still { OnOk result (IsStill self.old self.new) }
        ensures live { OnOk result (AreLive self.new.machine.state.placer self.new.pairs self.new.live) }
        ensures err { OnErr result (IsSame self.old self.new) }
        ensures known { AreKnown inputs.now costs.new }
    {
        let Prepared {
            mut plans,
            candidates,
        } = prepare_wishes(alloc, inputs, wishes)?;
        let force = self.least_force(wishes);
        let node_candidates = self.prepare_nodes(alloc, inputs, force, costs, &mut plans)?;
        self.reserve(alloc, &plans)?;
        let (of_wishes, of_nodes) = plans.split_at(wishes.len());
        self.consider_all(alloc, inputs, wishes, of_wishes, candidates);
        self.take_nodes(alloc, inputs, of_nodes, node_candidates);
        Ok(())
    }
}

/// Does an admission, where work was done since the last. Returns how many of the wishes, which are in the order of their ticks,
/// were looked at.
///
/// # Errors
///
/// `NoMemory` where memory runs out. Then nothing but the memory that was taken has changed.
#[inline(always)]
fn admit(
    alloc: Global,
    inputs: &Inputs,
    wishes: &[CheckedWish],
    stored: &mut StoredState,
    costs: &mut KnownCosts,
) -> Result<usize, NoMemory>
    requires given { AreGiven inputs.now }
    requires wishes { (w : CheckedWish) → In w wishes.now → IsWishOf inputs.now w }
    requires program { stored.old.machine.state.core.program ≡ program_of inputs.now.image }
    requires rules { stored.old.search.rules ≡ rules_of inputs.now }
    requires few { length stored.old.pairs + length wishes.now + taken_at_once < 2 ^ 31 }
    requires costs { AllByRecursion (HasCost inputs.now) stored.old.pairs }
    requires live { AreLive stored.old.machine.state.placer stored.old.pairs stored.old.live }
    requires known { AreKnown inputs.now costs.old }
    ensures ok { IfOk result (IsAfterAdmission inputs.now wishes.now stored.old stored.new) }
    ensures err { OnErr result (IsSame stored.old stored.new) }
    ensures known { AreKnown inputs.now costs.new }
{
    if !stored.worked {
        return Ok(0);
    }
    let due = count_due(wishes, stored.time);
    stored.admit(alloc, inputs, &wishes[..due], costs)?;
    stored.rest();
    Ok(due)
}

/// Does the same where the first `looked` wishes were looked at before.
///
/// # Errors
///
/// `NoMemory` where memory runs out. Then nothing but the memory that was taken has changed.
#[inline(always)]
pub(crate) fn admit_from(
    alloc: Global,
    inputs: &Inputs,
    wishes: &[CheckedWish],
    looked: usize,
    stored: &mut StoredState,
    costs: &mut KnownCosts,
) -> Result<usize, NoMemory>
    requires looked { looked ≤ length wishes.now }
    requires given { AreGiven inputs.now }
    requires wishes { (w : CheckedWish) → In w (drop looked wishes.now) → IsWishOf inputs.now w }
    requires program { stored.old.machine.state.core.program ≡ program_of inputs.now.image }
    requires rules { stored.old.search.rules ≡ rules_of inputs.now }
    requires few { length stored.old.pairs + length (drop looked wishes.now) + taken_at_once < 2 ^ 31 }
    requires costs { AllByRecursion (HasCost inputs.now) stored.old.pairs }
    requires live { AreLive stored.old.machine.state.placer stored.old.pairs stored.old.live }
    requires known { AreKnown inputs.now costs.old }
    ensures ok { IfOk result (IsAfterAdmission inputs.now (drop looked wishes.now) stored.old stored.new) }
    ensures err { OnErr result (IsSame stored.old stored.new) }
    ensures known { AreKnown inputs.now costs.new }
{
    admit(alloc, inputs, &wishes[looked..], stored, costs)
}
