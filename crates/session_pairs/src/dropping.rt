//! Drops tests that ended.

ghost use Rattle.std.specs.Prelude.{◌≡◌, Some, find, map, not};
ghost use Rattle.std.specs.Option.{option_map};
ghost use Rattle.instrument.specs.Placements.{is_leaving, state_of};
ghost use Rattle.w3_search.specs.Nodes.{is_same_number};
ghost use Rattle.session_spec.specs.Verdicts.{tester_of, tests};
ghost use Rattle.session_pairs.specs.SampledPairs.{AreLive, AreLiveFrom, dropped_by, dropped_tests};

use crate::pair::SampledPair;
use crate::pairs::SampledPairs;
use instrument::{InstrumentNo, State};
use instrumented::InstrumentedMachine;

/// Returns whether the instrument is being placed or armed.
fn stands(machine: &InstrumentedMachine, number: InstrumentNo) -> bool
    ensures { result ≡ not (is_leaving (state_of machine.now.state.placer number.n)) }
{
    matches!(machine.state(number), State::Placing | State::Armed)
}

/// Returns whether an instrument is that of a node.
fn is_of(pair: &SampledPair, node: u32) -> bool
    ensures { result ≡ is_same_number pair.now.shown.node (Some node) }
{
    match pair.shown.node {
        Some(tested) => tested == node,
        None => false,
    }
}

/// Returns whether a node is tested by an instrument.
fn tests(machine: &InstrumentedMachine, pair: &SampledPair, node: u32) -> bool
    ensures { result ≡ tests machine.now.state.placer node pair.now.shown }
{
    is_of(pair, node) && stands(machine, pair.shown.instrument)
}

/// Returns the instrument that tests a node.
fn find_tester(
    machine: &InstrumentedMachine,
    pairs: &SampledPairs,
    node: u32,
) -> Option<InstrumentNo>
    requires { AreLiveFrom 0 machine.now.state.placer pairs.now.all.items pairs.now.live.items }
    ensures { result ≡ option_map (λ k. k.shown.instrument) (find (λ k. tests machine.now.state.placer node k.shown) pairs.now.all.items) }
{
    for place in &pairs.live {
        let pair = &pairs.all[*place];
        if tests(machine, pair, node) {
            return Some(pair.shown.instrument);
        }
    }
    None
}

/// Drops the instrument that tests a node, if there is one.
fn drop_test(machine: &mut InstrumentedMachine, pairs: &SampledPairs, node: u32)
    requires live { AreLiveFrom 0 machine.old.state.placer pairs.now.all.items pairs.now.live.items }
    ensures machine { machine.new ≡ record machine.old {
      state = dropped_by
          (tester_of machine.old.state.placer node (map (λ k. k.shown) pairs.now.all.items)) machine.old.state;
    } }
    ensures core { machine.new.state.core ≡ machine.old.state.core }
{
    if let Some(number) = find_tester(machine, pairs, node) {
        machine.drop(number);
    }
}

/// Drops the instruments that test these nodes, one after another. It takes no memory.
pub fn drop_tests(machine: &mut InstrumentedMachine, pairs: &SampledPairs, nodes: &[u32])
    requires live { AreLive machine.old.state.placer pairs.now.all.items pairs.now.live.items }
    ensures machine { machine.new
        ≡ record machine.old { state = dropped_tests nodes.now (map (λ k. k.shown) pairs.now.all.items) machine.old.state } }
    ensures core { machine.new.state.core ≡ machine.old.state.core }
{
    for node in nodes {
        drop_test(machine, pairs, *node);
    }
}
