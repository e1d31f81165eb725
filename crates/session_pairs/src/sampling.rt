//! The samples of what is shown or tested.

ghost use Rattle.std.specs.Prelude.{◌≡◌, ◌<◌, ◌≤◌, ◌+◌, ◌^◌, ◌++◌, IfSome, length, map, vec_len, vec_capacity};
ghost use Rattle.std.specs.List.{AllByRecursion, range_with_len};
ghost use Rattle.std.specs.Option.{option_map};
ghost use Rattle.fold_hist.specs.Steps.{pushed};
ghost use Rattle.pn_types.specs.declared.limits.TheConstants.{MAX_HARTS};
ghost use Rattle.machine.specs.Events.{IsQuiet};
ghost use Rattle.machine.specs.Measures.{difference};
ghost use Rattle.instrument.specs.Placements.{state_of};
ghost use Rattle.instrument.specs.declared.number.State.TheVariants.{Gone};
ghost use Rattle.session_spec.specs.Due.{is_armed, place_behind};
ghost use Rattle.session_spec.specs.Readings.{ticks_between, ticks_of};
ghost use Rattle.session_pairs.specs.SampledPairs.{AreLiveFrom, HasFew, HasHarts, pair_bin, pair_reading, pair_sampled, pairs_latest, pairs_tests, latest_by, test_by};

use crate::marking::ticks_since;
use crate::pair::SampledPair;
use crate::pairs::SampledPairs;
use fold_hist::{Bin, Hist};
use instrument::State;
use instrumented::InstrumentedMachine;
use machine::Sample;
use session_spec::LatestSample;
use w3_search::NodeSample;

/// Returns the difference of two sums modulo 2^64.
fn added(earlier: u64, later: u64) -> u64
    ensures { result ≡ difference earlier later }
{
    later.wrapping_sub(earlier)
}

/// Returns what the instrument of a pair reads. It isn't gone, and no hart is inside a trampoline.
pub fn read_pair(machine: &InstrumentedMachine, pair: &SampledPair, sample: &mut Sample) -> u64
    requires quiet { IsQuiet machine.now.state.core }
    requires there { state_of machine.now.state.placer pair.now.shown.instrument.n ≡ Gone → ⊥ }
    requires places { length sample.old.readings ≡ length machine.now.state.core.harts }
    requires harts { pair.now.first + pair.now.count ≤ length machine.now.state.core.harts }
    ensures reading { result ≡ pair_reading machine.now.state pair.now }
    ensures places { length sample.new.readings ≡ length sample.old.readings }
{
    machine.read(pair.shown.instrument, pair.first, pair.count, sample)
}

/// Returns whether the instrument of a pair is armed.
pub fn is_armed(machine: &InstrumentedMachine, pair: &SampledPair) -> bool
    ensures { result ≡ is_armed machine.now.state.placer pair.now.shown }
{
    matches!(machine.state(pair.shown.instrument), State::Armed)
}

/// Appends a sample to a histogram, if there is one.
fn record_bin(hist: &mut Option<Hist>, bin: Bin)
    requires { IfSome hist.old (λ hist. hist.count < 2 ^ 32) }
    ensures { hist.new ≡ option_map (λ hist. pushed hist bin) hist.old }
{
    if let Some(hist) = hist {
        hist.push(bin.sum, bin.from, bin.to);
    }
}

/// Samples a pair, if it is armed.
fn sample_pair(
    machine: &InstrumentedMachine,
    time: u64,
    pair: &mut SampledPair,
    sample: &mut Sample,
) -> Option<Bin>
    requires quiet { IsQuiet machine.now.state.core }
    requires places { length sample.old.readings ≡ length machine.now.state.core.harts }
    requires harts { pair.old.first + pair.old.count ≤ length machine.now.state.core.harts }
    requires few { HasFew pair.old }
    ensures pair { pair.new ≡ pair_sampled machine.now.state time pair.old }
    ensures bin { result ≡ pair_bin machine.now.state time pair.old }
    ensures places { length sample.new.readings ≡ length sample.old.readings }
{
    if !is_armed(machine, pair) {
        return None;
    }
    let reading = read_pair(machine, pair, sample);
    let bin = Bin {
        from: pair.shown.from,
        to: time,
        sum: added(pair.last, reading),
    };
    record_bin(&mut pair.hist, bin);
    pair.shown.from = time;
    pair.last = reading;
    Some(bin)
}

/// Appends a sample, if there is one, to those of what was wished. There is room for it.
fn put_latest(list: &mut Vec<LatestSample>, node: Option<u32>, place: u32, bin: Option<Bin>)
    requires { vec_len list.old < vec_capacity list.old }
    ensures items { list.new.items ≡ list.old.items ++ latest_by node place bin }
    ensures room { vec_capacity list.old ≤ vec_capacity list.new }
{
    if let (None, Some(bin)) = (node, bin) {
        // There is room, so this can't fail.
        let _room = list.push(LatestSample {
            shown: place,
            from: bin.from,
            to: bin.to,
            sum: bin.sum,
        });
    }
}

/// Appends a sample, if there is one, to those of nodes. There is room for it. Its ticks are those that the pair's harts had since
/// the last sample.
fn put_test(
    list: &mut Vec<NodeSample>,
    node: Option<u32>,
    bin: Option<Bin>,
    machine: &InstrumentedMachine,
    marks: &[u64],
    first: u32,
    count: u32,
)
    requires room { vec_len list.old < vec_capacity list.old }
    requires marks { length marks.now ≡ length machine.now.state.core.harts }
    requires small { AllByRecursion (λ x. x.ticks < 2 ^ 58) machine.now.state.core.harts }
    requires most { length machine.now.state.core.harts ≤ MAX_HARTS }
    requires harts { first + count ≤ length machine.now.state.core.harts }
    ensures items { list.new.items
        ≡ list.old.items ++ test_by node (ticks_between (range_with_len first count) marks.now (ticks_of machine.now.state)) bin }
    ensures room { vec_capacity list.old ≤ vec_capacity list.new }
{
    if let (Some(node), Some(bin)) = (node, bin) {
        let ticks = ticks_since(machine, marks, first, count);
        // There is room, so this can't fail.
        let _room = list.push(NodeSample {
            node,
            from: bin.from,
            value: bin.sum,
            ticks,
        });
    }
}

/// Returns the place that follows a pair's, where only pairs that were wished have places.
fn place_behind(node: Option<u32>, place: u32) -> u32
    requires { place + 1 < 2 ^ 32 }
    ensures { result ≡ place_behind node place }
{
    match node {
        None => place + 1,
        Some(_) => place,
    }
}

/// Samples each pair that is armed. It appends the samples of those that were wished to the latest, and those of nodes to the
/// tests; there is room for them. The marks are how many ticks each hart had at the last sample.
pub fn sample_pairs(
    machine: &InstrumentedMachine,
    time: u64,
    marks: &[u64],
    pairs: &mut SampledPairs,
    latest: &mut Vec<LatestSample>,
    tests: &mut Vec<NodeSample>,
    sample: &mut Sample,
)
    requires quiet { IsQuiet machine.now.state.core }
    requires live { AreLiveFrom 0 machine.now.state.placer pairs.old.all.items pairs.old.live.items }
    requires marks { length marks.now ≡ length machine.now.state.core.harts }
    requires small { AllByRecursion (λ x. x.ticks < 2 ^ 58) machine.now.state.core.harts }
    requires most { length machine.now.state.core.harts ≤ MAX_HARTS }
    requires places { length sample.old.readings ≡ length machine.now.state.core.harts }
    requires harts { AllByRecursion (HasHarts (length machine.now.state.core.harts)) pairs.old.all.items }
    requires few { AllByRecursion HasFew pairs.old.all.items }
    requires number { vec_len pairs.old.all < 2 ^ 32 }
    requires room { vec_len latest.old + vec_len pairs.old.all ≤ vec_capacity latest.old }
    requires test_room { vec_len tests.old + vec_len pairs.old.all ≤ vec_capacity tests.old }
    ensures pairs { pairs.new.all.items ≡ map (pair_sampled machine.now.state time) pairs.old.all.items }
    ensures live { pairs.new.live ≡ pairs.old.live }
    ensures latest { latest.new.items ≡ latest.old.items ++ pairs_latest machine.now.state time 0 pairs.old.all.items }
    ensures tests { tests.new.items ≡ tests.old.items ++ pairs_tests machine.now.state marks.now pairs.old.all.items }
    ensures places { length sample.new.readings ≡ length sample.old.readings }
    ensures many { vec_len pairs.new.all ≡ vec_len pairs.old.all }
    ensures capacity { vec_capacity pairs.new.all ≡ vec_capacity pairs.old.all }
    ensures no_less { vec_capacity latest.old ≤ vec_capacity latest.new }
    ensures tests_no_less { vec_capacity tests.old ≤ vec_capacity tests.new }
{
    let mut wished: u32 = 0;
    for turn in 0..pairs.live.len() {
        let place = pairs.live[turn];
        let pair = &mut pairs.all[place];
        let node = pair.shown.node;
        let first = pair.first;
        let count = pair.count;
        let bin = sample_pair(machine, time, pair, sample);
        put_latest(latest, node, wished, bin);
        put_test(tests, node, bin, machine, marks, first, count);
        wished = place_behind(node, wished);
    }
}
