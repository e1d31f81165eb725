//! Pairs in the order of their admission.

ghost use Rattle.std.specs.Prelude.{◌≡◌, ◌++◌, ◌∷◌, [], ◌<◌, ◌≤◌, false, slice_get, vec_capacity, vec_len};
ghost use Rattle.std.specs.Option.{option_map_or};
ghost use Rattle.session_pairs.specs.SampledPairs.{is_gone_test, live_of};

use crate::pair::SampledPair;
use instrument::State;
use instrumented::InstrumentedMachine;

/// Pairs in the order of their admission.
#[derive(Drop)]
pub struct SampledPairs {
    /// All of them.
    pub all: Vec<SampledPair>,
    /// The places of those that were wished, and of the tests that aren't gone, ascending. One that is gone may stand among them for
    /// a while.
    pub live: Vec<usize>,
}

/// Returns whether a pair is a test whose instrument is gone.
fn is_gone_test(machine: &InstrumentedMachine, pair: &SampledPair) -> bool
    ensures { result ≡ is_gone_test machine.now.state.placer pair.now }
{
    pair.shown.node.is_some() && matches!(machine.state(pair.shown.instrument), State::Gone)
}

/// Returns whether the pair at a place, if there is one, is a test whose instrument is gone.
fn is_gone_at(machine: &InstrumentedMachine, pairs: &[SampledPair], place: usize) -> bool
    ensures { result ≡ option_map_or (is_gone_test machine.now.state.placer) (slice_get pairs.now place) false }
{
    match pairs.get(place) {
        Some(pair) => is_gone_test(machine, pair),
        None => false,
    }
}

/// Removes from these places those of tests whose instruments are gone.
fn retain_live(machine: &InstrumentedMachine, pairs: &[SampledPair], live: &mut Vec<usize>)
    ensures live { live.new.items ≡ live_of machine.now.state.placer pairs.now live.old.items }
    ensures less { vec_len live.new ≤ vec_len live.old }
    ensures capacity { vec_capacity live.new ≡ vec_capacity live.old }
{
    live.retain(|place| !is_gone_at(machine, pairs, *place));
}

impl SampledPairs {
    /// Appends a pair, for which there is room.
    pub fn put(&mut self, pair: SampledPair)
        requires room { vec_len self.old.all < vec_capacity self.old.all }
        requires live_room { vec_len self.old.live < vec_capacity self.old.live }
        ensures all { self.new.all.items ≡ self.old.all.items ++ pair ∷ [] }
        ensures live { self.new.live.items ≡ self.old.live.items ++ vec_len self.old.all ∷ [] }
        ensures capacity { vec_capacity self.old.all ≤ vec_capacity self.new.all }
        ensures live_capacity { vec_capacity self.old.live ≤ vec_capacity self.new.live }
    {
        let place = self.all.len();
        // There is room, so neither can fail.
        let _room = self.live.push(place);
        let _room = self.all.push(pair);
    }

    /// Forgets tests whose instruments are gone, so that they cost nothing from now on.
    pub fn forget_gone(&mut self, machine: &InstrumentedMachine)
        ensures all { self.new.all ≡ self.old.all }
        ensures live { self.new.live.items ≡ live_of machine.now.state.placer self.old.all.items self.old.live.items }
        ensures less { vec_len self.new.live ≤ vec_len self.old.live }
        ensures capacity { vec_capacity self.new.live ≡ vec_capacity self.old.live }
    {
        retain_live(machine, &self.all, &mut self.live);
    }
}
