//! Arms what is shown.

ghost use Rattle.std.specs.Prelude.{◌≡◌, ◌+◌, ◌≤◌, length, vec_capacity, vec_len};
ghost use Rattle.std.specs.List.{AllByRecursion};
ghost use Rattle.machine.specs.Events.{IsQuiet};
ghost use Rattle.instrument.specs.Placements.{state_of};
ghost use Rattle.session_spec.specs.Due.{is_placing, machine_armed};
ghost use Rattle.session_pairs.specs.SampledPairs.{AreLive, HasHarts, pair_armed, pairs_armed, machine_of_armed};

use crate::pair::SampledPair;
use crate::pairs::SampledPairs;
use crate::sampling::read_pair;
use instrument::State;
use instrumented::InstrumentedMachine;
use machine::Sample;

/// Returns whether the instrument of a pair is being placed.
fn is_placing(machine: &InstrumentedMachine, pair: &SampledPair) -> bool
    ensures { result ≡ is_placing (state_of machine.now.state.placer pair.now.shown.instrument.n) }
{
    matches!(machine.state(pair.shown.instrument), State::Placing)
}

/// Arms the instrument of a pair where it is being placed and all its sites are linked, and reads it.
fn arm_pair(
    machine: &mut InstrumentedMachine,
    time: u64,
    pair: &mut SampledPair,
    sample: &mut Sample,
)
    requires quiet { IsQuiet machine.old.state.core }
    requires places { length sample.old.readings ≡ length machine.old.state.core.harts }
    requires harts { HasHarts (length machine.old.state.core.harts) pair.old }
    ensures machine { machine.new ≡ record machine.old { state = machine_armed machine.old.state pair.old.shown } }
    ensures pair { pair.new ≡ pair_armed time machine.old.state pair.old }
    ensures quiet { IsQuiet machine.new.state.core }
    ensures harts { length machine.new.state.core.harts ≡ length machine.old.state.core.harts }
    ensures places { length sample.new.readings ≡ length sample.old.readings }
{
    if !is_placing(machine, pair) {
        return;
    }
    if !machine.arm(pair.shown.instrument) {
        return;
    }
    pair.last = read_pair(machine, pair, sample);
    pair.shown.armed = Some(time);
    pair.shown.from = time;
}

/// Arms the instruments of all pairs that are ready, one after another.
pub fn arm_pairs(
    machine: &mut InstrumentedMachine,
    time: u64,
    pairs: &mut SampledPairs,
    sample: &mut Sample,
)
    requires quiet { IsQuiet machine.old.state.core }
    requires live { AreLive machine.old.state.placer pairs.old.all.items pairs.old.live.items }
    requires places { length sample.old.readings ≡ length machine.old.state.core.harts }
    requires harts { AllByRecursion (HasHarts (length machine.old.state.core.harts)) pairs.old.all.items }
    ensures machine { machine.new ≡ record machine.old { state = machine_of_armed machine.old.state pairs.old.all.items } }
    ensures pairs { pairs.new.all.items ≡ pairs_armed time machine.old.state pairs.old.all.items }
    ensures live { pairs.new.live ≡ pairs.old.live }
    ensures quiet { IsQuiet machine.new.state.core }
    ensures harts { length machine.new.state.core.harts ≡ length machine.old.state.core.harts }
    ensures places { length sample.new.readings ≡ length sample.old.readings }
    ensures many { vec_len pairs.new.all ≡ vec_len pairs.old.all }
    ensures capacity { vec_capacity pairs.new.all ≡ vec_capacity pairs.old.all }
{
    for turn in 0..pairs.live.len() {
        let place = pairs.live[turn];
        arm_pair(machine, time, &mut pairs.all[place], sample);
    }
}
