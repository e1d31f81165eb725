//! The ticks of harts since the last sample.

ghost use Rattle.std.specs.Prelude.{◌≡◌, ◌<◌, ◌≤◌, ◌+◌, ◌^◌, length, slice_index, vec_capacity, vec_len};
ghost use Rattle.std.specs.List.{AllByRecursion, range_with_len};
ghost use Rattle.pn_types.specs.declared.limits.TheConstants.{MAX_HARTS};
ghost use Rattle.session_spec.specs.Readings.{ticks_between, ticks_of};

use instrumented::InstrumentedMachine;
use pn_types::HartNo;

/// Returns how many ticks the hart of a number had.
#[tactic(auto, using(crate::proofs::Ticks::ticks_at))]
fn ticks_at(machine: &InstrumentedMachine, hart: u32) -> u64
    requires hart { hart < length machine.now.state.core.harts }
    requires most { length machine.now.state.core.harts ≤ MAX_HARTS }
    ensures { result ≡ slice_index (ticks_of machine.now.state) hart }
{
    machine.ticks(HartNo::numbered(hart))
}

/// Returns how many ticks `count` harts from number `first` on had in all since each had as many as its mark says.
pub(crate) fn ticks_since(
    machine: &InstrumentedMachine,
    marks: &[u64],
    first: u32,
    count: u32,
) -> u64
    requires marks { length marks.now ≡ length machine.now.state.core.harts }
    requires small { AllByRecursion (λ x. x.ticks < 2 ^ 58) machine.now.state.core.harts }
    requires most { length machine.now.state.core.harts ≤ MAX_HARTS }
    requires harts { first + count ≤ length machine.now.state.core.harts }
    ensures { result ≡ ticks_between (range_with_len first count) marks.now (ticks_of machine.now.state) }
{
    let mut ticks: u64 = 0;
    for hart in first..first + count {
        ticks += ticks_at(machine, hart).saturating_sub(marks[hart as usize]);
    }
    ticks
}

/// Sets the marks to how many ticks each hart had so far.
pub fn mark_ticks(machine: &InstrumentedMachine, marks: &mut Vec<u64>)
    requires marks { vec_len marks.old ≡ length machine.now.state.core.harts }
    requires most { length machine.now.state.core.harts ≤ MAX_HARTS }
    ensures marks { marks.new.items ≡ ticks_of machine.now.state }
    ensures many { vec_len marks.new ≡ vec_len marks.old }
    ensures capacity { vec_capacity marks.new ≡ vec_capacity marks.old }
{
    for hart in 0..marks.len() {
        marks[hart] = ticks_at(machine, hart as u32);
    }
}
