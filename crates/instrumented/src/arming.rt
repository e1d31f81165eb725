//! Arms, reads and drops instruments.

ghost use Rattle.std.specs.Prelude.{◌≡◌, ◌≤◌, ◌+◌, ◌⊎◌, if◌then◌else◌, IfSome, IsTrue, length};
ghost use Rattle.std.specs.List.{range_with_len};
ghost use Rattle.machine.specs.Events.{IsQuiet};
ghost use Rattle.machine.specs.Readings.{readings};
ghost use Rattle.instrument.specs.Placements.{instrument_at, state_of};
ghost use Rattle.instrument.specs.Scenes.{Arms, Drops};
ghost use Rattle.instrument.specs.declared.number.State.TheVariants.{Armed, Gone, Placing};
ghost use Rattle.instrumented.specs.Instrumented.{after_act, is_linked};
ghost use Rattle.instrumented.specs.Sums.{sum_from};

use crate::instrumented_machine::InstrumentedMachine;
use instrument::InstrumentNo;
use machine::Sample;

/// Returns the sum of the readings of `count` harts from number `first` on, modulo 2^64.
fn sum_of(readings: &[u64], first: u32, count: u32) -> u64
    requires { first + count ≤ length readings.now }
    ensures { result ≡ sum_from readings.now first count }
{
    let mut sum: u64 = 0;
    for behind in 0..count {
        let place = first as usize + (count - 1 - behind) as usize;
        sum = sum.wrapping_add(readings[place]);
    }
    sum
}

impl InstrumentedMachine {
    /// Arms an instrument that is being placed where all its sites are linked, and returns whether they are. No hart is inside a
    /// trampoline. It takes no memory.
    pub fn arm(&mut self, number: InstrumentNo) -> bool
        requires quiet { IsQuiet self.old.state.core }
        requires placing { state_of self.old.state.placer number.n ≡ Placing }
        ensures linked { result ≡ is_linked self.old.state number.n }
        ensures state { self.new ≡ record self.old { state = if result then after_act (Arms number.n) self.old.state else self.old.state } }
        ensures armed { IsTrue result → state_of self.new.state.placer number.n ≡ Armed }
        ensures quiet { IsQuiet self.new.state.core }
        ensures harts { length self.new.state.core.harts ≡ length self.old.state.core.harts }
    {
        if !self.machine.arm(self.placer.placed(number)) {
            return false;
        }
        self.placer.armed(number);
        true
    }

    /// Returns the sum of an instrument's readings of `count` harts from number `first` on, modulo 2^64. No hart is inside a
    /// trampoline. `sample` has a place for each hart, where their readings are put.
    pub fn read(&self, number: InstrumentNo, first: u32, count: u32, sample: &mut Sample) -> u64
        requires quiet { IsQuiet self.now.state.core }
        requires there { state_of self.now.state.placer number.n ≡ Gone → ⊥ }
        requires places { length sample.old.readings ≡ length self.now.state.core.harts }
        requires harts { first + count ≤ length self.now.state.core.harts }
        ensures sum { IfSome (instrument_at self.now.state.placer number.n)
            (λ i. result ≡ readings i.placed (range_with_len first count) self.now.state.core) }
        ensures places { length sample.new.readings ≡ length sample.old.readings }
    {
        self.machine.sample(self.placer.placed(number), sample);
        sum_of(sample.readings.as_slice(), first, count)
    }

    /// Drops an instrument that wasn't dropped: the unlinking of its sites is put into the agenda. It takes no memory.
    pub fn drop(&mut self, number: InstrumentNo)
        requires { (state_of self.old.state.placer number.n ≡ Placing) ⊎ (state_of self.old.state.placer number.n ≡ Armed) }
        ensures state { self.new ≡ record self.old { state = after_act (Drops number.n) self.old.state } }
        ensures core { self.new.state.core ≡ self.old.state.core }
    {
        self.placer.drop(number);
    }
}
