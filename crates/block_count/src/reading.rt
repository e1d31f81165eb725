//! What is read off a machine that has settled.

ghost use Rattle.std.specs.Prelude.{◌≡◌, ◌+◌, ◌<◌, ◌≤◌, ◌%◌, ◌^◌, length, map, nat_lt, sum, slice_get, Some, IfOk, OnOk};
ghost use Rattle.machine.specs.Events.{IsQuiet};
ghost use Rattle.block_count.specs.Readings.{counter_read, counts_read, stop_seen, stops_seen, ticks_seen};

use crate::counted_block::CountedBlock;
use crate::counter::Counter;
use crate::counts::HartStop;
use machine::{Machine, Sample};
use pn_types::{HartNo, MAX_HARTS, NoMemory, Seq};
use report::hart_end;
use std::alloc::Global;

/// Returns how many words each hart executed.
///
/// # Errors
///
/// `NoMemory` where memory runs out.
pub fn ticks(alloc: Global, machine: &Machine, harts: u32) -> Result<Vec<u64>, NoMemory>
    requires harts { harts ≡ length machine.now.core.harts }
    requires few { harts ≤ MAX_HARTS }
    ensures { IfOk result (λ ticks. ticks.items ≡ ticks_seen machine.now.core) }
{
    let mut ticks = Vec::new(alloc);
    for number in 0..harts {
        ticks.push(machine.ticks(HartNo::numbered(number)))?;
    }
    Ok(ticks)
}

/// Returns how a hart ended, and where.
fn hart_stop(machine: &Machine, budget: u64, hart: HartNo) -> HartStop
    requires { hart < length machine.now.core.harts }
    ensures { slice_get (stops_seen budget machine.now.core) hart ≡ Some result }
{
    let going = machine.ticks(hart) < budget;
    HartStop {
        stop: hart_end(machine.stop(hart), going),
        pc: machine.at(hart),
    }
}

/// Returns how each hart ended, and where.
///
/// # Errors
///
/// `NoMemory` where memory runs out.
pub fn stops(
    alloc: Global,
    machine: &Machine,
    harts: u32,
    budget: u64,
) -> Result<Vec<HartStop>, NoMemory>
    requires harts { harts ≡ length machine.now.core.harts }
    requires few { harts ≤ MAX_HARTS }
    ensures { IfOk result (λ stops. stops.items ≡ stops_seen budget machine.now.core) }
{
    let mut stops = Vec::new(alloc);
    for number in 0..harts {
        stops.push(hart_stop(machine, budget, HartNo::numbered(number)))?;
    }
    Ok(stops)
}

/// Returns the sum of readings, modulo 2^64.
fn sum_of(readings: &[u64]) -> u64
    ensures { result ≡ sum readings.now % 2 ^ 64 }
{
    let mut total: u64 = 0;
    for reading in readings {
        total = total.wrapping_add(*reading);
    }
    total
}

/// Returns what a counter reads on all harts together. `sample` has a place for each of them.
fn read(
    alloc: Global,
    machine: &Machine,
    counter: &Counter,
    sample: &mut Sample,
) -> Result<u64, NoMemory>
    requires quiet { IsQuiet machine.now.core }
    requires places { length sample.old.readings ≡ length machine.now.core.harts }
    ensures read { IfOk result (λ count. count ≡ counter_read machine.now.core counter.now) }
    ensures places { length sample.new.readings ≡ length machine.now.core.harts }
{
    let placed = counter.placed(alloc)?;
    // The machine is quiet, so this reads.
    let _quiet = machine.sample(&placed, sample);
    Ok(sum_of(sample.readings.as_slice()))
}

/// Returns what the counter of each block reads, if it has one.
///
/// # Errors
///
/// `NoMemory` where memory runs out.
pub fn counts(
    alloc: Global,
    machine: &Machine,
    harts: u32,
    blocks: &[CountedBlock],
) -> Result<Vec<Option<u64>>, NoMemory>
    requires quiet { IsQuiet machine.now.core }
    requires harts { harts ≡ length machine.now.core.harts }
    ensures { IfOk result (λ counts. counts.items ≡ counts_read machine.now.core blocks.now) }
{
    let mut sample = Sample {
        readings: Seq::from_vec(vec![in alloc; 0; harts as usize]?),
    };
    let mut counts = Vec::new(alloc);
    for block in blocks {
        let count = match &block.counter {
            Some(counter) => Some(read(alloc, machine, counter, &mut sample)?),
            None => None,
        };
        counts.push(count)?;
    }
    Ok(counts)
}
