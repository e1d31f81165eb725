//! How often a run executes each basic block of a program.

ghost use Rattle.std.specs.Prelude.{◌≡◌, ◌≤◌, ◌<◌, ◌*◌, None, length, map, IfErr, IfOk};
ghost use Rattle.machine.specs.Cores.{start_core};
ghost use Rattle.machine.specs.Events.{IsQuiet};
ghost use Rattle.machine.specs.Replays.{Legal, replay};
ghost use Rattle.pn_types.specs.Images.{IsImage, text_of};
ghost use Rattle.rv_word.specs.Names.{scratch_in, words_of};
ghost use Rattle.block_count.specs.Counted.{IsCounted, IsFault};
ghost use Rattle.block_count.specs.Course.{beginning, turns_of};
ghost use Rattle.block_count.specs.Readings.{counts_read, stops_seen, ticks_seen};

use crate::counted_block::{CountedBlock, counted_blocks, counters};
use crate::counter::Counter;
use crate::counts::{CountFault, Counts};
use crate::placing::{arm_all, place_all};
use crate::reading::{counts, stops, ticks};
use crate::turns::take_turns;
use machine::Machine;
use pn_types::{BANK_LEN, FIRST_SLOT, Image, MAX_BUDGET, MAX_HARTS, NoMemory, Proc, Seq};
use std::alloc::Global;

/// The greatest number of counters: a hart has as many slots.
const MAX_COUNTERS: usize = (BANK_LEN - FIRST_SLOT) as usize;

/// Returns the machine in which an image starts, with all counters placed and armed.
fn begun(
    alloc: Global,
    image: &Image,
    counters: &[&Counter],
    harts: u32,
    budget: u64,
) -> Result<Machine, NoMemory>
    requires image { IsImage image.now }
    requires unscratched { scratch_in (words_of (text_of image.now)) image.now.text_at ≡ None }
    requires harts { harts ≤ MAX_HARTS }
    requires few { length counters.now ≤ MAX_COUNTERS }
    requires may { Legal (beginning (map (λ c. c.now) counters.now)) (start_core image.now harts budget) }
    ensures begun { IfOk result (λ m. m.core ≡ replay (beginning (map (λ c. c.now) counters.now)) (start_core image.now harts budget)) }
{
    let mut machine = Machine::new(alloc, image, harts, budget)?;
    machine.reserve(2 * counters.len() as u32)?;
    place_all(alloc, &mut machine, counters)?;
    arm_all(alloc, &mut machine, counters)?;
    Ok(machine)
}

/// Returns what is read off a machine that has settled.
fn read(
    alloc: Global,
    machine: &Machine,
    blocks: &[CountedBlock],
    harts: u32,
    budget: u64,
) -> Result<Counts, NoMemory>
    requires quiet { IsQuiet machine.now.core }
    requires harts { harts ≡ length machine.now.core.harts }
    requires few { harts ≤ MAX_HARTS }
    ensures ticks { IfOk result (λ r. r.ticks ≡ ticks_seen machine.now.core) }
    ensures stops { IfOk result (λ r. r.stops ≡ stops_seen budget machine.now.core) }
    ensures counts { IfOk result (λ r. r.counts ≡ counts_read machine.now.core blocks.now) }
{
    Ok(Counts {
        ticks: Seq::from_vec(ticks(alloc, machine, harts)?),
        stops: Seq::from_vec(stops(alloc, machine, harts, budget)?),
        counts: Seq::from_vec(counts(alloc, machine, harts, blocks)?),
    })
}

/// Counts how often each basic block of a program is executed: a counter is placed at the first word of each that can be moved and
/// armed, the harts take quanta of at most `turns` turns in the order of a seed until none is runnable or there are as many quanta
/// as there may be, the machine settles, and the counters are read. So the ticks, stops and counts are those of a run of the
/// unpatched program.
///
/// # Errors
///
/// `TooManyBlocks` with the number of blocks that can be counted exactly where there are more than slots; `NoMemory` where memory
/// runs out.
pub fn count(
    alloc: Global,
    image: &Image,
    procs: &[Proc],
    harts: u32,
    budget: u64,
    seed: u32,
    quantum: u32,
) -> Result<Counts, CountFault>
    requires image { IsImage image.now }
    requires unscratched { scratch_in (words_of (text_of image.now)) image.now.text_at ≡ None }
    requires harts { harts ≤ MAX_HARTS }
    requires budget { budget ≤ MAX_BUDGET }
    ensures counted { IfOk result (IsCounted image.now procs.now budget (record { harts = harts; turns = quantum; seed = seed })) }
    ensures refused { IfErr result (IsFault image.now procs.now) }
{
    let blocks = counted_blocks(alloc, image, procs)?;
    let counters = counters(alloc, &blocks)?;
    if counters.len() > MAX_COUNTERS {
        return Err(CountFault::TooManyBlocks(counters.len() as u32));
    }
    let mut machine = begun(alloc, image, &counters, harts, budget)?;
    take_turns(alloc, &mut machine, harts, seed, quantum)?;
    Ok(read(alloc, &machine, &blocks, harts, budget)?)
}
