//! The loop, patched.

ghost use Rattle.std.specs.Prelude.{◌≡◌, IfOk};
ghost use Rattle.test_examples.specs.LoopCounted.{linking, loop_core};
ghost use Rattle.machine.specs.Replays.{replay};
ghost use Rattle.test_examples.specs.ThreeCounters.{adding, counted};

use crate::patched::blocks::{counter, loop_base, mini};
use crate::patched::events::{add_mini, arm, link_blocks};
use crate::patched::images::loop_image;
use machine::Machine;
use pn_types::NoMemory;
use std::alloc::Global;

/// The loop on one hart under a budget, with room for five blocks.
fn loop_machine(alloc: Global, budget: u64) -> Result<Machine, NoMemory>
    ensures { IfOk result (λ machine. machine ≡ record { core = loop_core budget; room = 5 }) }
{
    let image = loop_image(alloc)?;
    let mut machine = Machine::new(alloc, &image, 1, budget)?;
    machine.reserve(5)?;
    Ok(machine)
}

/// The same with a mini block linked that counts on slot 2, and with room for three blocks more.
fn linked_loop(alloc: Global, budget: u64) -> Result<Machine, NoMemory>
    ensures { IfOk result (λ machine. machine ≡ record { core = replay linking (loop_core budget); room = 3 }) }
{
    let base = loop_base(alloc)?;
    let first = mini(alloc, 2, 0x11010, 0x11008)?;
    let mut machine = loop_machine(alloc, budget)?;
    link_blocks(&mut machine, &base, &first);
    Ok(machine)
}

/// The loop with three mini blocks, with room for one block more.
fn three_linked(alloc: Global) -> Result<Machine, NoMemory>
    ensures { IfOk result (λ machine. machine ≡ record { core = replay adding (replay linking (loop_core 1000)); room = 1 }) }
{
    let second = mini(alloc, 3, 0x11024, 0x11010)?;
    let third = mini(alloc, 4, 0x11038, 0x11024)?;
    let mut machine = linked_loop(alloc, 1_000)?;
    add_mini(&mut machine, &second);
    add_mini(&mut machine, &third);
    Ok(machine)
}

/// The same with the three counters armed.
///
/// # Errors
///
/// `NoMemory` if memory runs out.
pub fn three_counted(alloc: Global) -> Result<Machine, NoMemory>
    ensures { IfOk result (λ machine. machine ≡ record { core = counted; room = 1 }) }
{
    let first = counter(alloc, 2, 0x11010)?;
    let second = counter(alloc, 3, 0x11024)?;
    let third = counter(alloc, 4, 0x11038)?;
    let mut machine = three_linked(alloc)?;
    arm(&mut machine, &first);
    arm(&mut machine, &second);
    arm(&mut machine, &third);
    Ok(machine)
}
