//! The machines that rows name, each of one hart.
//!
//! - `words`: `addi a0, a0, 1`, `li a7, 93` and `ecall`. At the first a mini block is linked, whose counter is `w`. It isn't armed.
//! - `loop`: a jump to itself, with three mini blocks whose counters `a`, `b` and `c` are armed. A hart goes through them from the last.
//! - `passed`: the same after eight turns, with the hart at the mini block of `b`; this and that of `a` are unlinked then.
//! - `renewed`: the same once the hart has left and both are freed, with a fourth mini block in the room of the first, whose counter `d`
//!   is armed. What freeing and settling returned is printed.

ghost use Rattle.std.specs.Prelude.{◌≡◌, IfOk, IfSome, length};
ghost use Rattle.machine.specs.Cores.{start_core};
ghost use Rattle.test_examples.specs.HartInside.{first_linked, three_image};
ghost use Rattle.test_examples.specs.ThreeCounters as example;

use crate::patched::blocks::{counter, mini, words_base};
use crate::patched::events::link_blocks;
use crate::patched::images::words_image;
use crate::patched::loops::three_counted;
use crate::patched::unlinking::{passed_by, renew};
use machine::Machine;
use pn_types::NoMemory;
use std::alloc::Global;
use std::io;

/// The three words, with room for two blocks.
fn words_machine(alloc: Global) -> Result<Machine, NoMemory>
    ensures { IfOk result (λ machine. machine ≡ record { core = start_core three_image 1 1000; room = 2 }) }
{
    let image = words_image(alloc)?;
    let mut machine = Machine::new(alloc, &image, 1, 1_000)?;
    machine.reserve(2)?;
    Ok(machine)
}

/// The same with the counting mini block.
fn counted_words(alloc: Global) -> Result<Machine, NoMemory>
    ensures { IfOk result (λ machine. machine ≡ record { core = first_linked; room = 0 }) }
{
    let base = words_base(alloc)?;
    let first = mini(alloc, 2, 0x11014, 0x11008)?;
    let mut machine = words_machine(alloc)?;
    link_blocks(&mut machine, &base, &first);
    Ok(machine)
}

/// The loop with the fourth counter.
fn renewed(rt: &impl Print, alloc: Global) -> io::Result<Machine>
    ensures { IfOk result (λ machine. machine ≡ record { core = example.renewed; room = 0 }) }
{
    let fourth = counter(alloc, 2, 0x11010)?;
    let block = mini(alloc, 2, 0x11010, 0x11038)?;
    let mut machine = passed_by(alloc)?;
    let renewal = renew(&mut machine, &block, &fourth);
    println!(rt; "{renewal:?}")?;
    Ok(machine)
}

/// The machine of a name.
pub fn named(rt: &impl Print, alloc: Global, name: &str) -> io::Result<Option<Machine>>
    ensures { IfOk result (λ machine. IfSome machine (λ m. length m.core.harts ≡ 1)) }
{
    Ok(Some(match name {
        "words" => counted_words(alloc)?,
        "loop" => three_counted(alloc)?,
        "passed" => passed_by(alloc)?,
        "renewed" => renewed(rt, alloc)?,
        _ => return Ok(None),
    }))
}
