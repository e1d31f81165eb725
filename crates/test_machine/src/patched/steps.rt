//! What is done with a machine.

ghost use Rattle.std.specs.Prelude.{◌≡◌, length};

use crate::patched::blocks::{POINT, counter};
use machine::{Machine, Sample};
use pn_types::{HartNo, NoMemory, Placed, Seq};
use std::alloc::Global;
use std::io;

/// The slot and the mini block of the counter of a name: `w` at the three words, and `a` to `d` at the loop, of which the last has the
/// place of the first.
fn place(name: &str) -> Option<(u32, u64)> {
    match name {
        "w" => Some((2, 0x11014)),
        "a" | "d" => Some((2, 0x11010)),
        "b" => Some((3, 0x11024)),
        "c" => Some((4, 0x11038)),
        _ => None,
    }
}

/// Arms a counter. Returns whether it was armed.
fn arm(alloc: Global, machine: &mut Machine, place: (u32, u64)) -> Result<bool, NoMemory>
    ensures { length machine.new.core.harts ≡ length machine.old.core.harts }
{
    let counter = counter(alloc, place.0, place.1)?;
    Ok(machine.arm(&counter))
}

/// What a counter reads, where no hart is inside.
fn read(machine: &Machine, counter: &Placed, mut sample: Sample) -> Option<u64>
    requires { length sample.readings ≡ length machine.now.core.harts }
{
    if !machine.sample(counter, &mut sample) {
        return None;
    }
    sample.readings.as_slice().first().copied()
}

/// Prints what a counter reads.
fn print_sampled(
    rt: &impl Print,
    alloc: Global,
    machine: &Machine,
    step: &str,
    place: (u32, u64),
) -> io::Result<()>
    requires { length machine.now.core.harts ≡ 1 }
{
    let counter = counter(alloc, place.0, place.1)?;
    let sample = Sample {
        readings: Seq::from_vec(vec![in alloc; 0]?),
    };
    match read(machine, &counter, sample) {
        Some(reading) => println!(rt; "{step}: {reading}"),
        None => println!(rt; "{step}: false"),
    }
}

/// What is done with a counter, where there is one of that name.
fn take_counter(rt: &impl Print, alloc: Global, machine: &mut Machine, step: &str) -> io::Result<()>
    requires { length machine.old.core.harts ≡ 1 }
    ensures { length machine.new.core.harts ≡ 1 }
{
    let (word, name) = step.split_once('-').unwrap_or((step, ""));
    let Some(place) = place(name) else {
        return println!(rt; "{step}: no step");
    };
    match word {
        "arm" => {
            let armed = arm(alloc, machine, place)?;
            println!(rt; "{step}: {armed}")
        }
        "sample" => print_sampled(rt, alloc, machine, step, place),
        _ => println!(rt; "{step}: no step"),
    }
}

/// Frees the unlinked blocks of the point. Returns whether that happened.
fn free(machine: &mut Machine) -> bool
    ensures { length machine.new.core.harts ≡ length machine.old.core.harts }
{
    machine.free(POINT)
}

/// Does a step and prints what it returns.
pub fn take(rt: &impl Print, alloc: Global, machine: &mut Machine, step: &str) -> io::Result<()>
    requires { length machine.old.core.harts ≡ 1 }
    ensures { length machine.new.core.harts ≡ 1 }
{
    if let Ok(turns) = step.parse() {
        let taken = machine.take_turns(HartNo::first(), turns);
        return println!(rt; "{step}: {}", taken.ticks);
    }
    match step {
        "free" => {
            let freed = free(machine);
            println!(rt; "{step}: {freed}")
        }
        "settle" => {
            let turns = machine.settle();
            println!(rt; "{step}: {turns}")
        }
        _ => take_counter(rt, alloc, machine, step),
    }
}
