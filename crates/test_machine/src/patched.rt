//! Runs of a patched machine of one hart, by its own calls. A row is the name of a machine ([`machines`]) and what is done with it, in
//! order, between single spaces; it is printed, then what each of these returns, and then how the machine stands:
//!
//! - a number: the hart takes this many turns, or as many as it can; how many of them were ticks.
//! - `arm-NAME`: whether the counter of that name was armed. `sample-NAME`: what it reads, or `false`.
//! - `free`: whether the unlinked blocks of the point were freed. `settle`: how many turns weren't ticks.

mod blocks;
mod events;
mod images;
mod loops;
mod machines;
mod steps;
mod unlinking;

ghost use Rattle.std.specs.Prelude.{◌≡◌, length};

use machine::Machine;
use machines::named;
use pn_types::HartNo;
use std::alloc::Global;
use std::io;
use steps::take;

/// Prints how the machine stands.
fn print_end(rt: &impl Print, machine: &Machine) -> io::Result<()>
    requires { length machine.now.core.harts ≡ 1 }
{
    let hart = HartNo::first();
    let (ticks, at, stop) = (machine.ticks(hart), machine.at(hart), machine.stop(hart));
    let quiet = machine.quiet();
    let output = machine.output().len();
    println!(rt; "ticks {ticks} at {at:x} stop {stop:?} quiet {quiet} output {output}")
}

/// Does what a row says with a machine.
fn run(rt: &impl Print, alloc: Global, mut machine: Machine, steps: &str) -> io::Result<()>
    requires { length machine.core.harts ≡ 1 }
{
    'steps: for step in steps.split(' ') {
        take(rt, alloc, &mut machine, step)?;
    }
    print_end(rt, &machine)
}

/// Prints a row and what comes of it.
pub fn answer(rt: &impl Print, alloc: Global, row: &str) -> io::Result<()> {
    println!(rt; "{row}")?;
    let (name, steps) = row.split_once(' ').unwrap_or((row, ""));
    match named(rt, alloc, name)? {
        Some(machine) => run(rt, alloc, machine, steps),
        None => println!(rt; "no machine"),
    }
}
