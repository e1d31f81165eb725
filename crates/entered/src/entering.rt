//! Runs a program along quanta, until it is at an address.

ghost use Rattle.std.specs.Prelude.{◌≡◌, ◌≤◌, ◌<◌, false, IfOk, length};
ghost use Rattle.pn_types.specs.Images.{IsImage};
ghost use Rattle.rv_word.specs.Plain.{can};
ghost use Rattle.plain_run.specs.Machines.{turned};
ghost use Rattle.entered.specs.Along.{is_entered};
ghost use Rattle.entered.specs.Steps.{after_asked, begins_at, asks_at, machine_after, quantum_begins_at};

use plain_run::PlainMachine;
use pn_types::{HartNo, Image, MAX_HARTS, NoMemory, Quantum};
use std::alloc::Global;

/// Lets a hart take a turn, if it can. Returns whether it took one, and that one began at an address.
fn take_turn(machine: &mut PlainMachine, harts: u32, hart: u32, address: u64) -> bool
    requires few { harts ≤ MAX_HARTS }
    requires harts { length machine.old.state.harts ≡ harts }
    ensures after { machine.new ≡ after_asked machine.old hart }
    ensures begins { result ≡ begins_at machine.old hart address }
    ensures harts { length machine.new.state.harts ≡ harts }
{
    if hart >= harts {
        return false;
    }
    let number = HartNo::numbered(hart);
    if !machine.runnable(number) {
        return false;
    }
    let begins = machine.at(number) == address;
    machine.step(number);
    begins
}

/// Lets the hart of a quantum take as many turns as the quantum has ticks, as far as it can. Returns whether one of them began at an
/// address.
fn take_quantum(machine: &mut PlainMachine, harts: u32, quantum: &Quantum, address: u64) -> bool
    requires few { harts ≤ MAX_HARTS }
    requires harts { length machine.old.state.harts ≡ harts }
    ensures after { machine.new ≡ machine_after machine.old quantum.now }
    ensures begins { result ≡ quantum_begins_at machine.old quantum.now address }
    ensures harts { length machine.new.state.harts ≡ harts }
{
    let mut begins = false;
    for _ in 0..quantum.owns {
        begins |= take_turn(machine, harts, quantum.hart as u32, address);
    }
    begins
}

/// Returns whether a program on so many harts, each of which has a budget of ticks, executes the word at an address where it runs along
/// quanta: the hart of each takes as many turns as the quantum has ticks. A hart that can't take a turn takes none. The program runs no
/// further than to that word.
///
/// # Errors
///
/// `NoMemory` where memory runs out.
pub fn is_entered(
    alloc: Global,
    image: &Image,
    harts: u32,
    budget: u64,
    quanta: &[Quantum],
    address: u64,
) -> Result<bool, NoMemory>
    requires image { IsImage image.now }
    requires harts { harts ≤ MAX_HARTS }
    ensures { IfOk result (λ entered. entered ≡ is_entered image.now harts budget quanta.now address) }
{
    let mut machine = PlainMachine::new(alloc, image, harts, budget)?;
    for quantum in quanta {
        if take_quantum(&mut machine, harts, quantum, address) {
            return Ok(true);
        }
    }
    Ok(false)
}
