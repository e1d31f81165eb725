//! Lets harts take quanta in the order of a seed.

ghost use Rattle.std.specs.Prelude.{◌≡◌, ◌<◌, ◌≤◌, true, length, IfOk, OnOk};
ghost use Rattle.machine.specs.Events.{IsQuiet};
ghost use Rattle.machine.specs.Replays.{replay};
ghost use Rattle.machine.specs.States.{quantum_turns};
ghost use Rattle.machine.specs.Turns.{is_runnable};
ghost use Rattle.turn_order.specs.Orders.{ready_of};
ghost use Rattle.block_count.specs.Course.{all_quanta, turns_of};

use machine::Machine;
use pn_types::{HartNo, MAX_HARTS, MAX_QUANTA, NoMemory};
use std::alloc::Global;
use turn_order::{Order, Ready};

/// Returns the harts that are runnable, by number.
fn ready_harts(alloc: Global, machine: &Machine, harts: u32) -> Result<Ready, NoMemory>
    requires harts { harts ≡ length machine.now.core.harts }
    requires few { harts ≤ MAX_HARTS }
    ensures { IfOk result (λ ready. ready ≡ ready_of (is_runnable machine.now.core) harts) }
{
    let mut ready = Ready::new(alloc);
    for number in 0..harts {
        let hart = HartNo::numbered(number);
        if machine.runnable(hart) {
            ready.push(hart)?;
        }
    }
    Ok(ready)
}

/// Lets a hart take turns, at most `turns`. Afterwards it is ready if it is runnable. No other hart can have stopped.
fn take_quantum(machine: &mut Machine, ready: &mut Ready, harts: u32, hart: HartNo, turns: u32)
    requires hart { hart < length machine.old.core.harts }
    requires harts { harts ≡ length machine.old.core.harts }
    requires runs { is_runnable machine.old.core hart ≡ true }
    requires ready { ready.old ≡ ready_of (is_runnable machine.old.core) harts }
    ensures taken { machine.new.core ≡ replay (quantum_turns turns hart machine.old.core) machine.old.core }
    ensures ready { ready.new ≡ ready_of (is_runnable machine.new.core) harts }
    ensures harts { length machine.new.core.harts ≡ length machine.old.core.harts }
{
    machine.take_turns(hart, turns);
    if !machine.runnable(hart) {
        ready.remove(hart);
    }
}

/// Lets the harts take quanta of at most `turns` turns, in the order of a seed, until none is runnable or there are as many quanta
/// as there may be.
fn take_quanta(
    alloc: Global,
    machine: &mut Machine,
    harts: u32,
    seed: u32,
    turns: u32,
) -> Result<(), NoMemory>
    requires harts { harts ≡ length machine.old.core.harts }
    requires few { harts ≤ MAX_HARTS }
    ensures taken { OnOk result
        (machine.new.core ≡ replay (all_quanta (record { harts = harts; turns = turns; seed = seed }) machine.old.core) machine.old.core) }
    ensures harts { length machine.new.core.harts ≡ length machine.old.core.harts }
{
    let mut order = Order::of_seed(seed);
    let mut ready = ready_harts(alloc, machine, harts)?;
    'quanta: for _ in 0..MAX_QUANTA {
        let Some(hart) = order.pick(&ready) else {
            return Ok(());
        };
        take_quantum(machine, &mut ready, harts, hart, turns);
        order = order.after(hart);
    }
    Ok(())
}

/// Lets the harts take quanta as above, and then the machine settle.
///
/// # Errors
///
/// `NoMemory` where memory runs out.
pub fn take_turns(
    alloc: Global,
    machine: &mut Machine,
    harts: u32,
    seed: u32,
    turns: u32,
) -> Result<(), NoMemory>
    requires harts { harts ≡ length machine.old.core.harts }
    requires few { harts ≤ MAX_HARTS }
    ensures taken { OnOk result
        (machine.new.core ≡ replay (turns_of (record { harts = harts; turns = turns; seed = seed }) machine.old.core) machine.old.core) }
    ensures quiet { OnOk result (IsQuiet machine.new.core) }
    ensures harts { length machine.new.core.harts ≡ length machine.old.core.harts }
{
    take_quanta(alloc, machine, harts, seed, turns)?;
    machine.settle();
    Ok(())
}
