//! Places counters in a machine and arms them.

ghost use Rattle.std.specs.Prelude.{◌≡◌, ◌+◌, ◌*◌, ◌-◌, ◌<◌, ◌≤◌, ◌∷◌, [], length, map, OnOk};
ghost use Rattle.std.specs.List.{flat_map};
ghost use Rattle.machine.specs.Replays.{Legal, replay};
ghost use Rattle.machine.specs.States.{with_core};
ghost use Rattle.block_count.specs.Course.{arming, placing};

use crate::counter::Counter;
use machine::Machine;
use pn_types::NoMemory;
use std::alloc::Global;

/// Writes and links the blocks of a counter.
#[tactic(auto, unfolding(crate::specs::Course::placing))]
fn place(alloc: Global, machine: &mut Machine, counter: &Counter) -> Result<(), NoMemory>
    requires may { Legal (placing counter.now) machine.old.core }
    requires room { 2 ≤ machine.old.room }
    ensures { OnOk result (machine.new ≡ record { core = replay (placing counter.now) machine.old.core; room = machine.old.room - 2 }) }
{
    let base = counter.base(alloc)?;
    let mini = counter.mini(alloc)?;
    machine.write(&base);
    machine.write(&mini);
    machine.link_mini(mini.point, mini.at);
    machine.link_point(base.point);
    Ok(())
}

/// Writes and links the blocks of all counters, for which there is room.
///
/// # Errors
///
/// `NoMemory` where memory runs out.
pub fn place_all(
    alloc: Global,
    machine: &mut Machine,
    counters: &[&Counter],
) -> Result<(), NoMemory>
    requires may { Legal (flat_map placing (map (λ c. c.now) counters.now)) machine.old.core }
    requires room { 2 * length counters.now ≤ machine.old.room }
    ensures { OnOk result (machine.new.core ≡ replay (flat_map placing (map (λ c. c.now) counters.now)) machine.old.core) }
{
    for &counter in counters {
        place(alloc, machine, counter)?;
    }
    Ok(())
}

/// Arms a counter.
fn arm(alloc: Global, machine: &mut Machine, counter: &Counter) -> Result<(), NoMemory>
    requires may { Legal (arming counter.now ∷ []) machine.old.core }
    ensures { OnOk result (machine.new ≡ with_core machine.old (replay (arming counter.now ∷ []) machine.old.core)) }
{
    let placed = counter.placed(alloc)?;
    // All its sites are linked, so it is armed.
    let _armed = machine.arm(&placed);
    Ok(())
}

/// Arms all counters.
///
/// # Errors
///
/// `NoMemory` where memory runs out.
pub fn arm_all(alloc: Global, machine: &mut Machine, counters: &[&Counter]) -> Result<(), NoMemory>
    requires may { Legal (map arming (map (λ c. c.now) counters.now)) machine.old.core }
    ensures { OnOk result (machine.new.core ≡ replay (map arming (map (λ c. c.now) counters.now)) machine.old.core) }
{
    for &counter in counters {
        arm(alloc, machine, counter)?;
    }
    Ok(())
}
