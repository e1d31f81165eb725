//! Several events of a machine together.

ghost use Rattle.std.specs.Prelude.{◌≡◌, ◌-◌, ◌<◌};
ghost use Rattle.std.specs.List.{AllByRecursion};
ghost use Rattle.frame_walk.specs.Rooms.{IsSmall};
ghost use Rattle.machine.specs.Effects.{after_event};
ghost use Rattle.machine.specs.Events.{Arm, May};
ghost use Rattle.test_examples.specs.FirstTurns.{turns};
ghost use Rattle.machine.specs.Replays.{Legal, replay};
ghost use Rattle.machine.specs.States.{with_core};
ghost use Rattle.test_machine.specs.Linkings.{adding_of, linking_of};

use machine::Machine;
use pn_types::{HartNo, Placed};
use tramp_spec::Block;

/// Writes a point's base block and its first mini block, and links both.
pub fn link_blocks(machine: &mut Machine, base: &Block, mini: &Block)
    requires may { Legal (linking_of base.now mini.now) machine.old.core }
    requires room { 1 < machine.old.room }
    ensures { machine.new ≡ record { core = replay (linking_of base.now mini.now) machine.old.core; room = machine.old.room - 2 } }
{
    machine.write(base);
    machine.write(mini);
    machine.link_mini(mini.point, mini.at);
    machine.link_point(base.point);
}

/// Writes a mini block and links it.
pub fn add_mini(machine: &mut Machine, mini: &Block)
    requires may { Legal (adding_of mini.now) machine.old.core }
    requires room { 0 < machine.old.room }
    ensures { machine.new ≡ record { core = replay (adding_of mini.now) machine.old.core; room = machine.old.room - 1 } }
{
    machine.write(mini);
    machine.link_mini(mini.point, mini.at);
}

/// Arms a counter that may be armed.
pub fn arm(machine: &mut Machine, counter: &Placed)
    requires may { May machine.old.core (Arm counter.now) }
    requires small { AllByRecursion IsSmall counter.now.opens }
    ensures { machine.new ≡ with_core machine.old (after_event machine.old.core (Arm counter.now)) }
{
    machine.arm(counter);
}

/// Takes `count` turns of hart 0.
pub fn take_turns(machine: &mut Machine, count: u64)
    requires { Legal (turns count) machine.old.core }
    ensures { machine.new ≡ with_core machine.old (replay (turns count) machine.old.core) }
{
    for _ in 0..count {
        machine.turn(HartNo::first());
    }
}
