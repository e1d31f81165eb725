//! The loop with three counters, two of which are unlinked under a hart.

ghost use Rattle.std.specs.Prelude.{◌≡◌, IfOk};
ghost use Rattle.test_examples.specs.ThreeCounters as example;
ghost use Rattle.test_examples.specs.ThreeCounters.{counter_on, mini_on};

use crate::patched::events::{add_mini, arm, take_turns};
use crate::patched::loops::three_counted;
use machine::Machine;
use pn_types::{NoMemory, Placed};
use std::alloc::Global;
use tramp_spec::Block;

/// The loop of which the first two mini blocks were unlinked while the hart was at the second.
///
/// # Errors
///
/// `NoMemory` if memory runs out.
pub fn passed_by(alloc: Global) -> Result<Machine, NoMemory>
    ensures { IfOk result (λ machine. machine ≡ record { core = example.passed_by; room = 1 }) }
{
    let mut machine = three_counted(alloc)?;
    take_turns(&mut machine, 8);
    machine.unlink_mini(0x10000, 0x11024);
    machine.unlink_mini(0x10000, 0x11010);
    Ok(machine)
}

/// What freeing returned, how many turns of settling weren't ticks, and what freeing returned after that.
#[derive(Debug, Drop)]
pub struct Renewal {
    pub held: bool,
    pub settled: u64,
    pub freed: bool,
}

/// Tries to free the unlinked blocks, settles and frees them, and puts a fourth counter in the place of the first.
pub fn renew(machine: &mut Machine, mini: &Block, counter: &Placed) -> Renewal
    requires machine { machine.old ≡ record { core = example.passed_by; room = 1 } }
    requires mini { mini.now ≡ mini_on 2 0x11010 0x11038 }
    requires counter { counter.now ≡ counter_on 2 0x11010 }
    ensures { machine.new ≡ record { core = example.renewed; room = 0 } }
{
    let held = machine.free(0x10000);
    let settled = machine.settle();
    let freed = machine.free(0x10000);
    add_mini(machine, mini);
    arm(machine, counter);
    Renewal {
        held,
        settled,
        freed,
    }
}
