//! Hands out the agenda and does its entries.

ghost use Rattle.std.specs.Prelude.{◌≡◌, ◌-◌, ◌<◌, ◌≤◌, IsFalse, is_some};
ghost use Rattle.machine.specs.Effects.{after_event};
ghost use Rattle.machine.specs.Events as events;
ghost use Rattle.machine.specs.Events.{IsQuiet};
ghost use Rattle.machine.specs.States.{with_core};
ghost use Rattle.instrument.specs.Handing.{is_barred};
ghost use Rattle.instrument.specs.Placements.{free_front};
ghost use Rattle.instrument.specs.Scenes.{Hands, Sweeps};
ghost use Rattle.instrumented.specs.Instrumented.{after_act};
ghost use Rattle.instrumented.specs.Doing.{CanWriteMini, IsDoable, freed_core, freed_placements, handed_core, handed_placements, led, writes};

use crate::instrumented_machine::InstrumentedMachine;
use instrument::{Event, Placer};
use machine::Machine;
use tramp_build::set_next;
use tramp_spec::Block;

/// Writes a mini block so that it leads on to where the head of its point's base block leads.
fn write_mini(machine: &mut Machine, mut block: Block)
    requires may { CanWriteMini machine.old.core block }
    requires room { 0 < machine.old.room }
    ensures { machine.new ≡ record {
      core = after_event machine.old.core (events.Write (led machine.old.core block));
      room = machine.old.room - 1;
    } }
{
    let next = machine.head(block.point);
    set_next(&mut block, next);
    machine.write(&block);
}

/// Frees a point, and returns whether no hart bars it. Then the rooms of its unlinked blocks are given back; else its Free is put
/// back.
#[tactic(auto, using(crate::proofs::Handed::freed_core_by, crate::proofs::Handed::freed_rooms_by, crate::proofs::Handed::back_rooms_by))]
fn free(machine: &mut Machine, placer: &mut Placer, point: u64)
    requires { 0 < placer.old.entries }
    ensures core { machine.new ≡ with_core machine.old (freed_core (is_barred machine.old.core point) point machine.old.core) }
    ensures placements { placer.new.placements ≡ freed_placements (is_barred machine.old.core point) point placer.old.placements }
    ensures ready { placer.new.ready ≡ placer.old.ready }
{
    if machine.free(point) {
        placer.freed(point);
    } else {
        placer.put_back(Event::Free { point });
    }
}

/// Does what an event says.
fn perform(machine: &mut Machine, placer: &mut Placer, event: Event)
    requires doable { IsDoable machine.old.core event }
    requires room { writes event ≤ machine.old.room }
    requires entries { 0 < placer.old.entries }
    ensures machine { machine.new ≡ record { core = handed_core machine.old.core event; room = machine.old.room - writes event } }
    ensures placements { placer.new.placements ≡ handed_placements machine.old.core event placer.old.placements }
    ensures ready { placer.new.ready ≡ placer.old.ready }
{
    match event {
        Event::WriteBase(block) => machine.write(&block),
        Event::WriteMini(block) => write_mini(machine, block),
        Event::LinkMini { point, at } => machine.link_mini(point, at),
        Event::LinkPoint { point } => machine.link_point(point),
        Event::UnlinkMini { point, at } => machine.unlink_mini(point, at),
        Event::UnlinkPoint { point } => machine.unlink_point(point),
        Event::Free { point } => free(machine, placer, point),
    }
}

impl InstrumentedMachine {
    /// Hands out the first entry of the agenda and does it. A Free that a hart bars goes to the back. Where the agenda is empty
    /// nothing happens. It takes no memory.
    pub fn hand(&mut self)
        ensures state { self.new ≡ record self.old { state = after_act Hands self.old.state } }
        ensures harts { self.new.state.core.harts ≡ self.old.state.core.harts }
    {
        if let Some(event) = self.placer.next() {
            perform(&mut self.machine, &mut self.placer, event);
        }
    }

    /// Does the first Free before which no unlinking of its point stands, and returns whether there is one. Where there is none
    /// nothing changes. No hart is inside a trampoline. It takes no memory.
    pub fn sweep(&mut self) -> bool
        requires { IsQuiet self.old.state.core }
        ensures found { result ≡ is_some (free_front self.old.state.placer) }
        ensures none { IsFalse result → self.new ≡ self.old }
        ensures state { self.new ≡ record self.old { state = after_act Sweeps self.old.state } }
        ensures harts { self.new.state.core.harts ≡ self.old.state.core.harts }
    {
        let Some(point) = self.placer.next_free() else {
            return false;
        };
        self.machine.free(point);
        self.placer.freed(point);
        true
    }
}
