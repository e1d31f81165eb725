//! Does entries of the agenda.

ghost use Rattle.std.specs.Prelude.{◌≡◌};
ghost use Rattle.machine.specs.Events.{IsQuiet};
ghost use Rattle.instrument.specs.Scenes.{Hands, Sweeps};
ghost use Rattle.instrumented.specs.Instrumented.{repeated};

use instrumented::InstrumentedMachine;

/// Hands out `count` entries, and does them.
#[inline(always)]
pub fn hand_out(machine: &mut InstrumentedMachine, count: usize)
    ensures machine { machine.new ≡ record machine.old { state = repeated count Hands machine.old.state } }
    ensures harts { machine.new.state.core.harts ≡ machine.old.state.core.harts }
{
    // After most quanta the agenda is empty.
    if machine.agenda_len() == 0 {
        return;
    }
    for _ in 0..count {
        machine.hand();
    }
}

/// Does at most `count` Frees, as far as there are any. No hart is inside a trampoline.
pub fn sweep(machine: &mut InstrumentedMachine, count: usize)
    requires { IsQuiet machine.old.state.core }
    ensures machine { machine.new ≡ record machine.old { state = repeated count Sweeps machine.old.state } }
    ensures harts { machine.new.state.core.harts ≡ machine.old.state.core.harts }
{
    for _ in 0..count {
        if !machine.sweep() {
            return;
        }
    }
}
