//! The unpatched machine.

ghost use Rattle.std.specs.Prelude.{◌≡◌, ◌<◌, ◌≤◌, IfOk, IsTrue, Some, length, slice_get};
ghost use Rattle.std.specs.Option.{option_map};
ghost use Rattle.pn_types.specs.Images.{IsImage};
ghost use Rattle.rv_word.specs.Plain.{can};
ghost use Rattle.rv_mem.specs.Start.{program_of};
ghost use Rattle.rv_exec.specs.Start.{start, harts_from};
ghost use Rattle.plain_run.specs.Views.{plain_harts};
ghost use Rattle.plain_run.specs.Machines.{turned};

use crate::hart::HartState;
use crate::program::words;
use pn_types::{HartNo, Image, MAX_HARTS, NoMemory};
use rv_exec::{Decoded, Output, Regs, Reservations, Shared};
use rv_mem::Mem;
use rv_word::Cause;
use std::alloc::Global;
use std::marker::Model;

/// A program on its harts, each of which has a budget of ticks. Contracts see the program's words, the budget and the
/// state of the unpatched machine.
pub struct PlainMachine {
    harts: Vec<HartState>,
    shared: Shared,
    text_at: u64,
    words: Vec<Decoded>,
    budget: u64,
}

impl Model for PlainMachine {
    ghost use Rattle.std.specs.Prelude.{◌≡◌, ◌+◌, ◌*◌, ◌<◌, ◌^◌, length};
    ghost use Rattle.rv_exec.specs.Shared.{prog_in};
    ghost use Rattle.plain_run.specs.Machines.{Machine};
    ghost use Rattle.plain_run.specs.Codes.{machine_code};
    ghost use Rattle.plain_run.specs.Views.{plain_harts};

    ghost Value = { Machine };

    ghost coded = { machine_code };

    ghost view = { λ m. record {
      program = record { at = m.text_at; words = m.words.items };
      budget = m.budget;
      state = record { harts = plain_harts m.harts.items; prog = prog_in m.shared };
    } };

    ghost invariant = { λ m. (length m.shared.resv ≡ length m.harts.items) × (m.text_at + 4 * length m.words.items < 2 ^ 64) };
}

// By a call of its own: what drops it need not prove the drops of all its parts.
impl Drop for PlainMachine {
    fn drop(self) {
        let PlainMachine {
            harts: _,
            shared: _,
            text_at: _,
            words: _,
            budget: _,
        } = self;
    }
}

/// The harts as they start.
fn first_harts(alloc: Global, image: &Image, harts: u32) -> Result<Vec<HartState>, NoMemory>
    requires { harts ≤ MAX_HARTS }
    ensures states { IfOk result (λ states. plain_harts states.items ≡ harts_from harts 0 image.now harts) }
    ensures len { IfOk result (λ states. length states.items ≡ harts) }
{
    let mut states = Vec::with_capacity(alloc, harts as usize)?;
    for number in 0..harts {
        states.push(HartState {
            pc: image.entry,
            regs: Regs::first(number, harts),
            ticks: 0,
            stop: None,
        })?;
    }
    Ok(states)
}

impl PlainMachine {
    /// The machine in which an image starts, on `harts` harts, each of which may have `budget` ticks.
    ///
    /// # Errors
    ///
    /// `NoMemory` if memory runs out.
    pub fn new(
        alloc: Global,
        image: &Image,
        harts: u32,
        budget: u64,
    ) -> Result<PlainMachine, NoMemory>
        requires image { IsImage image.now }
        requires harts { harts ≤ MAX_HARTS }
        ensures { IfOk result (λ m. m ≡ record { program = program_of image.now; budget = budget; state = start image.now harts }) }
    {
        let words = words(alloc, image.text_bytes())?;
        let states = first_harts(alloc, image, harts)?;
        Ok(PlainMachine {
            harts: states,
            shared: Shared {
                mem: Mem::new(alloc, image, harts)?,
                resv: Reservations::new(alloc, harts)?,
                out: Output::new(alloc)?,
            },
            text_at: image.text_at,
            words,
            budget,
        })
    }

    /// Whether the hart isn't stopped, and has fewer ticks than the budget.
    pub fn runnable(&self, hart: HartNo) -> bool
        requires { hart < length self.now.state.harts }
        ensures { result ≡ can self.now.budget self.now.state hart }
    {
        self.harts[hart.get() as usize].may_go(self.budget)
    }

    /// Takes one turn of the hart, which is one tick: its word is executed, or it stops where no word is. It takes no memory.
    pub fn step(&mut self, hart: HartNo)
        requires hart { hart < length self.old.state.harts }
        requires runnable { IsTrue (can self.old.budget self.old.state hart) }
        ensures turn { self.new ≡ turned self.old hart }
        ensures harts { length self.new.state.harts ≡ length self.old.state.harts }
    {
        self.harts[hart.get() as usize].turn(hart, &self.words, self.text_at, &mut self.shared);
    }

    /// How many words the hart executed.
    pub fn ticks(&self, hart: HartNo) -> u64
        requires { hart < length self.now.state.harts }
        ensures { option_map (λ x. x.ticks) (slice_get self.now.state.harts hart) ≡ Some result }
    {
        self.harts[hart.get() as usize].ticks
    }

    /// Why the hart stopped, or none where it isn't stopped.
    pub fn stop(&self, hart: HartNo) -> Option<Cause>
        requires { hart < length self.now.state.harts }
        ensures { option_map (λ x. x.stop) (slice_get self.now.state.harts hart) ≡ Some result }
    {
        self.harts[hart.get() as usize].stop
    }

    /// The hart's pc; of a stopped hart that of its last word.
    pub fn at(&self, hart: HartNo) -> u64
        requires { hart < length self.now.state.harts }
        ensures { option_map (λ x. x.pc) (slice_get self.now.state.harts hart) ≡ Some result }
    {
        self.harts[hart.get() as usize].pc
    }

    /// What the program wrote.
    pub fn output(&self) -> &[u8]
        ensures { result.now ≡ self.now.state.prog.out }
    {
        self.shared.out.bytes()
    }
}
