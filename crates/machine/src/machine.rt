//! The patched machine: its start, and what can be seen of it.

ghost use Rattle.std.specs.Prelude.{◌≡◌, ◌<◌, ◌≤◌, ◌↔◌, None, Some, IfOk, IsTrue, length, map, slice_get};
ghost use Rattle.std.specs.Option.{option_map};
ghost use Rattle.pn_types.specs.Images.{IsImage, text_of};
ghost use Rattle.rv_word.specs.Names.{scratch_in, words_of};
ghost use Rattle.rv_exec.specs.Start.{harts_from};
ghost use Rattle.machine.specs.Cores.{first_hart, start_core};
ghost use Rattle.machine.specs.Effects.{after_event};
ghost use Rattle.machine.specs.Events.{AreOutside, IsQuiet, Turn};
ghost use Rattle.machine.specs.Places.{program_pc};
ghost use Rattle.machine.specs.States.{with_core};
ghost use Rattle.machine.specs.Turns.{is_runnable, ticks_next};

use crate::block_list::Blocks;
use crate::hart::HartState;
use code_store::Store;
use pn_types::{HartNo, Image, MAX_HARTS, NoMemory};
use rv_exec::{Output, Regs, Reservations, Shared};
use rv_mem::Mem;
use rv_word::Cause;
use std::alloc::Global;
use std::marker::Model;

/// The patched machine: a program on its harts, each with a budget of ticks and a bank for the tool, and the blocks in its
/// tool text. Contracts see the definitions' state, and for how many more blocks there is room.
pub struct Machine {
    pub(crate) harts: Vec<HartState>,
    pub(crate) shared: Shared,
    pub(crate) store: Store,
    pub(crate) blocks: Blocks,
    pub(crate) budget: u64,
}

impl Model for Machine {
    ghost use Rattle.rv_exec.specs.Shared.{prog_in};
    ghost use Rattle.machine.specs.Codes.{machine_code};
    ghost use Rattle.machine.specs.States.{Machine};
    ghost use Rattle.machine.specs.Views.{AreMachineParts, core_of};

    ghost Value = { Machine };

    ghost coded = { machine_code };

    ghost view = { λ m. record {
      core = core_of m.harts.items (prog_in m.shared) m.store m.blocks.rows m.budget;
      room = m.blocks.room;
    } };

    ghost invariant = { λ m. AreMachineParts m.harts.items (prog_in m.shared) m.store m.blocks.rows m.budget };
}

// By a call of its own: what drops it need not prove the drops of all its parts.
impl Drop for Machine {
    fn drop(self) {
        let Machine {
            harts: _,
            shared: _,
            store: _,
            blocks: _,
            budget: _,
        } = self;
    }
}

/// Whether no hart is inside a trampoline.
pub(crate) fn none_inside(harts: &[HartState]) -> bool
    ensures { IsTrue result ↔ AreOutside harts.now }
{
    for hart in harts {
        if hart.is_inside() {
            return false;
        }
    }
    true
}

/// The harts as they start.
fn first_harts(alloc: Global, image: &Image, harts: u32) -> Result<Vec<HartState>, NoMemory>
    requires { harts ≤ MAX_HARTS }
    ensures first { IfOk result (λ states. states.items ≡ map first_hart (harts_from harts 0 image.now harts)) }
    ensures len { IfOk result (λ states. length states.items ≡ harts) }
{
    let mut states = Vec::with_capacity(alloc, harts as usize)?;
    for number in 0..harts {
        let regs = Regs::first(number, harts);
        states.push(HartState::first(alloc, image.entry, regs)?)?;
    }
    Ok(states)
}

impl Machine {
    /// The machine in which an image starts, on `harts` harts, each of which may have `budget` ticks. It has no block, and no room for
    /// one. No word of the text may name x31, which is the tool's.
    ///
    /// # Errors
    ///
    /// `NoMemory` if memory runs out.
    pub fn new(alloc: Global, image: &Image, harts: u32, budget: u64) -> Result<Machine, NoMemory>
        requires image { IsImage image.now }
        requires unscratched { scratch_in (words_of (text_of image.now)) image.now.text_at ≡ None }
        requires harts { harts ≤ MAX_HARTS }
        ensures { IfOk result (λ m. m ≡ record { core = start_core image.now harts budget; room = 0 }) }
    {
        Ok(Machine {
            harts: first_harts(alloc, image, harts)?,
            shared: Shared {
                mem: Mem::new(alloc, image, harts)?,
                resv: Reservations::new(alloc, harts)?,
                out: Output::new(alloc)?,
            },
            store: Store::new(alloc, image)?,
            blocks: Blocks::new(alloc)?,
            budget,
        })
    }

    /// How many of its words the hart executed.
    pub fn ticks(&self, hart: HartNo) -> u64
        requires { hart < length self.now.core.harts }
        ensures { option_map (λ x. x.ticks) (slice_get self.now.core.harts hart) ≡ Some result }
    {
        self.harts[hart.get() as usize].ticks()
    }

    /// Why the hart stopped, or none where it isn't stopped.
    pub fn stop(&self, hart: HartNo) -> Option<Cause>
        requires { hart < length self.now.core.harts }
        ensures { option_map (λ x. x.stop) (slice_get self.now.core.harts hart) ≡ Some result }
    {
        self.harts[hart.get() as usize].stop()
    }

    /// Where the program's hart is: the hart's pc, and inside a trampoline the home of that. Of a stopped hart it is the pc of its
    /// last word.
    pub fn at(&self, hart: HartNo) -> u64
        requires { hart < length self.now.core.harts }
        ensures { option_map (program_pc self.now.core.code self.now.core.rows) (slice_get self.now.core.harts hart) ≡ Some result }
    {
        self.harts[hart.get() as usize].home(&self.store)
    }

    /// What the program wrote.
    pub fn output(&self) -> &[u8]
        ensures { result.now ≡ self.now.core.prog.out }
    {
        self.shared.out.bytes()
    }

    /// Whether the hart isn't stopped, and is inside a trampoline or has fewer ticks than the budget.
    pub fn runnable(&self, hart: HartNo) -> bool
        requires { hart < length self.now.core.harts }
        ensures { result ≡ is_runnable self.now.core hart }
    {
        self.harts[hart.get() as usize].may_turn(self.budget)
    }

    /// Whether no hart is inside a trampoline.
    pub fn quiet(&self) -> bool
        ensures { IsTrue result ↔ IsQuiet self.now.core }
    {
        none_inside(&self.harts)
    }

    /// Takes one turn of the hart, which is runnable. Returns whether the turn is a tick, and takes no memory.
    pub fn turn(&mut self, hart: HartNo) -> bool
        requires hart { hart < length self.old.core.harts }
        requires runnable { IsTrue (is_runnable self.old.core hart) }
        ensures turned { self.new ≡ with_core self.old (after_event self.old.core (Turn hart)) }
        ensures tick { result ≡ ticks_next self.old.core hart }
        ensures harts { length self.new.core.harts ≡ length self.old.core.harts }
    {
        self.take_turns(hart, 1).ticks > 0
    }
}
