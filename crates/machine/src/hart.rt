//! What one hart has.

ghost use Rattle.std.specs.Prelude.{◌≡◌, ◌<◌, ◌+◌, ◌^◌, true, None, Some, IfOk, length};
ghost use Rattle.std.specs.List.{AllByRecursion};
ghost use Rattle.tramp_spec.specs.Banks.{bank_len};
ghost use Rattle.tramp_spec.specs.Codes.{is_tool_word};
ghost use Rattle.frame_walk.specs.Rooms.{IsSmall};
ghost use Rattle.frame_walk.specs.Walks.{start_of};
ghost use Rattle.machine.specs.Cores.{first_hart};
ghost use Rattle.machine.specs.Instruments.{reading};
ghost use Rattle.machine.specs.Leaving.{is_out_now};
ghost use Rattle.machine.specs.Effects.{armed_in};
ghost use Rattle.machine.specs.Performing.{home_in_store};
ghost use Rattle.machine.specs.Turns.{may_turn};

use crate::slots::{read_first, set_variables};
use code_store::Store;
use frame_walk::{WalkStart, open_values};
use pn_types::{BANK_LEN, NoMemory, Placed};
use rv_exec::Regs;
use rv_mem::Mem;
use rv_word::{Cause, jump_target};
use std::alloc::Global;
use std::marker::Model;
use tramp_spec::Mark;

/// What one hart has. Contracts see the definitions' record of it.
#[derive(Drop)]
pub struct HartState {
    pub(crate) pc: u64,
    pub(crate) regs: Regs,
    pub(crate) ticks: u64,
    pub(crate) stop: Option<Cause>,
    pub(crate) inside: bool,
    pub(crate) bank: Vec<u64>,
}

impl Model for HartState {
    ghost use Rattle.std.specs.Prelude.{◌≡◌, length};
    ghost use Rattle.tramp_spec.specs.Banks.{bank_len};
    ghost use Rattle.tramp_spec.specs.Harts.{Hart};
    ghost use Rattle.machine.specs.Codes.{hart_code};

    ghost Value = { Hart };

    ghost coded = { hart_code };

    ghost view = { λ h. record { pc = h.pc; regs = h.regs; ticks = h.ticks; stop = h.stop; inside = h.inside; bank = h.bank.items } };

    ghost invariant = { λ h. length h.bank.items ≡ bank_len };
}

/// The home of a pc. Of a hart that is inside it is the point of the block in which it stands, but after the program's word the
/// address to which it leaves.
#[inline(never)]
pub fn home(store: &Store, pc: u64, inside: bool) -> u64
    requires { inside ≡ true → is_tool_word store.now.program pc ≡ true }
    ensures { result ≡ home_in_store store.now pc inside }
{
    if !inside {
        return pc;
    }
    let Some(point) = store.owner(pc) else {
        return pc;
    };
    match store.fetch(pc, true) {
        Some((word, Mark::Leave)) => jump_target(word, pc).unwrap_or(point),
        _ => point,
    }
}

impl HartState {
    /// A hart that starts outside, with nothing in its bank.
    ///
    /// # Errors
    ///
    /// `NoMemory` if memory runs out.
    pub fn first(alloc: Global, pc: u64, regs: Regs) -> Result<HartState, NoMemory>
        ensures { IfOk result (λ hart. hart ≡ first_hart (record { pc = pc; regs = regs; ticks = 0; stop = None })) }
    {
        HartState::with_bank(alloc, pc, regs, BANK_LEN as usize)
    }

    /// The same, with `len` doublewords in its bank.
    fn with_bank(alloc: Global, pc: u64, regs: Regs, len: usize) -> Result<HartState, NoMemory>
        requires { len ≡ bank_len }
        ensures { IfOk result (λ hart. hart ≡ first_hart (record { pc = pc; regs = regs; ticks = 0; stop = None })) }
    {
        Ok(HartState {
            pc,
            regs,
            ticks: 0,
            stop: None,
            inside: false,
            bank: vec![in alloc; 0; len]?,
        })
    }

    /// How many of the program's words the hart executed.
    pub fn ticks(&self) -> u64
        ensures { result ≡ self.now.ticks }
    {
        self.ticks
    }

    /// Why the hart stopped.
    pub fn stop(&self) -> Option<Cause>
        ensures { result ≡ self.now.stop }
    {
        self.stop
    }

    /// Whether the hart is inside a trampoline.
    pub fn is_inside(&self) -> bool
        ensures { result ≡ self.now.inside }
    {
        self.inside
    }

    /// Its pc.
    pub fn pc(&self) -> u64
        ensures { result ≡ self.now.pc }
    {
        self.pc
    }

    /// Whether the hart is stopped or outside.
    pub fn is_out(&self) -> bool
        ensures { result ≡ is_out_now (Some self.now) }
    {
        self.stop.is_some() || !self.inside
    }

    /// Whether the hart isn't stopped, and is inside or has fewer ticks than the budget.
    pub fn may_turn(&self, budget: u64) -> bool
        ensures { result ≡ may_turn (Some self.now) budget }
    {
        self.stop.is_none() && (self.inside || self.ticks < budget)
    }

    /// The home of the hart's pc.
    pub fn home(&self, store: &Store) -> u64
        requires { self.now.inside ≡ true → is_tool_word store.now.program self.now.pc ≡ true }
        ensures { result ≡ home_in_store store.now self.now.pc self.now.inside }
    {
        home(store, self.pc, self.inside)
    }

    /// Where the hart's walk starts, unless it is stopped.
    fn walk_start(&self) -> Option<WalkStart>
        ensures { result ≡ start_of self.now.stop self.now.pc self.now.regs }
    {
        if self.stop.is_some() {
            return None;
        }
        Some(WalkStart {
            pc: self.pc,
            ra: self.regs.get(1),
            fp: self.regs.get(8),
        })
    }

    /// Sets the slots of an instrument in the hart's bank to its opening values. The hart walks its frames in this memory.
    pub fn arm(&mut self, mem: &Mem, instrument: &Placed)
        requires small { AllByRecursion IsSmall instrument.now.opens }
        ensures { self.new ≡ armed_in mem.now instrument.now self.old }
    {
        let start = self.walk_start();
        let opens = instrument.opens.as_slice();
        let values = open_values(mem, opens, start, instrument.vars.as_slice());
        set_variables(self.bank.as_mut_slice(), instrument, &values, self.ticks);
    }

    /// The reading of an instrument.
    pub fn read(&self, instrument: &Placed) -> u64
        ensures { result ≡ reading instrument.now self.now }
    {
        read_first(&self.bank, instrument, self.ticks)
    }
}
