//! The registers of a hart.

ghost use Rattle.std.specs.Prelude.{◌≡◌, ◌<◌, ◌≤◌, replicate};
ghost use Rattle.rv_word.specs.Registers.{reg, with_reg};
ghost use Rattle.rv_mem.specs.Start.{heap_len, stack_len};
ghost use Rattle.rv_exec.specs.Start.{start_regs};

use pn_types::MAX_HARTS;
use rv_mem::{FIRST_STACK_AT, HEAP_AT, HEAP_LEN, STACK_DISTANCE, STACK_LEN};
use std::marker::Model;

/// The registers x0 to x31 of a hart, of which x0 reads as 0. Contracts see the list of the 32 numbers.
#[derive(Drop)]
pub struct Regs {
    x: [u64; 32],
}

impl Model for Regs {
    ghost use Rattle.std.specs.Prelude.{◌≡◌, List, ℕ, slice_index};

    ghost Value = { List ℕ };

    ghost view = { λ r. r.x };

    ghost invariant = { λ r. slice_index r.x 0 ≡ 0 };
}

impl Regs {
    /// 0 in every register.
    pub fn new() -> Regs
        ensures { result ≡ replicate 32 0 }
    {
        Regs { x: [0; 32] }
    }

    /// The registers with which hart `number` of `harts` starts.
    pub fn first(number: u32, harts: u32) -> Regs
        requires { number < MAX_HARTS }
        ensures { result ≡ start_regs number harts }
    {
        first_regs(number, harts, HEAP_LEN as u32, STACK_LEN as u32)
    }

    /// Returns what register r holds; x0 holds 0.
    #[tactic(auto, unfolding(rv_word::specs::Registers::reg))]
    pub fn get(&self, r: u32) -> u64
        requires { r < 32 }
        ensures { result ≡ reg self.now r }
    {
        self.x[r as usize]
    }

    /// Puts a value into register r; x0 stays as it is.
    #[tactic(auto, unfolding(rv_word::specs::Registers::with_reg))]
    pub fn set(&mut self, r: u32, v: u64)
        requires { r < 32 }
        ensures { self.new ≡ with_reg self.old r v }
    {
        if r != 0 {
            self.x[r as usize] = v;
        }
    }

    /// Puts a value into register r, which isn't x0.
    #[inline(always)]
    #[tactic(auto, unfolding(rv_word::specs::Registers::with_reg))]
    pub(crate) fn put(&mut self, r: u32, v: u64)
        requires { (1 ≤ r) × (r < 32) }
        ensures { self.new ≡ with_reg self.old r v }
    {
        self.x[r as usize] = v;
    }
}

/// The same, by the lengths of the heap and of a stack.
fn first_regs(number: u32, harts: u32, heap: u32, stack: u32) -> Regs
    requires number { number < MAX_HARTS }
    requires heap { heap ≡ heap_len }
    requires stack { stack ≡ stack_len }
    ensures { result ≡ start_regs number harts }
{
    let mut regs = Regs::new();
    regs.set(10, number as u64);
    regs.set(11, harts as u64);
    regs.set(12, HEAP_AT);
    regs.set(13, heap as u64);
    let stack_at = FIRST_STACK_AT + number as u64 * STACK_DISTANCE;
    regs.set(2, stack_at + stack as u64);
    regs
}
