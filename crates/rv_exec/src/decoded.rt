//! Decoded words.

ghost use Rattle.std.specs.Prelude.{◌≡◌, ◌<◌, length, None, is_none};
ghost use Rattle.rv_word.specs.Exec.{exec_of};
ghost use Rattle.rv_exec.specs.Gives.{IsExecuted, state_of, next_after};
ghost use Rattle.rv_exec.specs.Shared.{prog_in};

use crate::executing::run_or_execute;
use crate::flat::Flat;
use crate::flat_of::flattened;
use crate::regs::Regs;
use crate::running::Caller;
use crate::shared::Shared;
use pn_types::HartNo;
use rv_word::{Cause, Instr, decode};
use std::marker::Model;

/// A word with its instruction, so that it is decoded once however often it is executed. Contracts see the word.
#[derive(Drop)]
pub struct Decoded {
    flat: Flat,
    instr: Option<Instr>,
    word: u32,
}

impl Model for Decoded {
    ghost use Rattle.std.specs.Prelude.{ℕ, ◌≡◌, IfSome};
    ghost use Rattle.rv_word.specs.Table.{decode_of};
    ghost use Rattle.rv_word.specs.Words.{HasWord};
    ghost use Rattle.rv_exec.specs.Flat.{IsFlatOf};

    ghost Value = { ℕ };

    ghost view = { λ d. d.word };

    ghost invariant = { λ d. (d.instr ≡ decode_of d.word) × IfSome d.instr HasWord × IsFlatOf d.instr d.flat };
}

impl Caller for Decoded {}

impl Decoded {
    /// Decodes the word.
    pub fn new(word: u32) -> Decoded
        ensures { result ≡ word }
    {
        let instr = decode(word);
        let flat = flattened(instr);
        Decoded { flat, instr, word }
    }

    /// The word.
    pub fn word(&self) -> u32
        ensures { result ≡ self.now }
    {
        self.word
    }

    /// Executes the word at pc, by a hart that isn't stopped. It sets the next pc, or the cause for which the hart stops. Returns
    /// whether the hart goes on. A stop changes nothing else, but that an SC clears the hart's reservation also where it stops. It
    /// takes no memory.
    #[inline(always)]
    pub fn run(
        &self,
        hart: HartNo,
        pc: &mut u64,
        stop: &mut Option<Cause>,
        regs: &mut Regs,
        shared: &mut Shared,
    ) -> bool
        requires stop { stop.old ≡ None }
        requires hart { hart < length shared.old.resv }
        ensures goes { result ≡ is_none stop.new }
        ensures state { IsExecuted (exec_of self.now pc.old hart)
            (state_of regs.old (prog_in shared.old)) (next_after stop.new pc.new) (state_of regs.new (prog_in shared.new)) }
    {
        run_or_execute::<Decoded>(&self.flat, self.instr, hart, pc, stop, regs, shared)
    }
}
