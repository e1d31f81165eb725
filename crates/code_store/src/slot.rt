//! Words with their marks, decoded.

ghost use Rattle.std.specs.Prelude.{◌≡◌};
ghost use Rattle.tramp_spec.specs.Marks.{inside_after, is_jump, is_own};
ghost use Rattle.rv_word.specs.Table.{decode_of};
ghost use Rattle.code_store.specs.Operations.{IsMarkedFlat, IsOperationOf, IsToolFlatBy};
ghost use Rattle.code_store.specs.Stores.{marked};

use crate::operation::Operation;
use rv_exec::Flat;
use rv_word::{Instr, decode};
use std::marker::Model;
use tramp_spec::{Mark, MarkedWord};

/// A marked word with what it does, so that it is decoded once however often it is executed. Contracts see the
/// marked word.
#[derive(Drop)]
pub struct Slot {
    operation: Operation,
    /// The flat of a word of the tool, and else `Rest`.
    tool_flat: Flat,
    word: u32,
    mark: Mark,
    /// A hart that is inside stays so after the word.
    keeps_inside: bool,
    /// A hart is inside after the word.
    enters: bool,
}

impl Model for Slot {
    ghost use Rattle.std.specs.Prelude.{◌≡◌};
    ghost use Rattle.rv_word.specs.Table.{decode_of};
    ghost use Rattle.tramp_spec.specs.declared.mark.MarkedWord.{MarkedWord};
    ghost use Rattle.code_store.specs.Operations.{IsOperationBy, IsToolFlatBy, enters_by, keeps_by};

    ghost Value = { MarkedWord };

    ghost view = { λ s. record { word = s.word; mark = s.mark } };

    ghost invariant = { λ s. IsOperationBy s.mark (decode_of s.word) s.operation × (s.keeps_inside ≡ keeps_by s.mark s.word)
        × (s.enters ≡ enters_by s.mark) × IsToolFlatBy s.mark (decode_of s.word) s.tool_flat };
}

/// Whether a word is a jump: jal or jalr.
fn is_jump(word: u32) -> bool
    ensures { result ≡ is_jump word }
{
    matches!(decode(word), Some(Instr::Jal { .. } | Instr::Jalr { .. }))
}

impl Slot {
    /// The word, decoded.
    pub(crate) fn new(marked: MarkedWord) -> Slot
        ensures { result ≡ marked }
    {
        Slot::with(marked, Operation::new(marked))
    }

    /// The word with its operation.
    pub(crate) fn with(marked: MarkedWord, operation: Operation) -> Slot
        requires { IsOperationOf marked operation }
        ensures { result ≡ marked }
    {
        Slot {
            operation,
            tool_flat: operation.tool_flat(marked),
            word: marked.word,
            mark: marked.mark,
            keeps_inside: match marked.mark {
                Mark::Own => !is_jump(marked.word),
                Mark::Enter | Mark::Tool => true,
                Mark::Leave => false,
            },
            enters: marked.mark == Mark::Enter,
        }
    }

    /// The same slot again.
    pub(crate) fn copy(&self) -> Slot
        ensures { result ≡ self.now }
    {
        Slot {
            operation: self.operation,
            tool_flat: self.tool_flat,
            word: self.word,
            mark: self.mark,
            keeps_inside: self.keeps_inside,
            enters: self.enters,
        }
    }

    /// The word with its mark.
    pub(crate) fn word_and_mark(&self) -> (u32, Mark)
        ensures { marked result ≡ self.now }
    {
        (self.word, self.mark)
    }

    /// What the word does.
    #[inline(always)]
    pub fn operation(&self) -> &Operation
        ensures { IsOperationOf self.now result.now }
    {
        &self.operation
    }

    /// The flat of a word of the tool, by which a hart goes on inside; `Rest` for another word.
    #[inline(always)]
    pub fn tool_flat(&self) -> &Flat
        ensures { IsToolFlatBy self.now.mark (decode_of self.now.word) result.now }
    {
        &self.tool_flat
    }

    /// The flat of the word, if it is one of the program, and else `Rest`.
    pub(crate) fn flat(&self) -> Flat
        ensures { IsMarkedFlat self.now result }
    {
        match self.operation {
            Operation::Run { flat, .. } if self.is_tick() => flat,
            _ => Flat::Rest,
        }
    }

    /// Whether the word is a tick of the program.
    #[inline(always)]
    pub fn is_tick(&self) -> bool
        ensures { result ≡ is_own self.now.mark }
    {
        self.mark == Mark::Own
    }

    /// Whether a hart that goes on is inside after the word.
    #[inline(always)]
    pub fn inside_after(&self, inside: bool) -> bool
        ensures { result ≡ inside_after self.now.mark self.now.word inside }
    {
        inside & self.keeps_inside | self.enters
    }
}
