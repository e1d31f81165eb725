//! What one hart has.

ghost use Rattle.std.specs.Prelude.{◌≡◌, ◌*◌, ◌<◌, ◌^◌, ◌+◌, None, Some, length};
ghost use Rattle.rv_word.specs.Plain.{may_go, turn_alone};
ghost use Rattle.plain_run.specs.Views.{hart_of, alone_of};

use crate::program::{place_of, word_at};
use pn_types::HartNo;
use rv_exec::{Decoded, Regs, Shared};
use rv_word::Cause;

/// What one hart has.
#[derive(Drop)]
pub struct HartState {
    pub pc: u64,
    pub regs: Regs,
    pub ticks: u64,
    pub stop: Option<Cause>,
}

impl HartState {
    /// Whether the hart isn't stopped, and has fewer ticks than the budget.
    pub fn may_go(&self, budget: u64) -> bool
        ensures { result ≡ may_go (Some (hart_of self.now)) budget }
    {
        self.stop.is_none() && self.ticks < budget
    }

    /// Takes one turn of the hart, which isn't stopped: its word is executed, or it stops where no word is.
    pub fn turn(&mut self, number: HartNo, words: &[Decoded], text_at: u64, shared: &mut Shared)
        requires hart { number < length shared.old.resv }
        requires stop { self.old.stop ≡ None }
        requires ticks { self.old.ticks + 1 < 2 ^ 64 }
        requires ends { text_at + 4 * length words.now < 2 ^ 64 }
        ensures turn { alone_of self.new shared.new
            ≡ turn_alone (record { at = text_at; words = words.now }) number (alone_of self.old shared.old) }
        ensures harts { length shared.new.resv ≡ length shared.old.resv }
    {
        self.ticks += 1;
        let at = self.pc;
        let place = place_of(text_at, at);
        if place >= words.len() as u64 {
            self.stop = Some(Cause::FetchOutside);
            return;
        }
        let word = word_at(words, place, text_at, at);
        let goes = word.run(number, &mut self.pc, &mut self.stop, &mut self.regs, shared);
        if !goes {
            self.pc = at;
        }
    }
}
