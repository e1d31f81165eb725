//! How a pc goes from word to word.

ghost use Rattle.std.specs.Prelude.{◌≡◌, ◌+◌, ◌%◌, true, false, IfSome};
ghost use Rattle.rv_word.specs.Exec.{next};
ghost use Rattle.rv_word.specs.Values.{wrap};
ghost use Rattle.rv_exec.specs.Flat.{offset_of};
ghost use Rattle.rv_exec.specs.Pcs.{pc_address};

use crate::pc::Pc;
use crate::values::widened;

impl Pc {
    /// The pc of this address, by the words from `first` on. None where one of the two is no multiple of 4.
    #[inline(always)]
    pub fn new(first: u64, address: u64) -> Option<Pc>
        ensures { IfSome result (λ pc. (pc.first ≡ first) × (pc_address pc ≡ address)) }
    {
        if first % 4 != 0 || address % 4 != 0 {
            return None;
        }
        let place = address.wrapping_sub(first) / 4;
        Some(Pc { first, place })
    }

    /// Its address.
    #[inline(always)]
    pub fn address(self) -> u64
        ensures { result ≡ pc_address self }
    {
        self.first.wrapping_add(self.place.wrapping_mul(4))
    }

    /// Goes on at the next word.
    #[inline(always)]
    pub fn step(&mut self)
        ensures first { self.new.first ≡ self.old.first }
        ensures address { pc_address self.new ≡ next (pc_address self.old) }
    {
        self.place = self.place.wrapping_add(1);
    }

    /// Goes on at the word that is this number of words away.
    #[inline(always)]
    pub(crate) fn add(&mut self, words: i32)
        ensures first { self.new.first ≡ self.old.first }
        ensures address { pc_address self.new ≡ wrap (pc_address self.old + offset_of words) }
        ensures aligned { pc_address self.new % 4 ≡ 0 }
    {
        self.place = self.place.wrapping_add(widened(words));
    }

    /// Goes on at an address, and returns true, if that is a multiple of 4. Else it does nothing.
    #[inline(always)]
    pub(crate) fn jump(&mut self, target: u64) -> bool
        ensures first { self.new.first ≡ self.old.first }
        ensures goes { result ≡ true → (target % 4 ≡ 0) × (pc_address self.new ≡ target) }
        ensures stays { result ≡ false → pc_address self.new ≡ pc_address self.old }
    {
        if target % 4 != 0 {
            return false;
        }
        self.place = target.wrapping_sub(self.first) / 4;
        true
    }
}
