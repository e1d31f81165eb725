//! The reservations of all harts.

ghost use Rattle.std.specs.Prelude.{◌≡◌, ◌<◌, ◌≤◌, replicate, IfOk, Option, Some, None, length, slice_set, slice_get, false};
ghost use Rattle.rv_exec.specs.Unreserved.{AreFree};
ghost use Rattle.rv_word.specs.Exec.{broken, has, left_of};

use pn_types::{HartNo, MAX_HARTS, NoMemory};
use std::alloc::Global;
use std::marker::Model;

/// Each hart's reserved doubleword, by its number, which is the address divided by 8. Contracts see the list by hart.
#[derive(Drop)]
pub struct Reservations {
    of: Vec<Option<u64>>,
    /// False only where no hart has one, so that a store has nothing to break.
    has_any: bool,
}

impl Model for Reservations {
    ghost use Rattle.std.specs.Prelude.{List, ℕ, Option, ◌≤◌, ◌≡◌, false, length};
    ghost use Rattle.pn_types.specs.declared.limits.TheConstants.{MAX_HARTS};
    ghost use Rattle.rv_exec.specs.Unreserved.{AreFree};

    ghost Value = { List (Option ℕ) };

    ghost view = { λ r. r.of.items };

    ghost invariant = { λ r. (length r.of.items ≤ MAX_HARTS) × (r.has_any ≡ false → AreFree r.of.items) };
}

/// What a store of the hart to these doublewords leaves of another hart's reservation.
fn left_of(other: u32, hart: u32, first: u64, last: u64, reserved: Option<u64>) -> Option<u64>
    ensures { result ≡ left_of other hart first last reserved }
{
    match reserved {
        Some(d) if other != hart && (d == first || d == last) => None,
        kept => kept,
    }
}

/// False only if no hart has a reservation.
fn has_some(of: &Vec<Option<u64>>) -> bool
    ensures { result ≡ false → AreFree of.now.items }
{
    for i in 0..of.len() {
        if of[i].is_some() {
            return true;
        }
    }
    false
}

impl Reservations {
    /// No reservation of any of this number of harts.
    ///
    /// # Errors
    ///
    /// `NoMemory` if memory runs out.
    pub fn new(alloc: Global, harts: u32) -> Result<Reservations, NoMemory>
        requires { harts ≤ MAX_HARTS }
        ensures { IfOk result (λ r. r ≡ replicate harts None) }
    {
        Ok(Reservations {
            of: vec![in alloc; None; harts as usize]?,
            has_any: true,
        })
    }

    /// Whether the hart has reserved the doubleword.
    pub fn has(&self, hart: HartNo, doubleword: u64) -> bool
        requires { hart < length self.now }
        ensures { result ≡ has self.now hart doubleword }
    {
        match self.of[hart.get() as usize] {
            Some(d) => d == doubleword,
            None => false,
        }
    }

    /// Sets or clears the hart's reservation.
    pub fn set(&mut self, hart: HartNo, reserved: Option<u64>)
        requires { hart < length self.old }
        ensures { self.new ≡ slice_set self.old hart reserved }
    {
        self.of[hart.get() as usize] = reserved;
        self.has_any = true;
    }

    /// Breaks each reservation of another hart that a store of the hart to these doublewords overlaps.
    #[inline(always)]
    #[tactic(auto, using(crate::proofs::Free::stays))]
    pub fn break_others(&mut self, hart: HartNo, first: u64, last: u64)
        ensures value { self.new ≡ broken 0 hart first last self.old }
        ensures len { length self.new ≡ length self.old }
    {
        if self.has_any {
            self.break_all_but(hart.get(), first, last);
            self.note();
        }
    }

    /// Notes whether a hart has a reservation.
    fn note(&mut self)
        ensures { self.new ≡ self.old }
    {
        self.has_any = has_some(&self.of);
    }

    #[inline(never)]
    #[tactic(auto, using(crate::proofs::Breaks::step, crate::proofs::Breaks::at_end))]
    fn break_all_but(&mut self, hart: u32, first: u64, last: u64)
        ensures value { self.new ≡ broken 0 hart first last self.old }
        ensures len { length self.new ≡ length self.old }
    {
        self.has_any = true;
        for i in 0..self.of.len() {
            self.of[i] = left_of(i as u32, hart, first, last, self.of[i]);
        }
    }
}
