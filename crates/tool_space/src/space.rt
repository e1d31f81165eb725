//! Which units are free.

ghost use Rattle.std.specs.Prelude.{◌≡◌, ℕ, ◌+◌, ◌^◌, ◌<◌, ◌≤◌, IfNone, IfOk, IfSome, OnErr, OnOk};
ghost use Rattle.tool_space.specs.Rooms.{IsLowestRoom, IsRoom, IsTaken, after_give, after_reserve, after_take, new_space};

use crate::hole::{Hole, cut, first_above, first_fit, put};
use pn_types::NoMemory;
use std::alloc::Global;
use std::marker::Model;

/// Which units are free, of a row of units with consecutive numbers. Rooms of consecutive units are taken from it and
/// given back.
#[derive(Drop)]
pub struct Space {
    // The first unit, and the number after the last.
    from: u64,
    end: u64,
    // The runs of free units, in order and apart.
    holes: Vec<Hole>,
    // How many takes, and how many takes and gives, need no memory.
    takes: usize,
    spare: usize,
}

impl Model for Space {
    ghost use Rattle.std.specs.Prelude.{◌+◌, ◌-◌, ◌^◌, ◌<◌, ◌≤◌, vec_capacity, vec_len};
    ghost use Rattle.tool_space.specs.Holes.{AreHoles, units_of};
    ghost use Rattle.tool_space.specs.Rooms.{Rooms};

    ghost Value = { Rooms };

    ghost view = { λ s. record {
      from = s.from;
      end = s.end;
      free = units_of s.holes.items;
      takes = s.takes;
      gives = s.spare - s.takes;
    } };

    // The memory for what is reserved was taken: a take makes no hole, and a give at most one.
    ghost invariant = { λ s.
        (s.end < 2 ^ 64) × AreHoles s.from s.end s.holes.items
        × (s.takes ≤ s.spare) × (vec_len s.holes + s.spare ≤ vec_capacity s.holes) };
}

impl Space {
    /// `units` free units, numbered from `from`. No take is reserved.
    ///
    /// # Errors
    ///
    /// `NoMemory` if memory runs out.
    pub fn new(alloc: Global, from: u64, units: u32) -> Result<Self, NoMemory>
        requires { from + units < 2 ^ 64 }
        ensures { IfOk result (λ space. space ≡ new_space from units) }
    {
        let len = units as u64;
        let mut holes = Vec::with_capacity(alloc, 1)?;
        if len > 0 {
            holes.push_reserved(Hole { at: from, len });
        }
        Ok(Space {
            from,
            end: from + len,
            holes,
            takes: 0,
            spare: 0,
        })
    }

    /// Reserves the memory of `count` takes, counting those that are reserved already, and of their gives.
    ///
    /// # Errors
    ///
    /// `NoMemory` if memory runs out. Then nothing has changed.
    pub fn reserve(&mut self, count: u32) -> Result<(), NoMemory>
        ensures ok { OnOk result (self.new ≡ after_reserve self.old count) }
        ensures err { OnErr result (self.new ≡ self.old) }
    {
        let takes = self.takes.max(count as usize);
        let spare = self.spare - self.takes + takes;
        self.holes.reserve(spare)?;
        self.takes = takes;
        self.spare = spare;
        Ok(())
    }

    /// Takes the lowest room of `len` units. Returns its first unit, or `None` exactly where no `len` consecutive units are free. It
    /// uses up a reserved take where it returns a room.
    pub fn take(&mut self, len: u32) -> Option<u64>
        requires some { 0 < len }
        requires reserved { 0 < self.old.takes }
        ensures no_room { IfNone result ((at : ℕ) → IsRoom self.old at len → ⊥) }
        ensures unchanged { IfNone result (self.new ≡ self.old) }
        ensures lowest { IfSome result (λ at. IsLowestRoom self.old at len) }
        ensures inside { IfSome result (λ at. (self.old.from ≤ at) × (at + len ≤ self.old.end)) }
        ensures taken { IfSome result (λ at. self.new ≡ after_take self.old at len) }
    {
        let len = len as u64;
        let place = first_fit(&self.holes, len)?;
        let at = cut(&mut self.holes, place, len);
        self.takes -= 1;
        Some(at)
    }

    /// Gives back `len` units that were taken, from `at` on.
    pub fn give(&mut self, at: u64, len: u32)
        requires some { 0 < len }
        requires reserved { 0 < self.old.gives }
        requires taken { IsTaken self.old at len }
        ensures { self.new ≡ after_give self.old at len }
    {
        let hole = Hole {
            at,
            len: len as u64,
        };
        prove!(self.from <= at);
        prove!(at + hole.len <= self.end);
        let place = first_above(&self.holes, at);
        put(&mut self.holes, place, hole);
        self.spare -= 1;
    }
}
