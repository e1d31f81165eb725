//! The harts that may go.

ghost use Rattle.std.specs.Prelude.{◌≡◌, ◌++◌, ◌∷◌, [], ◌==◌, not, IfOk, OnOk, OnErr, Option, find, nat_le, slice_get, length};
ghost use Rattle.std.specs.List.{filter};

use pn_types::{HartNo, NoMemory};
use std::alloc::Global;
use std::marker::Model;

/// The harts that may go. Contracts see the list of their numbers.
#[derive(Drop)]
pub struct Ready {
    harts: Vec<HartNo>,
}

impl Model for Ready {
    ghost use Rattle.std.specs.Prelude.{List, ℕ};

    ghost Value = { List ℕ };

    ghost view = { λ r. r.harts.items };
}

impl Ready {
    /// An empty list.
    pub fn new(alloc: Global) -> Ready
        ensures { result ≡ [] }
    {
        Ready {
            harts: Vec::new(alloc),
        }
    }

    /// Appends a hart.
    ///
    /// # Errors
    ///
    /// `NoMemory` if memory runs out. Then nothing has changed.
    pub fn push(&mut self, hart: HartNo) -> Result<(), NoMemory>
        ensures pushed { OnOk result (self.new ≡ self.old ++ hart ∷ []) }
        ensures err { OnErr result (self.new ≡ self.old) }
    {
        self.harts.push(hart)?;
        Ok(())
    }

    /// Removes all harts. The list keeps its memory.
    pub fn clear(&mut self)
        ensures { self.new ≡ [] }
    {
        self.harts.clear();
    }

    /// Removes a hart. It takes no memory.
    pub fn remove(&mut self, hart: HartNo)
        ensures { self.new ≡ filter (λ h. not (h == hart)) self.old }
    {
        self.harts.retain(|h| h.get() != hart.get());
    }

    /// How many harts there are.
    pub fn count(&self) -> usize
        ensures { result ≡ length self.now }
    {
        self.harts.len()
    }

    /// The hart at a place in the list.
    pub fn at(&self, place: usize) -> Option<HartNo>
        ensures { result ≡ slice_get self.now place }
    {
        self.harts.get(place).copied()
    }

    /// The first of the harts whose number is at least `least`.
    pub fn first_from(&self, least: u32) -> Option<HartNo>
        ensures { result ≡ find (nat_le least) self.now }
    {
        for hart in &self.harts {
            if least <= hart.get() {
                return Some(*hart);
            }
        }
        None
    }
}
