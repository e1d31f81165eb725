//! Names and their addresses.

ghost use Rattle.std.specs.Prelude.{◌≡◌, ◌++◌, ◌∷◌, [], IfOk, OnOk, is_some, slice_get};
ghost use Rattle.rv_asm.specs.Registers.{named};

use first_places::FirstPlaces;
use std::alloc::{AllocError, Global};
use std::marker::Model;

/// Names and their addresses, in the order of the text.
#[derive(Drop)]
pub(crate) struct Labels {
    names: FirstPlaces,
    /// The address of each of the names.
    addresses: Vec<u128>,
}

impl Model for Labels {
    ghost use Rattle.std.specs.Prelude.{◌≡◌, List, ℕ, length};
    ghost use Rattle.std.specs.List.{zip};

    ghost Value = { List (List ℕ × ℕ) };

    ghost view = { λ labels. zip labels.names labels.addresses.items };

    ghost invariant = { λ labels. length labels.names ≡ length labels.addresses.items };
}

/// The address at a place.
fn address(addresses: &[u128], place: usize) -> Option<u128>
    ensures { result ≡ slice_get addresses.now place }
{
    addresses.get(place).copied()
}

impl Labels {
    /// No names.
    pub(crate) fn new(alloc: Global) -> Labels
        ensures { result ≡ [] }
    {
        Labels {
            names: FirstPlaces::new(alloc),
            addresses: Vec::new(alloc),
        }
    }

    /// The address of the name.
    pub(crate) fn get(&self, name: &[u8]) -> Option<u128>
        ensures { result ≡ named name.now self.now }
    {
        let place = self.names.lookup(name)?;
        address(self.addresses.as_slice(), place)
    }

    /// Defines the name, and says whether it was defined before. Where memory is short all stays as it was.
    pub(crate) fn define(
        &mut self,
        alloc: Global,
        name: &[u8],
        at: u128,
    ) -> Result<bool, AllocError>
        ensures before { IfOk result (λ before. before ≡ is_some (named name.now self.old)) }
        ensures defined { OnOk result (self.new ≡ self.old ++ (name.now, at) ∷ []) }
    {
        self.addresses.push(at)?;
        match self.names.push(alloc, name) {
            Ok(before) => Ok(before),
            Err(fault) => {
                self.addresses.pop();
                Err(fault)
            }
        }
    }
}
