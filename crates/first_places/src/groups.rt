//! All places of each name.

ghost use Rattle.std.specs.Prelude.{◌≡◌, ◌<◌, ◌+◌, ◌^◌, ◌++◌, ◌∷◌, [], IfOk, OnOk, OnErr, length, position, slice_get};
ghost use Rattle.std.specs.Option.{option_map, option_map_or};
ghost use Rattle.std.specs.Str.{bytes_eq};
ghost use Rattle.first_places.specs.Groups.{first_mentions, places_of};

use crate::numbers::add_number;
use indexmap::IndexMap;
use pn_types::{NoMemory, Text};
use std::alloc::Global;
use std::marker::Model;

/// A list of fewer than 2^32 names, and all places of each. Equal names are a group, and groups have numbers in the
/// order of their first names.
pub struct PlacesByName {
    names: Vec<Text>,
    places: IndexMap<Vec<u8>, Vec<u32>>,
}

impl Model for PlacesByName {
    ghost use Rattle.std.specs.Prelude.{List, ℕ};
    ghost use Rattle.first_places.specs.Grouped.{AreGrouped};

    ghost Value = { List (List ℕ) };

    ghost view = { λ p. p.names.items };

    ghost invariant = { λ p. AreGrouped (λ key. key.items) (λ own. own.items) p.names.items p.places.entries };
}

// By a call of its own: what drops it need not prove the drops of all its parts.
impl Drop for PlacesByName {
    fn drop(self) {
        let PlacesByName {
            names: _,
            places: _,
        } = self;
    }
}

impl PlacesByName {
    /// No names.
    pub fn new(alloc: Global) -> PlacesByName
        ensures { result ≡ [] }
    {
        PlacesByName {
            names: Vec::new(alloc),
            places: IndexMap::new(alloc),
        }
    }

    /// Appends a name.
    ///
    /// # Errors
    ///
    /// `NoMemory` if memory runs out. Then nothing has changed.
    pub fn push(&mut self, alloc: Global, name: &[u8]) -> Result<(), NoMemory>
        requires { length self.old + 1 < 2 ^ 32 }
        ensures pushed { OnOk result (self.new ≡ self.old ++ name.now ∷ []) }
        ensures err { OnErr result (self.new ≡ self.old) }
    {
        let place = self.names.len() as u32;
        let copy = Text::from_vec(Vec::from_slice(alloc, name)?);
        self.names.push(copy)?;
        match add_number(alloc, &mut self.places, name, place) {
            Ok(()) => Ok(()),
            Err(fault) => {
                self.names.pop();
                Err(fault)
            }
        }
    }

    /// Copies the list.
    ///
    /// # Errors
    ///
    /// `NoMemory` if memory runs out.
    pub fn copy(&self, alloc: Global) -> Result<PlacesByName, NoMemory>
        ensures { IfOk result (λ copy. copy ≡ self.now) }
    {
        let mut copy = PlacesByName::new(alloc);
        for name in &self.names {
            copy.push(alloc, name.bytes())?;
        }
        Ok(copy)
    }

    /// The places of a name, ascending.
    pub fn places(&self, name: &[u8]) -> &[u32]
        ensures { result.now ≡ places_of name.now self.now }
    {
        match self.places.get(name) {
            Some(places) => places.as_slice(),
            None => &[],
        }
    }

    /// The number of the group of a name.
    pub fn group_named(&self, name: &[u8]) -> Option<u32>
        ensures { result ≡ position (bytes_eq name.now) (first_mentions self.now) }
    {
        let number = self.places.get_index_of(name)?;
        Some(number as u32)
    }

    /// The name of a group.
    pub fn name(&self, group: u32) -> Option<&[u8]>
        ensures { option_map (λ name. name.now) result ≡ slice_get (first_mentions self.now) group }
    {
        let (name, _) = self.places.get_index(group as usize)?;
        Some(name.as_slice())
    }

    /// The places of a group's name, ascending. Empty where there is no such group.
    pub fn group(&self, group: u32) -> &[u32]
        ensures { result.now ≡ option_map_or (λ name. places_of name self.now) (slice_get (first_mentions self.now) group) [] }
    {
        match self.places.get_index(group as usize) {
            Some((_, places)) => places.as_slice(),
            None => &[],
        }
    }

    /// How many groups there are.
    pub fn group_count(&self) -> u32
        ensures { result ≡ length (first_mentions self.now) }
    {
        self.places.len() as u32
    }
}
