//! The places and the names.

ghost use Rattle.std.specs.Prelude.{◌≡◌, ◌++◌, ◌∷◌, [], IfOk, OnOk, OnErr, length, is_some, slice_get};
ghost use Rattle.std.specs.Option.{option_map};
ghost use Rattle.std.specs.Str.{bytes_eq};
ghost use Rattle.std.specs.Map.{lookup};
ghost use Rattle.first_places.specs.Places.{first_place};
ghost use Rattle.first_places.specs.Entries.{IsNoted};

use indexmap::IndexMap;
use pn_types::{NoMemory, Text};
use std::alloc::Global;
use std::marker::Model;

/// A list of names, and where each of them stands first.
pub struct FirstPlaces {
    names: Vec<Text>,
    places: IndexMap<Vec<u8>, usize>,
}

impl Model for FirstPlaces {
    ghost use Rattle.std.specs.Prelude.{List, ℕ};
    ghost use Rattle.first_places.specs.Entries.{AreFirst};

    ghost Value = { List (List ℕ) };

    ghost view = { λ f. f.names.items };

    ghost invariant = { λ f. AreFirst (λ key. key.items) f.names.items f.places.entries };
}

// By a call of its own: what drops it need not prove the drops of all its parts.
impl Drop for FirstPlaces {
    fn drop(self) {
        let FirstPlaces {
            names: _,
            places: _,
        } = self;
    }
}

/// Notes the place of a name, unless one is noted already. Returns whether one was. Where memory runs out nothing has changed.
fn note(
    alloc: Global,
    places: &mut IndexMap<Vec<u8>, usize>,
    name: &[u8],
    place: usize,
) -> Result<bool, NoMemory>
    ensures before { IfOk result (λ before. before ≡ is_some (lookup (λ key. bytes_eq name.now key.items) places.old.entries)) }
    ensures noted { OnOk result (IsNoted (λ key. key.items) name.now place places.old.entries places.new.entries) }
    ensures err { OnErr result (places.new.entries ≡ places.old.entries) }
{
    if places.contains_key(name) {
        return Ok(true);
    }
    places.insert(Vec::from_slice(alloc, name)?, place)?;
    Ok(false)
}

impl FirstPlaces {
    /// No names.
    pub fn new(alloc: Global) -> FirstPlaces
        ensures { result ≡ [] }
    {
        FirstPlaces {
            names: Vec::new(alloc),
            places: IndexMap::new(alloc),
        }
    }

    /// Appends a name. Returns whether it was in the list before.
    ///
    /// # Errors
    ///
    /// `NoMemory` if memory runs out. Then nothing has changed.
    pub fn push(&mut self, alloc: Global, name: &[u8]) -> Result<bool, NoMemory>
        ensures before { IfOk result (λ before. before ≡ is_some (first_place name.now self.old)) }
        ensures pushed { OnOk result (self.new ≡ self.old ++ name.now ∷ []) }
        ensures err { OnErr result (self.new ≡ self.old) }
    {
        let place = self.names.len();
        let copy = Text::from_vec(Vec::from_slice(alloc, name)?);
        self.names.push(copy)?;
        match note(alloc, &mut self.places, name, place) {
            Ok(before) => Ok(before),
            Err(fault) => {
                self.names.pop();
                Err(fault)
            }
        }
    }

    /// Makes the list of these names, in their order.
    ///
    /// # Errors
    ///
    /// `NoMemory` if memory runs out.
    pub fn of(alloc: Global, names: &[Text]) -> Result<FirstPlaces, NoMemory>
        ensures { IfOk result (λ places. places ≡ names.now) }
    {
        let mut places = FirstPlaces::new(alloc);
        for name in names {
            places.push(alloc, name.bytes())?;
        }
        Ok(places)
    }

    /// Copies the list.
    ///
    /// # Errors
    ///
    /// `NoMemory` if memory runs out.
    pub fn copy(&self, alloc: Global) -> Result<FirstPlaces, NoMemory>
        ensures { IfOk result (λ copy. copy ≡ self.now) }
    {
        FirstPlaces::of(alloc, self.names.as_slice())
    }

    /// The first place at which the name stands.
    pub fn lookup(&self, name: &[u8]) -> Option<usize>
        ensures { result ≡ first_place name.now self.now }
    {
        self.places.get(name).copied()
    }

    /// The name at a place.
    pub fn name(&self, place: usize) -> Option<&[u8]>
        ensures { option_map (λ name. name.now) result ≡ slice_get self.now place }
    {
        let name = self.names.get(place)?;
        Some(name.bytes())
    }

    /// How many names there are. A name counts as often as it is in the list.
    pub fn len(&self) -> usize
        ensures { result ≡ length self.now }
    {
        self.names.len()
    }
}
