//! Places under names.

ghost use Rattle.std.specs.Prelude.{◌≡◌, List, ℕ, [], slice_get, OnOk};
ghost use Rattle.std.specs.Str.{bytes_eq};
ghost use Rattle.first_places.specs.Numbers.{with_number, IsAdded};
ghost use Rattle.directives.specs.Standing.{under};

use indexmap::IndexMap;
use pn_types::NoMemory;
use std::alloc::Global;

/// The places that were put under each name, in their order.
pub(crate) struct NamePlaces {
    places: IndexMap<Vec<u8>, Vec<usize>>,
}

// A function of its own, so that what drops it need not prove the drops of all its parts.
impl Drop for NamePlaces {
    fn drop(self) {
        let NamePlaces { places: _ } = self;
    }
}

/// Puts a place last among those of a name.
fn add_place(
    alloc: Global,
    places: &mut IndexMap<Vec<u8>, Vec<usize>>,
    name: &[u8],
    place: usize,
) -> Result<(), NoMemory>
    ensures { OnOk result (IsAdded (λ key. key.items) (λ own. own.items) name.now place places.old.entries places.new.entries) }
{
    if let Some(own) = places.get_mut(name) {
        own.push(place)?;
        return Ok(());
    }
    let own = vec![in alloc; place]?;
    places.insert(Vec::from_slice(alloc, name)?, own)?;
    Ok(())
}

impl NamePlaces {
    /// No places.
    pub(crate) fn new(alloc: Global) -> NamePlaces
        ensures { (name : List ℕ) → under result name ≡ [] }
    {
        NamePlaces {
            places: IndexMap::new(alloc),
        }
    }

    /// Puts a place under a name, after those that are there.
    pub(crate) fn push(&mut self, alloc: Global, name: &[u8], place: usize) -> Result<(), NoMemory>
        ensures { OnOk result ((other : List ℕ)
            → under self.new other ≡ with_number (bytes_eq other name.now) place (under self.old other)) }
    {
        add_place(alloc, &mut self.places, name, place)
    }

    /// The places under a name.
    pub(crate) fn under(&self, name: &[u8]) -> &[usize]
        ensures { result.now ≡ under self.now name.now }
    {
        match self.places.get(name) {
            Some(places) => places.as_slice(),
            None => &[],
        }
    }

    /// The first place under a name.
    pub(crate) fn first(&self, name: &[u8]) -> Option<usize>
        ensures { result ≡ slice_get (under self.now name.now) 0 }
    {
        self.under(name).first().copied()
    }
}
