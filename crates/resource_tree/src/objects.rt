//! The objects of a tree.

ghost use Rattle.std.specs.Prelude.{◌≡◌, ◌<◌, ◌^◌, IfOk, length, position, slice_get};
ghost use Rattle.std.specs.Str.{bytes_eq};
ghost use Rattle.std.specs.Option.{option_map};
ghost use Rattle.resource_tree.specs.Resources.{has_prefix, is_listed, objects_of};

use first_places::FirstPlaces;
use pn_types::{NoMemory, Symbol, Text, is_good_name};
use std::alloc::Global;
use std::marker::Model;

/// The names and addresses of objects, in the order of the tree.
pub(crate) struct Objects {
    names: FirstPlaces,
    addresses: Vec<u64>,
}

impl Model for Objects {
    ghost use Rattle.std.specs.Prelude.{List};
    ghost use Rattle.resource_tree.specs.Columns.{AreEven, objects_at};
    ghost use Rattle.resource_tree.specs.Resources.{ObjectNode};

    ghost Value = { List ObjectNode };

    ghost view = { λ o. objects_at o.names o.addresses.items };

    ghost invariant = { λ o. AreEven o.names o.addresses.items };
}

// A function of its own, so that what drops it need not prove the drops of all its parts.
impl Drop for Objects {
    fn drop(self) {
        let Objects {
            names: _,
            addresses: _,
        } = self;
    }
}

/// Whether the name begins with one of the prefixes.
fn has_prefix(prefixes: &[Text], name: &[u8]) -> bool
    ensures { result ≡ has_prefix prefixes.now name.now }
{
    prefixes
        .iter()
        .any(|prefix| name.starts_with(prefix.bytes()))
}

/// Whether the symbol has a good name with one of the prefixes.
fn is_listed(prefixes: &[Text], symbol: &Symbol) -> bool
    ensures { result ≡ is_listed prefixes.now symbol.now }
{
    let name = symbol.name.bytes();
    is_good_name(name) && has_prefix(prefixes, name)
}

impl Objects {
    /// The objects of the symbols that have a good name with one of the prefixes, in their order, the first of each
    /// name.
    pub(crate) fn of(
        alloc: Global,
        symbols: &[Symbol],
        prefixes: &[Text],
    ) -> Result<Objects, NoMemory>
        requires { length symbols.now < 2 ^ 32 }
        ensures { IfOk result (λ objects. objects ≡ objects_of prefixes.now symbols.now) }
    {
        let mut names = FirstPlaces::new(alloc);
        let mut addresses = Vec::new(alloc);
        for symbol in symbols {
            let name = symbol.name.bytes();
            if is_listed(prefixes, symbol) && names.lookup(name).is_none() {
                names.push(alloc, name)?;
                addresses.push(symbol.at)?;
            }
        }
        Ok(Objects { names, addresses })
    }

    /// Equal objects.
    pub(crate) fn copy(&self, alloc: Global) -> Result<Objects, NoMemory>
        ensures { IfOk result (λ copy. copy ≡ self.now) }
    {
        Ok(Objects {
            names: self.names.copy(alloc)?,
            addresses: Vec::from_slice(alloc, self.addresses.as_slice())?,
        })
    }

    /// The number of the object of this name.
    pub(crate) fn named(&self, name: &[u8]) -> Option<u32>
        ensures { result ≡ position (λ o. bytes_eq name.now o.name) self.now }
    {
        let number = self.names.lookup(name)?;
        Some(number as u32)
    }

    /// The name of an object.
    pub(crate) fn name(&self, number: usize) -> Option<&[u8]>
        ensures { option_map (λ name. name.now) result ≡ option_map (λ o. o.name) (slice_get self.now number) }
    {
        self.names.name(number)
    }

    /// The address of an object.
    pub(crate) fn at(&self, number: usize) -> Option<u64>
        ensures { result ≡ option_map (λ o. o.at) (slice_get self.now number) }
    {
        self.addresses.get(number).copied()
    }

    /// How many objects there are.
    pub(crate) fn len(&self) -> u32
        ensures { result ≡ length self.now }
    {
        self.names.len() as u32
    }
}
