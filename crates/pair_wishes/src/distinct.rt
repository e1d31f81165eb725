//! Texts that are taken once.

ghost use Rattle.std.specs.Prelude.{◌≡◌, ◌++◌, ◌∷◌, [], OnOk};
ghost use Rattle.first_places.specs.Groups.{first_mentions};

use first_places::FirstPlaces;
use pn_types::{NoMemory, Text};
use std::alloc::Global;

/// Adds a text, where it isn't among those that were seen, and notes that it was.
pub(crate) fn add_distinct(
    alloc: Global,
    seen: &mut FirstPlaces,
    distinct: &mut Vec<Text>,
    text: Text,
) -> Result<(), NoMemory>
    requires { distinct.old.items ≡ first_mentions seen.old }
    ensures seen { OnOk result (seen.new ≡ seen.old ++ text ∷ []) }
    ensures distinct { OnOk result (distinct.new.items ≡ first_mentions seen.new) }
{
    let known = seen.push(alloc, text.bytes())?;
    if !known {
        distinct.push(text)?;
    }
    Ok(())
}
