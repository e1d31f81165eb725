//! Names that stand in two lists.

ghost use Rattle.std.specs.Prelude.{◌≡◌, ◌++◌, IfOk, OnOk};
ghost use Rattle.report_diff.specs.Matches.{is_first_at, match_at, matches_of};

use first_places::FirstPlaces;
use pn_types::{NoMemory, Text};
use std::alloc::Global;

/// The first place of a name in a list, and its first place in another, if it stands there.
#[derive(Clone, Copy, Drop)]
pub struct Match {
    /// Its place in the list.
    pub place: usize,
    /// Its place in the other.
    pub other: Option<usize>,
}

/// Returns whether a name stands first at a place.
fn is_first_at(names: &FirstPlaces, place: usize, name: &[u8]) -> bool
    ensures { result ≡ is_first_at names.now place name.now }
{
    match names.lookup(name) {
        Some(first) => first == place,
        None => false,
    }
}

/// Adds the match of a name, where it stands first at its place.
fn add_match(
    found: &mut Vec<Match>,
    names: &FirstPlaces,
    others: &FirstPlaces,
    place: usize,
    name: &[u8],
) -> Result<(), NoMemory>
    ensures { OnOk result (found.new.items ≡ found.old.items ++ match_at names.now others.now place name.now) }
{
    if !is_first_at(names, place, name) {
        return Ok(());
    }
    let other = others.lookup(name);
    found.push(Match { place, other })?;
    Ok(())
}

/// Returns each name where it stands first, with its first place among the others, if it stands there.
///
/// # Errors
///
/// `NoMemory` where memory runs out.
#[tactic(auto, unfolding(crate::specs::Matches::matches_of))]
pub fn matches_of(alloc: Global, names: &[Text], others: &[Text]) -> Result<Vec<Match>, NoMemory>
    ensures { IfOk result (λ found. found.items ≡ matches_of names.now others.now) }
{
    let own = FirstPlaces::of(alloc, names)?;
    let other = FirstPlaces::of(alloc, others)?;
    let mut found = Vec::new(alloc);
    for (place, name) in names.iter().enumerate() {
        add_match(&mut found, &own, &other, place, name.bytes())?;
    }
    Ok(found)
}
