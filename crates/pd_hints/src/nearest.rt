//! The known name that somebody may have meant.

use crate::texts::add;
use pn_types::NoMemory;
use std::alloc::Global;
use strsim::osa_distance;

/// The longest word for which a known one is sought, in bytes.
const MAX_SOUGHT: usize = 40;

/// A name, and how many letters of it are wrong.
#[derive(Clone, Copy, Drop)]
struct Near<'a> {
    name: &'a str,
    distance: usize,
}

/// Returns the nearer of two: the first, where they are equally near, or where the second is too far to be meant.
fn nearer<'a>(first: Option<Near<'a>>, second: Near<'a>) -> Option<Near<'a>> {
    // Of three letters one may be wrong, of six two, and so on.
    if second.distance > second.name.len() / 3 {
        return first;
    }
    match first {
        Some(near) if near.distance <= second.distance => first,
        _ => Some(second),
    }
}

/// Returns the first of the nearest names, if there is one near enough.
pub(crate) fn nearest<'a>(
    alloc: Global,
    word: &str,
    names: &[&'a str],
) -> Result<Option<&'a str>, NoMemory> {
    if word.len() > MAX_SOUGHT {
        return Ok(None);
    }
    let mut best = None;
    for name in names {
        let distance = osa_distance(alloc, word, name)?;
        best = nearer(best, Near { name, distance });
    }
    Ok(best.map(|near| near.name))
}

/// Adds the line that there is nothing of this name, where these names are known.
pub(crate) fn add_unknown(
    alloc: Global,
    text: &mut String,
    what: &str,
    word: &str,
    names: &[&str],
) -> Result<(), NoMemory> {
    add(text, "There is no {} '{}'", &[what, word])?;
    match nearest(alloc, word, names)? {
        Some(name) => add(text, "; maybe '{}' is meant.\n", &[name]),
        None => text.push_str(".\n"),
    }
}
