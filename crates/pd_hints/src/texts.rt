//! How texts are put together.

use pn_types::NoMemory;
use std::alloc::Global;
use std::str::from_utf8;

/// The most names that a line lists.
const MOST_NAMES: usize = 6;

/// Adds a form to a text, with the parts, one after another, in the place of its `{}`.
pub(crate) fn add(text: &mut String, form: &str, parts: &[&str]) -> Result<(), NoMemory> {
    let mut parts = parts.iter();
    for (number, piece) in form.split("{}").enumerate() {
        if number > 0 {
            text.push_str(parts.next().copied().unwrap_or(""))?;
        }
        text.push_str(piece)?;
    }
    Ok(())
}

/// Returns a name as a text, or `?` where it is none.
pub(crate) fn name_text(name: &[u8]) -> &str {
    from_utf8(name).unwrap_or("?")
}

/// Adds names with commas between them: the first ones and the number of the others, where there are many.
pub(crate) fn add_names(alloc: Global, text: &mut String, names: &[&str]) -> Result<(), NoMemory> {
    for (number, name) in names.iter().take(MOST_NAMES).enumerate() {
        let before = if number == 0 { "" } else { ", " };
        add(text, "{}{}", &[before, name])?;
    }
    match names.len().checked_sub(MOST_NAMES) {
        None | Some(0) => Ok(()),
        Some(more) => add(text, " and {} more", &[more.to_string(alloc)?.as_str()]),
    }
}
