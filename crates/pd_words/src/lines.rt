//! Putting texts together.

use crate::rows::WordRow;
use pn_types::NoMemory;

/// Adds parts to a text, one after the other.
///
/// # Errors
///
/// `NoMemory` where memory runs out.
pub fn add(text: &mut String, parts: &[&str]) -> Result<(), NoMemory> {
    for part in parts {
        text.push_str(part)?;
    }
    Ok(())
}

/// Adds the ways to write an option: its short form, if it has one, and its name, with a text before them and one between.
///
/// # Errors
///
/// `NoMemory` where memory runs out.
pub fn add_forms(
    text: &mut String,
    before: &'static str,
    option: &WordRow,
    between: &'static str,
) -> Result<(), NoMemory> {
    match option.letter {
        Some(letter) => add(text, &[before, "-", letter, between, "--", option.name]),
        None => add(text, &[before, "--", option.name]),
    }
}
