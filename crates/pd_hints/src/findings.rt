//! How findings are told.

use crate::texts::{add, add_names};
use pn_types::NoMemory;
use std::alloc::Global;

/// Adds a line on what was found of these names, and what that means; nothing where there are none.
pub(crate) fn add_finding(
    alloc: Global,
    text: &mut String,
    what: &str,
    names: &[&str],
    says: &str,
) -> Result<(), NoMemory> {
    if names.is_empty() {
        return Ok(());
    }
    add(text, "pd: {} ", &[what])?;
    add_names(alloc, text, names)?;
    add(text, ": {}\n", &[says])
}
