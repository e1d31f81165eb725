//! Lines of the files that people write, as they are told again.

use crate::texts::add;
use pn_types::NoMemory;
use std::alloc::Global;

/// What stands before a line that is told again.
const MARGIN: &str = "    ";

/// The most bytes that are told of a line.
const MOST_BYTES: usize = 120;

/// Returns the line of this number, from 1, without its end.
pub(crate) fn line_at(bytes: &[u8], number: usize) -> Option<&[u8]> {
    bytes
        .split(|byte| *byte == b'\n')
        .nth(number.checked_sub(1)?)
}

/// Adds a line of a file, or its first bytes where it is long.
pub(crate) fn add_line(alloc: Global, text: &mut String, line: &[u8]) -> Result<(), NoMemory> {
    let front = line.get(..MOST_BYTES).unwrap_or(line);
    let line = String::from_utf8_lossy(alloc, front)?;
    add(text, "{}{}\n", &[MARGIN, line.as_str().trim_end()])
}

/// Adds a sign below the byte of a line before which these stand.
fn add_caret(alloc: Global, text: &mut String, before: &[u8]) -> Result<(), NoMemory> {
    let before = String::from_utf8_lossy(alloc, before)?;
    text.push_str(MARGIN)?;
    for sign in before.as_str().chars() {
        text.push(if sign == '\t' { '\t' } else { ' ' })?;
    }
    text.push_str("^\n")
}

/// Adds a line of a file, and below it a sign at its column, counted in bytes from 1. Of a long line only what stands round the column is
/// told.
pub(crate) fn add_line_at(
    alloc: Global,
    text: &mut String,
    line: &[u8],
    column: usize,
) -> Result<(), NoMemory> {
    let place = column.saturating_sub(1).min(line.len());
    let first = place.saturating_sub(MOST_BYTES / 2);
    let cut = &line[first..];
    add_line(alloc, text, cut)?;
    add_caret(alloc, text, &line[first..place])
}
