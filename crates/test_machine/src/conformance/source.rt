//! The text that is assembled for a row.

use pn_types::NoMemory;
use rv_asm::assemble;
use std::alloc::Global;

/// Where a label stands from the word that leads to it, in bytes.
#[derive(Clone, Copy, Debug, Drop)]
pub enum Distance {
    Ahead(u64),
    Behind(u64),
}

impl Distance {
    /// Reads a decimal number, which is negative where the label stands before the word.
    pub fn parse(text: &str) -> Option<Distance> {
        match text.strip_prefix('-') {
            Some(digits) => Some(Distance::Behind(digits.parse().ok()?)),
            None => Some(Distance::Ahead(text.parse().ok()?)),
        }
    }
}

/// Adds instructions that do nothing.
fn add_nops(source: &mut Vec<u8>, count: u64) -> Result<(), NoMemory> {
    for _ in 0..count {
        source.extend_from_slice(b"nop\n")?;
    }
    Ok(())
}

/// Adds a line.
fn add_line(source: &mut Vec<u8>, text: &str) -> Result<(), NoMemory> {
    source.extend_from_slice(text.as_bytes())?;
    source.extend_from_slice(b"\n")
}

/// The text with its label.
fn source(alloc: Global, text: &str, distance: Option<Distance>) -> Result<Vec<u8>, NoMemory> {
    let mut source = Vec::new(alloc);
    match distance {
        None => add_line(&mut source, text)?,
        Some(Distance::Ahead(0)) => {
            add_line(&mut source, "target:")?;
            add_line(&mut source, text)?;
        }
        Some(Distance::Ahead(bytes)) => {
            add_line(&mut source, text)?;
            add_nops(&mut source, (bytes / 4).saturating_sub(1))?;
            add_line(&mut source, "target: nop")?;
        }
        Some(Distance::Behind(bytes)) => {
            add_line(&mut source, "target:")?;
            add_nops(&mut source, bytes / 4)?;
            add_line(&mut source, text)?;
        }
    }
    Ok(source)
}

/// How many bytes stand before the text's words.
fn place(distance: Option<Distance>) -> u64 {
    match distance {
        Some(Distance::Behind(bytes)) => bytes,
        _ => 0,
    }
}

/// Whether the words stand at a place of the bytes.
fn stand_at(bytes: &[u8], place: u64, first: u32, second: Option<u32>) -> bool {
    let from = bytes.len().min(place as usize);
    let rest = &bytes[from..];
    let Some(second) = second else {
        return rest.starts_with(&first.to_le_bytes());
    };
    rest.len() >= 4
        && rest.starts_with(&first.to_le_bytes())
        && rest[4..].starts_with(&second.to_le_bytes())
}

/// Tests whether a text assembles to words. Its label stands at a distance of its last word.
///
/// # Errors
///
/// `NoMemory` if memory runs out.
pub fn assembles_to(
    alloc: Global,
    text: &str,
    distance: Option<Distance>,
    first: u32,
    second: Option<u32>,
) -> Result<bool, NoMemory> {
    let source = source(alloc, text, distance)?;
    if source.len() >= 1 << 31 {
        return Ok(false);
    }
    let Ok(image) = assemble(alloc, &source) else {
        return Ok(false);
    };
    let Some(segment) = image.segments.as_slice().first() else {
        return Ok(false);
    };
    Ok(stand_at(segment.bytes.as_slice(), place(distance), first, second))
}
