//! A focus as a person reads it.

ghost use Rattle.std.specs.Prelude.{◌≡◌, ◌==◌, ◌∷◌, ◌++◌, [], if◌then◌else◌, IfOk, OnOk, map};
ghost use Rattle.std.specs.List.{join_with_byte};
ghost use Rattle.report_view.specs.Foci.{is_below_root, parts_below_root, short_focus, short_or_all};

use pn_types::NoMemory;
use std::alloc::Global;

/// Returns whether a part is more than its root.
fn is_below_root(part: &[u8]) -> bool
    ensures { result ≡ is_below_root part.now }
{
    part.iter().skip(1).any(|byte| *byte == b'/')
}

/// Returns the parts that are more than their roots.
fn parts_below_root(alloc: Global, focus: &[u8]) -> Result<Vec<&[u8]>, NoMemory>
    ensures { IfOk result (λ parts. map (λ part. part.now) parts.items ≡ parts_below_root focus.now) }
{
    focus
        .split(|byte| *byte == b',')
        .filter(|part| is_below_root(part))
        .collect(alloc)
}

/// Adds the part at a place, behind a comma, unless it is the first.
fn add_part(text: &mut Vec<u8>, place: usize, part: &[u8]) -> Result<(), NoMemory>
    ensures { OnOk result (text.new.items ≡ text.old.items ++ (if place == 0 then [] else 44 ∷ []) ++ part.now) }
{
    if place > 0 {
        text.push(b',')?;
    }
    text.extend_from_slice(part)
}

/// Returns parts that are joined by commas.
fn joined(alloc: Global, parts: &[&[u8]]) -> Result<Vec<u8>, NoMemory>
    ensures { IfOk result (λ text. text.items ≡ join_with_byte 44 (map (λ part. part.now) parts.now)) }
{
    let mut text = Vec::new(alloc);
    for (place, part) in parts.iter().enumerate() {
        add_part(&mut text, place, part)?;
    }
    Ok(text)
}

/// Returns a text, or that it is all in place of none.
fn short_or_all(alloc: Global, text: Vec<u8>) -> Result<Vec<u8>, NoMemory>
    ensures { IfOk result (λ result. result.items ≡ short_or_all text.items) }
{
    if text.is_empty() {
        return Vec::from_slice(alloc, b"the whole program");
    }
    Ok(text)
}

/// Returns a focus without the hierarchies of which it selects all.
///
/// # Errors
///
/// `NoMemory` where memory runs out.
#[tactic(auto, unfolding(crate::specs::Foci::short_focus))]
pub fn short_focus(alloc: Global, focus: &[u8]) -> Result<Vec<u8>, NoMemory>
    ensures { IfOk result (λ text. text.items ≡ short_focus focus.now) }
{
    let parts = parts_below_root(alloc, focus)?;
    let text = joined(alloc, &parts)?;
    short_or_all(alloc, text)
}
