//! The lines of the tree of what was true.

ghost use Rattle.std.specs.Prelude.{◌≡◌, ◌++◌, ◌*◌, bytes_eq, false, replicate, slice_get, None, IfOk, OnOk};
ghost use Rattle.std.specs.Option.{option_map, option_map_or};
ghost use Rattle.report_view.specs.Searches.{hypothesis_text, percent, phase_line, phase_with, row_lines, tree_line, tree_lines, window_text};

use crate::foci::short_focus;
use crate::pieces::{add_number, add_padded};
use crate::tree_row::TreeRow;
use pn_types::NoMemory;
use report::NodePart;
use std::alloc::Global;

/// Returns a value for a hundred ticks, with one decimal.
///
/// # Errors
///
/// `NoMemory` where memory runs out.
pub fn percent(alloc: Global, value: u64, ticks: u64) -> Result<Vec<u8>, NoMemory>
    ensures { IfOk result (λ text. text.items ≡ percent value ticks) }
{
    if ticks == 0 {
        return Vec::from_slice(alloc, b"0.0%");
    }
    let share = value as u128 * 1000 / ticks as u128;
    let whole = share / 10;
    let tenth = share % 10;
    let mut text = Vec::new(alloc);
    text.extend_from_slice(format!(in alloc; "{whole}.{tenth}%")?.as_bytes())?;
    Ok(text)
}

/// Adds two spaces for each node above.
fn add_indent(out: &mut Vec<u8>, depth: usize) -> Result<(), NoMemory>
    ensures { OnOk result (out.new.items ≡ out.old.items ++ replicate (2 * depth) 32) }
{
    for _ in 0..depth {
        out.extend_from_slice(b"  ")?;
    }
    Ok(())
}

/// Adds the hypothesis, at a root.
fn add_hypothesis(out: &mut Vec<u8>, depth: usize, part: &NodePart) -> Result<(), NoMemory>
    ensures { OnOk result (out.new.items ≡ out.old.items ++ hypothesis_text depth part.now) }
{
    if depth > 0 {
        return Ok(());
    }
    out.extend_from_slice(part.hypothesis.bytes())?;
    out.extend_from_slice(b", ")
}

/// Returns whether a node is of this phase.
fn is_phase(part: &NodePart, phase: Option<&[u8]>) -> bool
    ensures { result ≡ option_map_or (bytes_eq part.now.phase) (option_map (λ phase. phase.now) phase.entry) false }
{
    match phase {
        Some(phase) => part.phase.bytes() == phase,
        None => false,
    }
}

/// Adds the phase, where a root has another than the last root.
#[tactic(auto, unfolding(crate::specs::Searches::phase_line))]
fn add_phase(
    out: &mut Vec<u8>,
    before: Option<&[u8]>,
    depth: usize,
    part: &NodePart,
) -> Result<(), NoMemory>
    ensures { OnOk result (out.new.items ≡ out.old.items ++ phase_line (option_map (λ phase. phase.now) before.entry) depth part.now) }
{
    if depth > 0 || is_phase(part, before) {
        return Ok(());
    }
    out.extend_from_slice(b"phase ")?;
    out.extend_from_slice(part.phase.bytes())?;
    out.extend_from_slice(b"\n")
}

/// Returns the phase of the last root so far.
fn phase_with<'a>(
    before: Option<&'a [u8]>,
    depth: usize,
    part: Option<&'a NodePart>,
) -> Option<&'a [u8]>
    ensures { option_map (λ phase. phase.now) result
        ≡ phase_with (option_map (λ phase. phase.now) before.entry) depth (option_map (λ part. part.now) part.entry) }
{
    match part {
        Some(part) if depth == 0 => Some(part.phase.bytes()),
        _ => before,
    }
}

/// Adds from when to when a node was tested, and a line's end.
#[tactic(auto, unfolding(crate::specs::Searches::window_text))]
fn add_window(alloc: Global, out: &mut Vec<u8>, part: &NodePart) -> Result<(), NoMemory>
    ensures { OnOk result (out.new.items ≡ out.old.items ++ window_text part.now) }
{
    add_number(alloc, out, b" (", part.node.from)?;
    add_number(alloc, out, b" to ", part.node.to)?;
    out.extend_from_slice(b")\n")
}

/// Adds the share, the name and the window of a node.
///
/// # Errors
///
/// `NoMemory` where memory runs out.
#[tactic(auto, unfolding(crate::specs::Searches::tree_line))]
pub fn add_tree_line(
    alloc: Global,
    out: &mut Vec<u8>,
    depth: usize,
    part: &NodePart,
) -> Result<(), NoMemory>
    ensures { OnOk result (out.new.items ≡ out.old.items ++ tree_line depth part.now) }
{
    let share = percent(alloc, part.node.value, part.node.ticks)?;
    let focus = short_focus(alloc, part.focus.bytes())?;
    add_padded(out, 9, &share)?;
    out.extend_from_slice(b"  ")?;
    add_indent(out, depth)?;
    add_hypothesis(out, depth, part)?;
    out.extend_from_slice(&focus)?;
    add_window(alloc, out, part)
}

/// Adds the lines of a node, if there is one.
fn add_row(
    alloc: Global,
    out: &mut Vec<u8>,
    before: Option<&[u8]>,
    depth: usize,
    part: Option<&NodePart>,
) -> Result<(), NoMemory>
    ensures { OnOk result (out.new.items
        ≡ out.old.items ++ row_lines (option_map (λ phase. phase.now) before.entry) depth (option_map (λ part. part.now) part.entry)) }
{
    match part {
        None => Ok(()),
        Some(part) => {
            add_phase(out, before, depth, part)?;
            add_tree_line(alloc, out, depth, part)
        }
    }
}

/// Returns the node of a number.
fn node_at(parts: &[NodePart], number: usize) -> Option<&NodePart>
    ensures { option_map (λ part. part.now) result ≡ slice_get parts.now number }
{
    parts.get(number)
}

/// Adds the lines of a tree.
///
/// # Errors
///
/// `NoMemory` where memory runs out.
pub fn add_tree(
    alloc: Global,
    out: &mut Vec<u8>,
    parts: &[NodePart],
    rows: &[TreeRow],
) -> Result<(), NoMemory>
    ensures { OnOk result (out.new.items ≡ out.old.items ++ tree_lines parts.now None rows.now) }
{
    let mut before = None;
    for row in rows {
        let part = node_at(parts, row.number);
        add_row(alloc, out, before, row.depth, part)?;
        before = phase_with(before, row.depth, part);
    }
    Ok(())
}
