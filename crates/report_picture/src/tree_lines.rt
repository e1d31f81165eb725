//! The tree of what was true, line by line.

ghost use Rattle.std.specs.Prelude.{◌≡◌, ◌++◌, ◌∷◌, ◌+◌, ◌≤◌, [], None, if◌then◌else◌, length, drop, slice_get, IfOk, OnOk};
ghost use Rattle.std.specs.Option.{option_map};
ghost use Rattle.report_view.specs.Searches.{phase_with};
ghost use Rattle.report_picture.specs.TreeLines.{begins_phase, first_depth, lines_from, tree_lines};

use crate::tree_line::TreeLine;
use pn_types::NoMemory;
use report::NodePart;
use report_view::{TreeRow, truth_tree};
use std::alloc::Global;

/// Returns the node of a number.
pub fn node_at(parts: &[NodePart], number: usize) -> Option<&NodePart>
    ensures { option_map (λ part. part.now) result ≡ slice_get parts.now number }
{
    parts.get(number)
}

/// Returns whether a root has another phase than the last root.
fn begins_phase(before: Option<&[u8]>, depth: usize, part: Option<&NodePart>) -> bool
    ensures { result
        ≡ begins_phase (option_map (λ phase. phase.now) before.entry) depth (option_map (λ part. part.now) part.entry) }
{
    match part {
        Some(part) if depth == 0 => match before {
            Some(before) => part.phase.bytes() != before,
            None => true,
        },
        _ => false,
    }
}

/// Returns the phase of the last root so far.
fn phase_with<'a>(
    before: Option<&'a [u8]>,
    depth: usize,
    part: Option<&'a NodePart>,
) -> Option<&'a [u8]>
    ensures { option_map (λ phase. phase.now) result
        ≡ phase_with (option_map (λ phase. phase.now) before.entry) depth (option_map (λ part. part.now) part.entry) }
{
    match part {
        Some(part) if depth == 0 => Some(part.phase.bytes()),
        _ => before,
    }
}

/// Returns the depth of the first row from a place on, or 0.
fn first_depth(rows: &[TreeRow], place: usize) -> usize
    requires { place ≤ length rows.now }
    ensures { result ≡ first_depth (drop place rows.now) }
{
    match rows[place..].first() {
        Some(row) => row.depth,
        None => 0,
    }
}

/// Adds the line of a phase, where it begins.
fn add_phase(lines: &mut Vec<TreeLine>, begins: bool, number: usize) -> Result<(), NoMemory>
    ensures { OnOk result (lines.new.items ≡ lines.old.items ++ (if begins then TreeLine.Phase number ∷ [] else [])) }
{
    if begins {
        lines.push(TreeLine::Phase(number))?;
    }
    Ok(())
}

/// Returns the lines of some rows.
fn lines_of(alloc: Global, parts: &[NodePart], rows: &[TreeRow]) -> Result<Vec<TreeLine>, NoMemory>
    ensures { IfOk result (λ lines. lines.items ≡ lines_from parts.now None rows.now) }
{
    let mut lines = Vec::new(alloc);
    let mut before = None;
    for (place, row) in rows.iter().enumerate() {
        let part = node_at(parts, row.number);
        let next = first_depth(rows, place + 1);
        add_phase(
            &mut lines,
            begins_phase(before, row.depth, part),
            row.number,
        )?;
        lines.push(TreeLine::Node(row.number, row.depth, next))?;
        before = phase_with(before, row.depth, part);
    }
    Ok(lines)
}

/// Returns the tree of what was true, line by line.
///
/// # Errors
///
/// `NoMemory` where memory runs out.
pub fn tree_lines(alloc: Global, parts: &[NodePart]) -> Result<Vec<TreeLine>, NoMemory>
    ensures { IfOk result (λ lines. lines.items ≡ tree_lines parts.now) }
{
    let rows = truth_tree(alloc, parts)?;
    lines_of(alloc, parts, &rows)
}
