//! The causes that a search found.

ghost use Rattle.std.specs.Prelude.{◌≡◌, ◌++◌, IfOk, OnOk, filter};
ghost use Rattle.report_view.specs.Causes.{cause_line, causes_at, causes_from, causes_lines, causes_text, deepest, is_at_all_harts, is_cause, is_refined, is_true_at_all, some_causes};

use crate::tree_lines::add_tree_line;
use crate::tree_row::TreeRow;
use crate::trees::was_true;
use pn_types::NoMemory;
use report::NodePart;
use std::alloc::Global;

/// Returns whether a focus selects no hart.
fn is_at_all_harts(focus: &[u8]) -> bool
    ensures { result ≡ is_at_all_harts focus.now }
{
    focus
        .split(|byte| *byte == b',')
        .all(|part| !part.starts_with(b"/Machine/"))
}

/// Returns whether a node was true at all harts.
fn is_true_at_all(part: &NodePart) -> bool
    ensures { result ≡ is_true_at_all part.now }
{
    was_true(part) && is_at_all_harts(part.focus.bytes())
}

/// Returns whether some node that was true at all harts refines the node of a number.
fn is_refined(number: usize, parts: &[NodePart]) -> bool
    ensures { result ≡ is_refined number parts.now }
{
    parts.iter().any(|part| {
        part.node
            .parent
            .is_some_and(|parent| parent as usize == number)
            && is_true_at_all(part)
    })
}

/// Returns whether the node of a row is a cause.
fn is_cause(parts: &[NodePart], row: &TreeRow) -> bool
    ensures { result ≡ is_cause parts.now row.now }
{
    match parts.get(row.number) {
        Some(part) => is_true_at_all(part) && !is_refined(row.number, parts),
        None => false,
    }
}

/// Returns the rows whose nodes are causes.
fn causes_of(alloc: Global, parts: &[NodePart], rows: &[TreeRow]) -> Result<Vec<TreeRow>, NoMemory>
    ensures { IfOk result (λ causes. causes.items ≡ filter (is_cause parts.now) rows.now) }
{
    let mut causes = Vec::new(alloc);
    for row in rows {
        if is_cause(parts, row) {
            causes.push(*row)?;
        }
    }
    Ok(causes)
}

/// Returns the greatest depth of rows.
fn deepest(rows: &[TreeRow]) -> usize
    ensures { result ≡ deepest rows.now }
{
    let mut depth = 0;
    for row in rows {
        depth = row.depth.max(depth);
    }
    depth
}

/// Adds the line of a cause.
fn add_cause(
    alloc: Global,
    out: &mut Vec<u8>,
    parts: &[NodePart],
    row: &TreeRow,
) -> Result<(), NoMemory>
    ensures { OnOk result (out.new.items ≡ out.old.items ++ cause_line parts.now row.now) }
{
    match parts.get(row.number) {
        Some(part) => add_tree_line(alloc, out, 0, part),
        None => Ok(()),
    }
}

/// Adds the lines of the causes of a depth.
fn add_causes_at(
    alloc: Global,
    out: &mut Vec<u8>,
    parts: &[NodePart],
    causes: &[TreeRow],
    depth: usize,
) -> Result<(), NoMemory>
    ensures { OnOk result (out.new.items ≡ out.old.items ++ causes_at parts.now causes.now depth) }
{
    for row in causes {
        if row.depth == depth {
            add_cause(alloc, out, parts, row)?;
        }
    }
    Ok(())
}

/// Adds the lines of the causes from a depth on to the roots.
fn add_causes_from(
    alloc: Global,
    out: &mut Vec<u8>,
    parts: &[NodePart],
    causes: &[TreeRow],
    depth: usize,
) -> Result<(), NoMemory>
    ensures { OnOk result (out.new.items ≡ out.old.items ++ causes_from parts.now causes.now depth) }
{
    add_causes_at(alloc, out, parts, causes, depth)?;
    if depth == 0 {
        return Ok(());
    }
    add_causes_from(alloc, out, parts, causes, depth - 1)?;
    Ok(())
}

/// Adds causes, the deepest first, below a table_heading.
fn add_some_causes(
    alloc: Global,
    out: &mut Vec<u8>,
    parts: &[NodePart],
    causes: &[TreeRow],
) -> Result<(), NoMemory>
    ensures { OnOk result (out.new.items ≡ out.old.items ++ some_causes parts.now causes.now) }
{
    out.extend_from_slice(b"causes at all harts, the deepest first\n")?;
    add_causes_from(alloc, out, parts, causes, deepest(causes))?;
    Ok(())
}

/// Adds causes, if there are any.
#[tactic(auto, unfolding(crate::specs::Causes::causes_text))]
fn add_all_causes(
    alloc: Global,
    out: &mut Vec<u8>,
    parts: &[NodePart],
    causes: &[TreeRow],
) -> Result<(), NoMemory>
    ensures { OnOk result (out.new.items ≡ out.old.items ++ causes_text parts.now causes.now) }
{
    if causes.is_empty() {
        return Ok(());
    }
    add_some_causes(alloc, out, parts, causes)
}

/// Adds the causes among the rows of a tree, the deepest first.
///
/// # Errors
///
/// `NoMemory` where memory runs out.
#[tactic(auto, unfolding(crate::specs::Causes::causes_lines))]
pub fn add_causes(
    alloc: Global,
    out: &mut Vec<u8>,
    parts: &[NodePart],
    rows: &[TreeRow],
) -> Result<(), NoMemory>
    ensures { OnOk result (out.new.items ≡ out.old.items ++ causes_lines parts.now rows.now) }
{
    let causes = causes_of(alloc, parts, rows)?;
    add_all_causes(alloc, out, parts, &causes)
}
