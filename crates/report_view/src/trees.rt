//! What was true in a search, as a tree.

ghost use Rattle.std.specs.Prelude.{◌≡◌, ◌+◌, ◌∷◌, ◌++◌, ◌<◌, ◌≤◌, ◌^◌, [], IfOk, OnOk, drop, length, slice_index_or, take};
ghost use Rattle.std.specs.List.{AllByRecursion, insert};
ghost use Rattle.report_view.specs.declared.tree_row.TreeRow.{TreeRow as Row};
ghost use Rattle.report_view.specs.Trees.{behind_deeper, below_parent, was_true, row_place, truth_tree, with_true_node, with_parent};

use crate::tree_row::TreeRow;
use pn_types::NoMemory;
use report::NodePart;
use std::alloc::Global;
use w3_search::NodeState;

/// Returns whether a node was true.
pub fn was_true(part: &NodePart) -> bool
    ensures { result ≡ was_true part.now }
{
    matches!(part.node.state, NodeState::Confirmed)
}

/// Returns where a node stands.
#[tactic(auto, unfolding(crate::specs::Trees::row_place))]
fn row_place(rows: &[TreeRow], number: usize) -> Option<usize>
    ensures { result ≡ row_place number rows.now }
{
    rows.iter().position(|row| row.number == number)
}

/// Returns where, from a place on, the first row stands that isn't deeper, or how many rows there are.
fn end_of_deeper(rows: &[TreeRow], start: usize, depth: usize) -> usize
    requires { start ≤ length rows.now }
    ensures bound { result ≤ length rows.now }
    ensures place { (row : Row) → take start rows.now ++ behind_deeper depth row (drop start rows.now) ≡ insert rows.now result row }
{
    for place in start..rows.len() {
        if rows[place].depth <= depth {
            return place;
        }
    }
    rows.len()
}

/// Puts a node at the end, as a root.
fn put_root(rows: &mut Vec<TreeRow>, number: usize) -> Result<(), NoMemory>
    ensures { OnOk result (rows.new.items ≡ rows.old.items ++ record { number = number; depth = 0 } ∷ []) }
{
    rows.push(TreeRow { number, depth: 0 })?;
    Ok(())
}

/// Puts a node below the one at a place, as its last.
fn put_behind(rows: &mut Vec<TreeRow>, number: usize, place: usize) -> Result<(), NoMemory>
    requires place { place < length rows.old.items }
    requires depths { AllByRecursion (λ row. row.depth + 1 < 2 ^ 64) rows.old.items }
    ensures { OnOk result ((above : Row) → above ≡ slice_index_or rows.old.items place above
        → rows.new.items ≡ take (place + 1) rows.old.items
        ++ behind_deeper above.depth (record { number = number; depth = above.depth + 1 }) (drop (place + 1) rows.old.items)) }
{
    let depth = rows[place].depth;
    let end = end_of_deeper(rows, place + 1, depth);
    let row = TreeRow {
        number,
        depth: depth + 1,
    };
    rows.insert(end, row)?;
    Ok(())
}

/// Puts a node below another, where this stands in the tree, else at the end, as a root.
fn put_below(rows: &mut Vec<TreeRow>, number: usize, parent: usize) -> Result<(), NoMemory>
    requires { AllByRecursion (λ row. row.depth + 1 < 2 ^ 64) rows.old.items }
    ensures { OnOk result (rows.new.items ≡ below_parent number parent rows.old.items) }
{
    match row_place(rows, parent) {
        None => {
            put_root(rows, number)?;
            Ok(())
        }
        Some(place) => {
            put_behind(rows, number, place)?;
            Ok(())
        }
    }
}

/// Puts a node into the tree.
fn put(rows: &mut Vec<TreeRow>, number: usize, parent: Option<u32>) -> Result<(), NoMemory>
    requires { AllByRecursion (λ row. row.depth + 1 < 2 ^ 64) rows.old.items }
    ensures { OnOk result (rows.new.items ≡ with_parent parent number rows.old.items) }
{
    match parent {
        None => put_root(rows, number),
        Some(parent) => put_below(rows, number, parent as usize),
    }
}

/// Puts a node into the tree, if it was true.
fn put_true(rows: &mut Vec<TreeRow>, number: usize, part: &NodePart) -> Result<(), NoMemory>
    requires { AllByRecursion (λ row. row.depth + 1 < 2 ^ 64) rows.old.items }
    ensures { OnOk result (rows.new.items ≡ with_true_node number part.now rows.old.items) }
{
    if !was_true(part) {
        return Ok(());
    }
    put(rows, number, part.node.parent)
}

/// Returns the tree of what was true: each node below the node that it refines.
///
/// # Errors
///
/// `NoMemory` where memory runs out.
pub fn truth_tree(alloc: Global, parts: &[NodePart]) -> Result<Vec<TreeRow>, NoMemory>
    ensures { IfOk result (λ rows. rows.items ≡ truth_tree parts.now) }
{
    let mut rows = Vec::new(alloc);
    for (number, part) in parts.iter().enumerate() {
        put_true(&mut rows, number, part)?;
    }
    Ok(rows)
}
