//! How many nodes of a search came to what.

ghost use Rattle.std.specs.Prelude.{◌≡◌, ◌++◌, OnOk};
ghost use Rattle.std.specs.List.{count_by};
ghost use Rattle.report_view.specs.Searches.{barred_line, barred_lines, count_line, count_in_state, counts_lines, full_line, is_barred_state, is_false_state, is_waiting_state, bar_kind, state_lines, waiting_advice};
ghost use Rattle.report_view.specs.Trees.{was_true};

use crate::pieces::add_counted;
use crate::trees::was_true;
use pn_types::{BarCause, NoMemory};
use report::{NodePart, SearchPart};
use std::alloc::Global;
use w3_search::NodeState;

/// Returns whether a node was false.
fn is_false_state(state: NodeState) -> bool
    ensures { result ≡ is_false_state state }
{
    matches!(state, NodeState::Rejected)
}

/// Returns whether a node's test didn't end.
fn is_waiting_state(state: NodeState) -> bool
    ensures { result ≡ is_waiting_state state }
{
    matches!(
        state,
        NodeState::Waiting | NodeState::Active | NodeState::Unfinished(_)
    )
}

/// Returns the place of a cause among the causes, from 0 on.
fn bar_kind(cause: BarCause) -> u8
    ensures { result ≡ bar_kind cause }
{
    match cause {
        BarCause::NoConstraint(_) => 0,
        BarCause::TooManySites(_) => 1,
        BarCause::TooManyStmts(_) => 2,
        BarCause::OverCost(_) => 3,
        BarCause::NoSlot(_) => 4,
        BarCause::NoRoom(_) => 5,
        BarCause::Unmovable(_) => 6,
    }
}

/// Returns whether a node couldn't be tested, for this cause.
fn is_barred_state(kind: u8, state: NodeState) -> bool
    ensures { result ≡ is_barred_state kind state }
{
    match state {
        NodeState::Barred(cause) => bar_kind(cause) == kind,
        _ => false,
    }
}

/// Returns how many nodes were true.
fn count_true(parts: &[NodePart]) -> usize
    ensures { result ≡ count_by was_true parts.now }
{
    parts.iter().filter(|part| was_true(part)).count()
}

/// Returns how many nodes were false.
fn count_false(parts: &[NodePart]) -> usize
    ensures { result ≡ count_in_state is_false_state parts.now }
{
    parts
        .iter()
        .filter(|part| is_false_state(part.node.state))
        .count()
}

/// Returns how many nodes' tests didn't end.
fn count_waiting(parts: &[NodePart]) -> usize
    ensures { result ≡ count_in_state is_waiting_state parts.now }
{
    parts
        .iter()
        .filter(|part| is_waiting_state(part.node.state))
        .count()
}

/// Returns how many nodes couldn't be tested, for this cause.
fn count_barred(parts: &[NodePart], kind: u8) -> usize
    ensures { result ≡ count_in_state (is_barred_state kind) parts.now }
{
    parts
        .iter()
        .filter(|part| is_barred_state(kind, part.node.state))
        .count()
}

/// Adds a line on so many nodes, where there are any.
#[tactic(auto, unfolding(crate::specs::Searches::count_line))]
fn add_count(alloc: Global, out: &mut Vec<u8>, count: usize, what: &[u8]) -> Result<(), NoMemory>
    ensures { OnOk result (out.new.items ≡ out.old.items ++ count_line count what.now) }
{
    if count == 0 {
        return Ok(());
    }
    out.extend_from_slice(b"  ")?;
    add_counted(alloc, out, count as u64, b"node", b"nodes")?;
    out.extend_from_slice(b" ")?;
    out.extend_from_slice(what)?;
    out.extend_from_slice(b"\n")
}

/// Adds a line on the nodes that couldn't be tested, for this cause.
#[tactic(auto, unfolding(crate::specs::Searches::barred_line))]
fn add_barred(
    alloc: Global,
    out: &mut Vec<u8>,
    parts: &[NodePart],
    kind: u8,
    cause: &[u8],
) -> Result<(), NoMemory>
    ensures { OnOk result (out.new.items ≡ out.old.items ++ barred_line parts.now kind cause.now) }
{
    let mut what = Vec::from_slice(alloc, b"not tested: ")?;
    what.extend_from_slice(cause)?;
    add_count(alloc, out, count_barred(parts, kind), &what)
}

/// Adds lines on the nodes that couldn't be tested.
fn add_all_barred(alloc: Global, out: &mut Vec<u8>, parts: &[NodePart]) -> Result<(), NoMemory>
    ensures { OnOk result (out.new.items ≡ out.old.items ++ barred_lines parts.now) }
{
    add_barred(alloc, out, parts, 0, b"the metric can't be confined so")?;
    add_barred(alloc, out, parts, 1, b"too many places to instrument")?;
    add_barred(alloc, out, parts, 2, b"too many statements at one place")?;
    add_barred(alloc, out, parts, 3, b"the cost alone is above the limit")?;
    add_barred(alloc, out, parts, 4, b"no room for variables")?;
    add_barred(alloc, out, parts, 5, b"no room for instruments")?;
    add_barred(alloc, out, parts, 6, b"a word there can't be moved")?;
    Ok(())
}

/// Adds what to do where a quarter of the nodes or more waited to the end.
#[tactic(auto, unfolding(crate::specs::Searches::waiting_advice))]
fn add_waiting_advice(out: &mut Vec<u8>, waiting: usize, all: usize) -> Result<(), NoMemory>
    ensures { OnOk result (out.new.items ≡ out.old.items ++ waiting_advice waiting all) }
{
    if waiting > 0 && all as u128 <= waiting as u128 * 4 {
        out.extend_from_slice(
            b"  a smaller --width or window, a greater cost, or a longer run lets more of them end\n",
        )
    } else {
        Ok(())
    }
}

/// Adds whether there was no room for more nodes.
fn add_full(out: &mut Vec<u8>, full: bool) -> Result<(), NoMemory>
    ensures { OnOk result (out.new.items ≡ out.old.items ++ full_line full) }
{
    if full {
        out.extend_from_slice(b"  there was no room for more nodes\n")
    } else {
        Ok(())
    }
}

/// Adds how many nodes came to what.
#[tactic(auto, unfolding(crate::specs::Searches::state_lines))]
fn add_states(alloc: Global, out: &mut Vec<u8>, parts: &[NodePart]) -> Result<(), NoMemory>
    ensures { OnOk result (out.new.items ≡ out.old.items ++ state_lines parts.now) }
{
    let waiting = count_waiting(parts);
    add_count(alloc, out, count_true(parts), b"true")?;
    add_count(alloc, out, count_false(parts), b"false")?;
    add_all_barred(alloc, out, parts)?;
    add_count(alloc, out, waiting, b"not tested to the end")?;
    add_waiting_advice(out, waiting, parts.len())
}

/// Adds how many nodes there are, and how many came to what.
///
/// # Errors
///
/// `NoMemory` where memory runs out.
#[tactic(auto, unfolding(crate::specs::Searches::counts_lines))]
pub fn add_counts(alloc: Global, out: &mut Vec<u8>, part: &SearchPart) -> Result<(), NoMemory>
    ensures { OnOk result (out.new.items ≡ out.old.items ++ counts_lines part.now) }
{
    let nodes = part.nodes.as_slice();
    out.extend_from_slice(b"\nsearch of ")?;
    add_counted(alloc, out, nodes.len() as u64, b"node", b"nodes")?;
    out.extend_from_slice(b"\n")?;
    add_states(alloc, out, nodes)?;
    add_full(out, part.full)
}
