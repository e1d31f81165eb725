//! The lines of a search in a report.

ghost use Rattle.std.specs.Prelude.{◌≡◌, ◌++◌, if◌then◌else◌, codes, OnOk};
ghost use Rattle.pn_types.specs.Texts.{cause_text};
ghost use Rattle.report.specs.SearchTexts.{node_line, node_lines, nodes_line, origin_text, parent_text, pick_of, search_head, search_lines, state_text, verdict_text, waiting_text};

use crate::parts::{NodePart, SearchPart};
use crate::shown_lines::add_pair;
use pn_types::{BarCause, NoMemory, PickCause};
use std::alloc::Global;
use w3_search::{Node, NodeState};

/// How the first line ends.
fn head_end(full: bool) -> &'static str
    ensures { result.now ≡ (if full then codes " full\n" else codes "\n") }
{
    if full { " full\n" } else { "\n" }
}

/// Appends the first line: how many nodes there are, and whether no more could be made.
///
/// # Errors
///
/// `NoMemory` where memory runs out.
pub fn add_nodes_line(
    alloc: Global,
    out: &mut Vec<u8>,
    count: usize,
    full: bool,
) -> Result<(), NoMemory>
    ensures { OnOk result (out.new.items ≡ out.old.items ++ nodes_line count full) }
{
    let end = head_end(full);
    let line = format!(in alloc; "search nodes {count}{end}")?;
    out.extend_from_slice(line.as_bytes())
}

/// The first line of a search.
fn add_head(alloc: Global, out: &mut Vec<u8>, part: &SearchPart) -> Result<(), NoMemory>
    ensures { OnOk result (out.new.items ≡ out.old.items ++ search_head part.now) }
{
    add_nodes_line(alloc, out, part.nodes.as_slice().len(), part.full)
}

/// The number of a node's parent.
fn add_parent(alloc: Global, out: &mut Vec<u8>, parent: Option<u32>) -> Result<(), NoMemory>
    ensures { OnOk result (out.new.items ≡ out.old.items ++ parent_text parent) }
{
    match parent {
        None => out.extend_from_slice(b"none"),
        Some(parent) => {
            let text = format!(in alloc; "{parent}")?;
            out.extend_from_slice(text.as_bytes())
        }
    }
}

/// What the test of a node showed.
fn add_verdict(
    alloc: Global,
    out: &mut Vec<u8>,
    verdict: &[u8],
    node: &Node,
) -> Result<(), NoMemory>
    ensures { OnOk result (out.new.items ≡ out.old.items ++ verdict_text verdict.now node.now) }
{
    let value = node.value;
    let ticks = node.ticks;
    let from = node.from;
    let to = node.to;
    let rest = format!(in alloc; " value {value} ticks {ticks} from {from} to {to}")?;
    out.extend_from_slice(verdict)?;
    out.extend_from_slice(rest.as_bytes())
}

/// The cause for which a pair would be refused too.
fn pick_of(cause: BarCause) -> PickCause
    ensures { result ≡ pick_of cause }
{
    match cause {
        BarCause::NoConstraint(axis) => PickCause::NoConstraint(axis),
        BarCause::TooManySites(sites) => PickCause::TooManySites(sites),
        BarCause::TooManyStmts(at) => PickCause::TooManyStmts(at),
        BarCause::OverCost(words) => PickCause::OverCost(words),
        BarCause::NoSlot(variables) => PickCause::NoSlot(variables),
        BarCause::NoRoom(words) => PickCause::NoRoom(words),
        BarCause::Unmovable(at) => PickCause::Unmovable(at),
    }
}

/// Why a node couldn't be tested.
fn add_barred(alloc: Global, out: &mut Vec<u8>, cause: BarCause) -> Result<(), NoMemory>
    ensures { OnOk result (out.new.items ≡ out.old.items ++ (codes "barred " ++ cause_text (pick_of cause))) }
{
    let cause = pick_of(cause);
    let text = format!(in alloc; "barred {cause}")?;
    out.extend_from_slice(text.as_bytes())
}

/// How far the test of a node came that has no verdict.
fn add_waiting(alloc: Global, out: &mut Vec<u8>, seen: u32, window: u32) -> Result<(), NoMemory>
    ensures { OnOk result (out.new.items ≡ out.old.items ++ waiting_text seen window) }
{
    let text = format!(in alloc; "waiting seen {seen} of {window}")?;
    out.extend_from_slice(text.as_bytes())
}

/// What came of a node.
fn add_state(alloc: Global, out: &mut Vec<u8>, window: u32, node: &Node) -> Result<(), NoMemory>
    ensures { OnOk result (out.new.items ≡ out.old.items ++ state_text window node.now node.now.state) }
{
    match node.state {
        NodeState::Waiting | NodeState::Active => add_waiting(alloc, out, node.seen, window),
        NodeState::Confirmed => add_verdict(alloc, out, b"true", node),
        NodeState::Rejected => add_verdict(alloc, out, b"false", node),
        NodeState::Barred(cause) => add_barred(alloc, out, cause),
        NodeState::Unfinished(seen) => add_waiting(alloc, out, seen, window),
    }
}

/// A node's number, its phase, and the number of its parent.
fn add_origin(
    alloc: Global,
    out: &mut Vec<u8>,
    number: usize,
    part: &NodePart,
) -> Result<(), NoMemory>
    ensures { OnOk result (out.new.items ≡ out.old.items ++ origin_text number part.now) }
{
    let start = format!(in alloc; "node {number} phase ")?;
    out.extend_from_slice(start.as_bytes())?;
    out.extend_from_slice(part.phase.bytes())?;
    out.extend_from_slice(b" parent ")?;
    add_parent(alloc, out, part.node.parent)
}

/// Appends the line of a node.
///
/// # Errors
///
/// `NoMemory` where memory runs out.
pub fn add_node(
    alloc: Global,
    out: &mut Vec<u8>,
    window: u32,
    number: usize,
    part: &NodePart,
) -> Result<(), NoMemory>
    ensures { OnOk result (out.new.items ≡ out.old.items ++ node_line window number part.now) }
{
    add_origin(alloc, out, number, part)?;
    out.extend_from_slice(b" ")?;
    add_pair(out, &part.hypothesis, &part.focus)?;
    out.extend_from_slice(b" ")?;
    add_state(alloc, out, window, &part.node)?;
    out.extend_from_slice(b"\n")
}

/// The lines of all nodes.
fn add_nodes(
    alloc: Global,
    out: &mut Vec<u8>,
    window: u32,
    parts: &[NodePart],
) -> Result<(), NoMemory>
    ensures { OnOk result (out.new.items ≡ out.old.items ++ node_lines window 0 parts.now) }
{
    for (number, part) in parts.iter().enumerate() {
        add_node(alloc, out, window, number, part)?;
    }
    Ok(())
}

/// Appends the lines of the search.
///
/// # Errors
///
/// `NoMemory` where memory runs out.
pub fn add_search(alloc: Global, out: &mut Vec<u8>, part: &SearchPart) -> Result<(), NoMemory>
    ensures { OnOk result (out.new.items ≡ out.old.items ++ search_lines part.now) }
{
    add_head(alloc, out, part)?;
    add_nodes(alloc, out, part.window, part.nodes.as_slice())
}
