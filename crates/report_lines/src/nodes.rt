//! The lines of the search's nodes.

ghost use Rattle.std.specs.Prelude.{◌≡◌, IfOk};
ghost use Rattle.report_lines.specs.Lines.{node_in, node_of_line, plain_node, told_node, verdict_node, window_of_line};

use crate::causes::{bar_of, cause_at};
use crate::words::{parent_number, says, short_at, text_of};
use advice::{number_at, word_at};
use pn_types::{CodePart, Focus, NoMemory};
use report::NodePart;
use std::alloc::Global;
use w3_search::{Node, NodeState};

/// The whole program.
const WHOLE: Focus = Focus {
    code: CodePart::All,
    hart: None,
    object: None,
};

/// A node of which this is told.
fn told_node(
    parent: Option<u32>,
    state: NodeState,
    value: u64,
    ticks: u64,
    from: u64,
    to: u64,
) -> Node
    ensures { result ≡ told_node parent state value ticks from to }
{
    Node {
        phase: 0,
        parent,
        hypothesis: 0,
        focus: WHOLE,
        state,
        seen: 0,
        from,
        to,
        value,
        ticks,
    }
}

/// A node with a verdict.
fn verdict_node(state: NodeState, line: &[u8]) -> Node
    ensures { result ≡ verdict_node state line.now }
{
    told_node(
        parent_number(word_at(5, line)),
        state,
        number_at(10, line),
        number_at(12, line),
        number_at(14, line),
        number_at(16, line),
    )
}

/// A node without a verdict.
fn plain_node(state: NodeState, line: &[u8]) -> Node
    ensures { result ≡ plain_node state line.now }
{
    told_node(parent_number(word_at(5, line)), state, 0, 0, 0, 0)
}

fn node_in(line: &[u8]) -> Node
    ensures { result ≡ node_in line.now }
{
    if says(8, line, b"true") {
        verdict_node(NodeState::Confirmed, line)
    } else if says(8, line, b"false") {
        verdict_node(NodeState::Rejected, line)
    } else if says(8, line, b"barred") {
        plain_node(NodeState::Barred(bar_of(cause_at(9, line))), line)
    } else {
        plain_node(NodeState::Unfinished(short_at(10, line)), line)
    }
}

/// Returns the node that a line tells, which is without its LF. A node that waits is read as one that is unfinished. The
/// numbers of its phase and its hypothesis are 0 and its focus is the whole program, since the line tells their names
/// alone. What the line doesn't say is empty or 0.
///
/// # Errors
///
/// `NoMemory` where memory runs out.
pub fn node_of_line(alloc: Global, line: &[u8]) -> Result<NodePart, NoMemory>
    ensures { IfOk result (λ part. part ≡ node_of_line line.now) }
{
    Ok(NodePart {
        phase: text_of(alloc, word_at(3, line))?,
        hypothesis: text_of(alloc, word_at(6, line))?,
        focus: text_of(alloc, word_at(7, line))?,
        node: node_in(line),
    })
}

/// Returns the window that the line of a node tells: how many samples its test takes. None where the node has a verdict or
/// is barred.
pub fn window_of_line(line: &[u8]) -> Option<u32>
    ensures { result ≡ window_of_line line.now }
{
    if says(8, line, b"waiting") {
        Some(short_at(12, line))
    } else {
        None
    }
}
