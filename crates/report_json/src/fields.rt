//! What a report prints of a hart's end and of a node, field by field.

ghost use Rattle.std.specs.Prelude.{◌≡◌};
ghost use Rattle.report.specs.SearchTexts.{pick_of};
ghost use Rattle.report_json.specs.Fields.{bar_cause, of_verdict, seen_by, state_word, stop_code};

use pn_types::{BarCause, PickCause, StopText};
use w3_search::{Node, NodeState};

/// Returns the number in a hart's end: its status, or the address that it touched.
pub fn stop_code(stop: StopText) -> Option<u64>
    ensures { result ≡ stop_code stop }
{
    match stop {
        StopText::Exit(status) => Some(status as u64),
        StopText::Access(at) | StopText::TextAccess(at) => Some(at),
        StopText::Illegal
        | StopText::Break
        | StopText::Misaligned
        | StopText::FetchOutside
        | StopText::Budget
        | StopText::Cut => None,
    }
}

/// Returns what came of a node, in a word.
pub fn state_word(state: NodeState) -> &'static str
    ensures { result.now ≡ state_word state }
{
    match state {
        NodeState::Waiting | NodeState::Active | NodeState::Unfinished(_) => "waiting",
        NodeState::Confirmed => "true",
        NodeState::Rejected => "false",
        NodeState::Barred(_) => "barred",
    }
}

/// Returns how many samples a node has that waits, where it took so many.
pub fn seen_by(state: NodeState, taken: u32) -> Option<u64>
    ensures { result ≡ seen_by state taken }
{
    match state {
        NodeState::Waiting | NodeState::Active => Some(taken as u64),
        NodeState::Unfinished(seen) => Some(seen as u64),
        NodeState::Confirmed | NodeState::Rejected | NodeState::Barred(_) => None,
    }
}

/// Returns the number of the node that a node refines.
pub fn parent_of(node: &Node) -> Option<u64>
    ensures { result ≡ node.now.parent }
{
    match node.parent {
        Some(parent) => Some(parent as u64),
        None => None,
    }
}

/// Returns a number of a node, where it has a verdict.
pub fn of_verdict(state: NodeState, number: u64) -> Option<u64>
    ensures { result ≡ of_verdict state number }
{
    match state {
        NodeState::Confirmed | NodeState::Rejected => Some(number),
        NodeState::Waiting | NodeState::Active | NodeState::Barred(_) | NodeState::Unfinished(_) =>
            None,
    }
}

/// Returns the cause for which a pair would be refused too.
fn pick_of(cause: BarCause) -> PickCause
    ensures { result ≡ pick_of cause }
{
    match cause {
        BarCause::NoConstraint(axis) => PickCause::NoConstraint(axis),
        BarCause::TooManySites(sites) => PickCause::TooManySites(sites),
        BarCause::TooManyStmts(at) => PickCause::TooManyStmts(at),
        BarCause::OverCost(words) => PickCause::OverCost(words),
        BarCause::NoSlot(variables) => PickCause::NoSlot(variables),
        BarCause::NoRoom(words) => PickCause::NoRoom(words),
        BarCause::Unmovable(at) => PickCause::Unmovable(at),
    }
}

/// Returns why a node can't be tested.
pub fn bar_cause(state: NodeState) -> Option<PickCause>
    ensures { result ≡ bar_cause state }
{
    match state {
        NodeState::Barred(cause) => Some(pick_of(cause)),
        NodeState::Waiting
        | NodeState::Active
        | NodeState::Confirmed
        | NodeState::Rejected
        | NodeState::Unfinished(_) => None,
    }
}
