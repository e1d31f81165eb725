//! Steps of a search, each only where it may be taken.

ghost use Rattle.std.specs.Prelude.{IsTrue};
ghost use Rattle.w3_search.specs.Steps.{Waits};

use crate::searches::rows::{Row, Sample};
use pn_types::BarCause;
use w3_search::{Node, NodeSample, NodeState, Search};

/// Whether a node waits.
fn waits(nodes: &[Node], number: u32) -> bool
    ensures { IsTrue result → Waits number nodes.now }
{
    match nodes.get(number as usize) {
        Some(node) => matches!(node.state, NodeState::Waiting),
        None => false,
    }
}

/// Admits a node, if it waits.
fn admit(search: &mut Search, number: u32) -> bool {
    if !waits(search.nodes(), number) {
        return false;
    }
    search.admitted(number);
    true
}

/// Bars a node, if it waits.
fn bar(search: &mut Search, number: u32) -> bool {
    if !waits(search.nodes(), number) {
        return false;
    }
    search.barred(number, BarCause::TooManySites(5000));
    true
}

/// A due work at t with these samples, which can be taken at any time.
fn work(search: &mut Search, t: u64, samples: &[NodeSample]) -> bool {
    search.on_sample(t, samples);
    true
}

/// The sample of a row.
fn sample((node, from, value, ticks): Sample) -> NodeSample {
    NodeSample {
        node,
        from,
        value,
        ticks,
    }
}

/// Admits each of these nodes, and gives it a sample of this value from tick 0 to 100, if it waits.
fn test_each(search: &mut Search, from: u32, to: u32, value: u64) -> bool {
    for number in from..to {
        if !admit(search, number) || !work(search, 100, &[sample((number, 0, value, 100))]) {
            return false;
        }
    }
    true
}

/// Takes the step of a row, and says whether it could be taken.
pub(crate) fn take(search: &mut Search, row: &Row) -> bool {
    match *row {
        Row::Begin(_) => true,
        Row::Work(t) => work(search, t, &[]),
        Row::One(t, one) => work(search, t, &[sample(one)]),
        Row::Two(t, one, two) => work(search, t, &[sample(one), sample(two)]),
        Row::Admit(number) => admit(search, number),
        Row::Bar(number) => bar(search, number),
        Row::Each(from, to, value) => test_each(search, from, to, value),
        Row::End => {
            search.finish();
            true
        }
        Row::Holds(..) | Row::Child(..) | Row::Nodes(..) => false,
    }
}
