//! Changes of a list of nodes.

ghost use Rattle.std.specs.Prelude.{◌≡◌, ◌<◌, ◌≤◌, ◌+◌, ◌∷◌, ◌++◌, [], length, map, vec_len, vec_capacity};
ghost use Rattle.std.specs.List.{AllByRecursion};
ghost use Rattle.w3_search.specs.Nodes.{active_of, with_node_changed, node_at_end, in_state, new_node, waiting_of};
ghost use Rattle.w3_search.specs.Steps.{with_sample, with_samples};
ghost use Rattle.w3_search.specs.History.{AreFew};
ghost use Rattle.w3_search.specs.Index.{changed_each};

use crate::hypotheses::Hypotheses;
use crate::node::{Node, NodeSample, NodeState};
use pn_types::Focus;

/// Gives a node a sample, which ends at t, and the verdict that it brings, if there is such a node and it takes it.
fn add_sample(nodes: &mut [Node], hypotheses: &Hypotheses, window: u32, t: u64, sample: &NodeSample)
    requires few { AreFew window nodes.old }
    ensures nodes { nodes.new ≡ with_sample hypotheses.now window t sample.now nodes.old }
    ensures few { AreFew window nodes.new }
{
    if (sample.node as usize) < nodes.len() {
        let node = &mut nodes[sample.node as usize];
        node.take(hypotheses, window, t, sample);
    }
}

/// Gives nodes their samples, which end at t, and the verdicts that these bring.
pub(crate) fn add_samples(
    nodes: &mut [Node],
    hypotheses: &Hypotheses,
    window: u32,
    t: u64,
    samples: &[NodeSample],
)
    requires few { AreFew window nodes.old }
    ensures nodes { nodes.new ≡ with_samples hypotheses.now window t samples.now nodes.old }
    ensures few { AreFew window nodes.new }
{
    for sample in samples {
        add_sample(nodes, hypotheses, window, t, sample);
    }
}

/// Brings a node into another state.
pub(crate) fn set_state(nodes: &mut [Node], number: u32, state: NodeState)
    requires { number < length nodes.old }
    ensures { nodes.new ≡ with_node_changed (in_state state) number nodes.old }
{
    let node = &mut nodes[number as usize];
    node.state = state;
}

/// Ends those of the nodes of these numbers that wait or are under test.
fn end_each(nodes: &mut [Node], numbers: &[u32])
    requires { AllByRecursion (λ i. i < length nodes.old) numbers.now }
    ensures { nodes.new ≡ changed_each node_at_end numbers.now nodes.old }
{
    for number in numbers {
        let node = &mut nodes[*number as usize];
        node.end();
    }
}

/// Ends the nodes that wait or are under test.
pub(crate) fn end_open(nodes: &mut [Node], waiting: &[u32], active: &[u32])
    requires waits { waiting.now ≡ waiting_of nodes.old }
    requires under_test { active.now ≡ active_of nodes.old }
    ensures { nodes.new ≡ map node_at_end nodes.old }
{
    end_each(nodes, waiting);
    end_each(nodes, active);
}

/// Puts a node that waits after the others.
pub(crate) fn push_node(
    list: &mut Vec<Node>,
    phase: u32,
    parent: Option<u32>,
    hypothesis: u32,
    focus: &Focus,
)
    requires { vec_len list.old < vec_capacity list.old }
    ensures items { list.new.items ≡ list.old.items ++ new_node phase parent hypothesis focus.now ∷ [] }
    ensures capacity { vec_capacity list.old ≤ vec_capacity list.new }
{
    list.push(Node {
        phase,
        parent,
        hypothesis,
        focus: Focus {
            code: focus.code,
            hart: focus.hart,
            object: focus.object,
        },
        state: NodeState::Waiting,
        seen: 0,
        from: 0,
        to: 0,
        value: 0,
        ticks: 0,
    })
    .unwrap();
}
