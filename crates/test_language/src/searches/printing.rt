//! What is printed of a search.

use crate::searches::inputs::Inputs;
use pn_types::{CodePart, Focus};
use std::io;
use w3_search::{Node, NodeState, Search, child_node, holds};

/// The roots of all three hierarchies.
const ROOT: Focus = Focus {
    code: CodePart::All,
    hart: None,
    object: None,
};

/// The most nodes of which each one's state is printed.
const FEW: usize = 16;

/// Prints whether a hypothesis is true of a value and ticks.
pub(crate) fn print_test(
    rt: &impl Print,
    value: u64,
    ticks: u64,
    threshold: u32,
) -> io::Result<()> {
    let result = holds(value, ticks, threshold);
    println!(rt; "{result}")
}

/// Prints a child of a hypothesis at the roots.
pub(crate) fn print_child(
    rt: &impl Print,
    inputs: &Inputs,
    of: u32,
    number: u32,
) -> io::Result<()> {
    let child = child_node(of, &ROOT, number, &inputs.hypotheses, &inputs.tree);
    println!(rt; "{child:?}")
}

/// Prints the nodes from one number on below another.
pub(crate) fn print_nodes(
    rt: &impl Print,
    nodes: &[Node],
    from: usize,
    to: usize,
) -> io::Result<()> {
    for number in from..to.min(nodes.len()) {
        let node = &nodes[number];
        println!(rt; "{number} {node:?}")?;
    }
    Ok(())
}

/// Prints what came of each node, with how many samples it has.
fn print_each(rt: &impl Print, nodes: &[Node]) -> io::Result<()> {
    print!(rt; "nodes")?;
    for node in nodes {
        let state = node.state;
        let seen = node.seen;
        print!(rt; " {state:?} {seen}")?;
    }
    println!(rt; "")
}

/// Prints how many nodes there are, and of how many the test ended in each way.
fn print_counts(rt: &impl Print, nodes: &[Node]) -> io::Result<()> {
    let mut confirmed = 0u32;
    let mut rejected = 0u32;
    let mut barred = 0u32;
    let mut unfinished = 0u32;
    for node in nodes {
        match node.state {
            NodeState::Waiting | NodeState::Active => {}
            NodeState::Confirmed => confirmed = confirmed.saturating_add(1),
            NodeState::Rejected => rejected = rejected.saturating_add(1),
            NodeState::Barred(_) => barred = barred.saturating_add(1),
            NodeState::Unfinished(_) => unfinished = unfinished.saturating_add(1),
        }
    }
    let all = nodes.len();
    println!(rt;
        "nodes {all} confirmed {confirmed} rejected {rejected} barred {barred} unfinished {unfinished}"
    )
}

/// Prints the state of a search.
pub(crate) fn print_state(rt: &impl Print, search: &Search) -> io::Result<()> {
    let nodes = search.nodes();
    let waiting = search.waiting();
    let drops = search.drops();
    if nodes.len() > FEW {
        let waiting = waiting.len();
        println!(rt; "waiting {waiting} drops {drops:?}")?;
        print_counts(rt, nodes)
    } else {
        println!(rt; "waiting {waiting:?} drops {drops:?}")?;
        print_each(rt, nodes)
    }
}
