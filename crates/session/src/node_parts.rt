//! What a report shows of a search.

ghost use Rattle.std.specs.Prelude.{◌≡◌, IfOk, map};
ghost use Rattle.session.specs.Parts.{hypothesis_name, node_part, phase_name, search_part};

use crate::inputs::Inputs;
use pn_types::{Focus, NoMemory, Seq, Text};
use report::{NodePart, SearchPart};
use std::alloc::Global;
use w3_search::{MAX_NODES, Node};

/// Returns the name of a phase.
fn phase_name(alloc: Global, inputs: &Inputs, phase: u32) -> Result<Text, NoMemory>
    ensures { IfOk result (λ name. name ≡ phase_name inputs.now.checked.phases phase) }
{
    if phase == 0 {
        return Ok(Text::from_vec(b"global".to_vec(alloc)?));
    }
    match inputs.checked.phases.as_slice().get(phase as usize - 1) {
        Some(phase) => phase.name.copy(alloc),
        None => Ok(Text::from_vec(Vec::new(alloc))),
    }
}

/// Returns the name of a hypothesis.
fn hypothesis_name(alloc: Global, inputs: &Inputs, hypothesis: u32) -> Result<Text, NoMemory>
    ensures { IfOk result (λ name. name ≡ hypothesis_name inputs.now hypothesis) }
{
    match inputs
        .checked
        .hypotheses
        .as_slice()
        .get(hypothesis as usize)
    {
        Some(hypothesis) => hypothesis.name.copy(alloc),
        None => Ok(Text::from_vec(Vec::new(alloc))),
    }
}

/// Returns a copy of a node.
fn copy(node: &Node) -> Node
    ensures { result ≡ node.now }
{
    Node {
        phase: node.phase,
        parent: node.parent,
        hypothesis: node.hypothesis,
        focus: Focus {
            code: node.focus.code,
            hart: node.focus.hart,
            object: node.focus.object,
        },
        state: node.state,
        seen: node.seen,
        from: node.from,
        to: node.to,
        value: node.value,
        ticks: node.ticks,
    }
}

/// Returns what a report shows of a node.
fn node_part(alloc: Global, inputs: &Inputs, node: &Node) -> Result<NodePart, NoMemory>
    ensures { IfOk result (λ part. part ≡ node_part inputs.now node.now) }
{
    Ok(NodePart {
        phase: phase_name(alloc, inputs, node.phase)?,
        hypothesis: hypothesis_name(alloc, inputs, node.hypothesis)?,
        focus: inputs.tree.focus_text(alloc, &node.focus)?,
        node: copy(node),
    })
}

/// Returns what a report shows of each node.
fn node_parts(alloc: Global, inputs: &Inputs, nodes: &[Node]) -> Result<Vec<NodePart>, NoMemory>
    ensures { IfOk result (λ parts. parts.items ≡ map (node_part inputs.now) nodes.now) }
{
    let mut parts = Vec::new(alloc);
    for node in nodes {
        parts.push(node_part(alloc, inputs, node)?)?;
    }
    Ok(parts)
}

/// Returns what a report shows of a search, if one is wanted.
pub(crate) fn search_part(
    alloc: Global,
    inputs: &Inputs,
    nodes: &[Node],
) -> Result<Option<SearchPart>, NoMemory>
    ensures { IfOk result (λ part. part ≡ search_part inputs.now inputs.now.checked.search nodes.now) }
{
    let Some(decl) = inputs.checked.search else {
        return Ok(None);
    };
    Ok(Some(SearchPart {
        full: nodes.len() >= MAX_NODES,
        window: decl.window,
        nodes: Seq::from_vec(node_parts(alloc, inputs, nodes)?),
    }))
}
