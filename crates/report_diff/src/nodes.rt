//! Nodes of the searches: what came of them.

ghost use Rattle.std.specs.Prelude.{◌≡◌, ◌++◌, IfOk, OnOk, codes, bytes_eq, flat_map};
ghost use Rattle.std.specs.List.{count_by};
ghost use Rattle.report.specs.ShownTexts.{pair_text};
ghost use Rattle.report_diff.specs.Matches.{alone_text, both_text};
ghost use Rattle.report_diff.specs.Verdicts.{has_same_word, is_alone, is_same_state, lone_count_line, lone_nodes, lone_true_node, node_label, node_names, node_word, nodes_diff, same_states_line, state_change, state_changes, state_word, states_section};

use crate::labels::{add_label, add_pair};
use crate::matches::{Match, matches_of};
use crate::pieces::{add_amount, add_only_in};
use pn_types::{NoMemory, Text};
use report::NodePart;
use report_view::was_true;
use std::alloc::Global;
use w3_search::NodeState;

/// Returns the first word of a report on a node.
fn node_word(part: &NodePart) -> &'static [u8]
    ensures { result.now ≡ node_word part.now }
{
    match part.node.state {
        NodeState::Waiting | NodeState::Active | NodeState::Unfinished(_) => b"waiting",
        NodeState::Confirmed => b"true",
        NodeState::Rejected => b"false",
        NodeState::Barred(_) => b"barred",
    }
}

/// Returns the name by which a node is matched.
fn node_name(alloc: Global, part: &NodePart) -> Result<Text, NoMemory>
    ensures { IfOk result (λ name. name ≡ part.now.phase ++ codes " " ++ pair_text part.now.hypothesis part.now.focus) }
{
    let mut name = Vec::from_slice(alloc, part.phase.bytes())?;
    name.extend_from_slice(b" ")?;
    add_pair(&mut name, &part.hypothesis, &part.focus)?;
    Ok(Text::from_vec(name))
}

/// Returns the names of nodes.
fn node_names(alloc: Global, parts: &[NodePart]) -> Result<Vec<Text>, NoMemory>
    ensures { IfOk result (λ names. names.items ≡ node_names parts.now) }
{
    let mut names = Vec::new(alloc);
    for part in parts {
        names.push(node_name(alloc, part)?)?;
    }
    Ok(names)
}

/// Adds the phase, the hypothesis and the focus of a node.
#[tactic(auto, unfolding(crate::specs::Verdicts::node_label))]
fn add_node_label(alloc: Global, out: &mut Vec<u8>, part: &NodePart) -> Result<(), NoMemory>
    ensures { OnOk result (out.new.items ≡ out.old.items ++ node_label part.now) }
{
    out.extend_from_slice(part.phase.bytes())?;
    out.extend_from_slice(b" ")?;
    add_label(alloc, out, &part.hypothesis, &part.focus)
}

/// Returns whether a report says the same of two nodes.
fn has_same_word(old: &NodePart, new: &NodePart) -> bool
    ensures { result ≡ has_same_word old.now new.now }
{
    node_word(old) == node_word(new)
}

/// Adds what came of a node, where that differs.
#[tactic(auto, unfolding(crate::specs::Verdicts::state_change))]
fn add_state_change(
    alloc: Global,
    out: &mut Vec<u8>,
    old: &NodePart,
    new: &NodePart,
) -> Result<(), NoMemory>
    ensures { OnOk result (out.new.items ≡ out.old.items ++ state_change old.now new.now) }
{
    if has_same_word(old, new) {
        return Ok(());
    }
    out.extend_from_slice(node_word(old))?;
    out.extend_from_slice(b" -> ")?;
    out.extend_from_slice(node_word(new))?;
    out.extend_from_slice(b": ")?;
    add_node_label(alloc, out, old)?;
    out.extend_from_slice(b"\n")
}

/// Adds what came of the node of a match, where it stands in both and that differs.
fn add_match_change(
    alloc: Global,
    out: &mut Vec<u8>,
    olds: &[NodePart],
    news: &[NodePart],
    found: &Match,
) -> Result<(), NoMemory>
    ensures { OnOk result (out.new.items ≡ out.old.items ++ both_text state_change olds.now news.now found.now) }
{
    let Some(old) = olds.get(found.place) else {
        return Ok(());
    };
    let Some(other) = found.other else {
        return Ok(());
    };
    match news.get(other) {
        Some(new) => add_state_change(alloc, out, old, new),
        None => Ok(()),
    }
}

/// Returns the lines of the nodes that stand in both and of which something else came.
fn state_changes(
    alloc: Global,
    olds: &[NodePart],
    news: &[NodePart],
    matches: &[Match],
) -> Result<Vec<u8>, NoMemory>
    ensures { IfOk result (λ lines. lines.items ≡ state_changes olds.now news.now matches.now) }
{
    let mut lines = Vec::new(alloc);
    for found in matches {
        add_match_change(alloc, &mut lines, olds, news, found)?;
    }
    Ok(lines)
}

/// Returns whether the node of a match stands in both with the same state.
fn is_same_state(olds: &[NodePart], news: &[NodePart], found: &Match) -> bool
    ensures { result ≡ is_same_state olds.now news.now found.now }
{
    let Some(old) = olds.get(found.place) else {
        return false;
    };
    let Some(other) = found.other else {
        return false;
    };
    match news.get(other) {
        Some(new) => has_same_word(old, new),
        None => false,
    }
}

/// Returns how many nodes stand in both with the same state.
fn count_same_states(olds: &[NodePart], news: &[NodePart], matches: &[Match]) -> usize
    ensures { result ≡ count_by (is_same_state olds.now news.now) matches.now }
{
    matches
        .iter()
        .filter(|found| is_same_state(olds, news, found))
        .count()
}

/// Adds how many nodes have the same state, where any have.
#[tactic(auto, unfolding(crate::specs::Verdicts::same_states_line))]
fn add_same_states(alloc: Global, out: &mut Vec<u8>, count: usize) -> Result<(), NoMemory>
    ensures { OnOk result (out.new.items ≡ out.old.items ++ same_states_line count) }
{
    if count == 0 {
        return Ok(());
    }
    out.extend_from_slice(b"same state: ")?;
    add_amount(alloc, out, count as u64, b"node\n", b"nodes\n")?;
    Ok(())
}

/// Returns how many matches have no other.
fn count_alone(matches: &[Match]) -> usize
    ensures { result ≡ count_by is_alone matches.now }
{
    matches.iter().filter(|found| found.other.is_none()).count()
}

/// Adds how many nodes stand in one report alone, where any do.
#[tactic(auto, unfolding(crate::specs::Verdicts::lone_count_line))]
fn add_lone_count(
    alloc: Global,
    out: &mut Vec<u8>,
    report: &[u8],
    count: usize,
) -> Result<(), NoMemory>
    ensures { OnOk result (out.new.items ≡ out.old.items ++ lone_count_line report.now count) }
{
    if count == 0 {
        return Ok(());
    }
    add_only_in(out, report)?;
    add_amount(alloc, out, count as u64, b"node", b"nodes")?;
    out.extend_from_slice(b"\n")
}

/// Adds a node that stands in one report alone, if it is true.
#[tactic(auto, unfolding(crate::specs::Verdicts::lone_true_node))]
fn add_lone_true(
    alloc: Global,
    out: &mut Vec<u8>,
    report: &[u8],
    part: &NodePart,
) -> Result<(), NoMemory>
    ensures { OnOk result (out.new.items ≡ out.old.items ++ lone_true_node report.now part.now) }
{
    if !was_true(part) {
        return Ok(());
    }
    add_only_in(out, report)?;
    out.extend_from_slice(b"true ")?;
    add_node_label(alloc, out, part)?;
    out.extend_from_slice(b"\n")
}

/// Adds the node of a match, where it has no other and is true.
fn add_if_alone(
    alloc: Global,
    out: &mut Vec<u8>,
    report: &[u8],
    parts: &[NodePart],
    found: &Match,
) -> Result<(), NoMemory>
    ensures { OnOk result (out.new.items ≡ out.old.items ++ alone_text (lone_true_node report.now) parts.now found.now) }
{
    if found.other.is_some() {
        return Ok(());
    }
    match parts.get(found.place) {
        Some(part) => add_lone_true(alloc, out, report, part),
        None => Ok(()),
    }
}

/// Adds the true nodes that stand in one report alone.
fn add_lone_true_nodes(
    alloc: Global,
    out: &mut Vec<u8>,
    report: &[u8],
    parts: &[NodePart],
    matches: &[Match],
) -> Result<(), NoMemory>
    ensures { OnOk result (out.new.items ≡ out.old.items ++ flat_map (alone_text (lone_true_node report.now) parts.now) matches.now) }
{
    for found in matches {
        add_if_alone(alloc, out, report, parts, found)?;
    }
    Ok(())
}

/// Returns the lines on the nodes that stand in one report alone.
#[tactic(auto, unfolding(crate::specs::Verdicts::lone_nodes))]
fn lone_nodes(
    alloc: Global,
    report: &[u8],
    parts: &[NodePart],
    matches: &[Match],
) -> Result<Vec<u8>, NoMemory>
    ensures { IfOk result (λ lines. lines.items ≡ lone_nodes report.now parts.now matches.now) }
{
    let mut lines = Vec::new(alloc);
    add_lone_count(alloc, &mut lines, report, count_alone(matches))?;
    add_lone_true_nodes(alloc, &mut lines, report, parts, matches)?;
    Ok(lines)
}

/// Adds changes, how many nodes have the same state, and lines on what stands in one report alone, unless nothing differs.
#[tactic(auto, unfolding(crate::specs::Verdicts::states_section))]
fn add_section(
    alloc: Global,
    out: &mut Vec<u8>,
    changes: &[u8],
    same: usize,
    gone: &[u8],
    added: &[u8],
) -> Result<(), NoMemory>
    ensures { OnOk result (out.new.items ≡ out.old.items ++ states_section changes.now same gone.now added.now) }
{
    if changes.is_empty() && gone.is_empty() && added.is_empty() {
        return Ok(());
    }
    out.extend_from_slice(changes)?;
    add_same_states(alloc, out, same)?;
    out.extend_from_slice(gone)?;
    out.extend_from_slice(added)
}

/// Adds what differs between the nodes of the searches.
///
/// # Errors
///
/// `NoMemory` where memory runs out.
#[tactic(auto, unfolding(crate::specs::Verdicts::nodes_diff))]
pub fn add_nodes_diff(
    alloc: Global,
    out: &mut Vec<u8>,
    olds: &[NodePart],
    news: &[NodePart],
) -> Result<(), NoMemory>
    ensures { OnOk result (out.new.items ≡ out.old.items ++ nodes_diff olds.now news.now) }
{
    let names = node_names(alloc, olds)?;
    let others = node_names(alloc, news)?;
    let matches = matches_of(alloc, &names, &others)?;
    let back = matches_of(alloc, &others, &names)?;
    let changes = state_changes(alloc, olds, news, &matches)?;
    let same = count_same_states(olds, news, &matches);
    let gone = lone_nodes(alloc, b"OLD", olds, &matches)?;
    let added = lone_nodes(alloc, b"NEW", news, &back)?;
    add_section(alloc, out, &changes, same, &gone, &added)
}
