//! The line that sums up a stress run.

ghost use Rattle.std.specs.Prelude.{◌≡◌, ◌++◌, ◌<◌, ◌^◌, IfOk, OnOk, sum_by};
ghost use Rattle.stress_run.specs.Summary.{count_of, is_barred, is_confirmed, is_rejected, is_waiting, nodes_of, nodes_text, summary_text};

use pn_types::NoMemory;
use report::{HartPart, NodePart, ReportParts, SearchPart};
use std::alloc::Global;
use w3_search::NodeState;

/// Returns the ticks of all harts together.
fn ticks(harts: &[HartPart]) -> u64
    requires { sum_by (λ part. part.ticks) harts.now < 2 ^ 64 }
    ensures { result ≡ sum_by (λ part. part.ticks) harts.now }
{
    harts.iter().map(|part| part.ticks).sum()
}

fn confirmed(nodes: &[NodePart]) -> usize
    ensures { result ≡ count_of is_confirmed nodes.now }
{
    nodes
        .iter()
        .filter(|part| matches!(part.node.state, NodeState::Confirmed))
        .count()
}

fn rejected(nodes: &[NodePart]) -> usize
    ensures { result ≡ count_of is_rejected nodes.now }
{
    nodes
        .iter()
        .filter(|part| matches!(part.node.state, NodeState::Rejected))
        .count()
}

fn barred(nodes: &[NodePart]) -> usize
    ensures { result ≡ count_of is_barred nodes.now }
{
    nodes
        .iter()
        .filter(|part| matches!(part.node.state, NodeState::Barred(_)))
        .count()
}

fn waiting(nodes: &[NodePart]) -> usize
    ensures { result ≡ count_of is_waiting nodes.now }
{
    nodes
        .iter()
        .filter(|part| {
            matches!(
                part.node.state,
                NodeState::Waiting | NodeState::Active | NodeState::Unfinished(_)
            )
        })
        .count()
}

/// Returns the nodes of a search, if there is one.
fn nodes(search: &Option<SearchPart>) -> &[NodePart]
    ensures { result.now ≡ nodes_of search.now }
{
    match search {
        Some(search) => search.nodes.as_slice(),
        None => &[],
    }
}

/// Appends how many nodes there are, and what came of them.
fn add_nodes(alloc: Global, out: &mut Vec<u8>, nodes: &[NodePart]) -> Result<(), NoMemory>
    ensures { OnOk result (out.new.items ≡ out.old.items ++ nodes_text nodes.now) }
{
    let count = nodes.len();
    let confirmed = confirmed(nodes);
    let rejected = rejected(nodes);
    let barred = barred(nodes);
    let waiting = waiting(nodes);
    let verdicts = format!(in alloc; " nodes {count} true {confirmed} false {rejected}")?;
    let others = format!(in alloc; " barred {barred} waiting {waiting}\n")?;
    out.extend_from_slice(verdicts.as_bytes())?;
    out.extend_from_slice(others.as_bytes())
}

/// Returns the line that sums up a stress run with `procs` procedures. The harts' ticks together are below 2^64.
///
/// # Errors
///
/// `NoMemory` where memory runs out.
pub fn summary_text(alloc: Global, procs: u32, parts: &ReportParts) -> Result<Vec<u8>, NoMemory>
    requires { sum_by (λ part. part.ticks) parts.now.harts < 2 ^ 64 }
    ensures { IfOk result (λ text. text.items ≡ summary_text procs parts.now) }
{
    let mut out = Vec::new(alloc);
    let ticks = ticks(parts.harts.as_slice());
    let samples = parts.samples;
    let start = format!(in alloc; "stress {procs} ticks {ticks} samples {samples}")?;
    out.extend_from_slice(start.as_bytes())?;
    add_nodes(alloc, &mut out, nodes(&parts.search))?;
    Ok(out)
}
