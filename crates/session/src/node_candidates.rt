//! Takes the memory that is needed to take nodes of the search.

ghost use Rattle.std.specs.Prelude.{◌≡◌, ◌+◌, ◌<◌, ◌^◌, List, Some, IfNone, IfOk, IfSome, IsTrue, drop, length, slice_get, take};
ghost use Rattle.std.specs.Option.{option_map};
ghost use Rattle.prim_code.specs.Counts.{predicted};
ghost use Rattle.w3_search.specs.declared.node.Node.{Node};
ghost use Rattle.session_spec.specs.Inputs.{Inputs};
ghost use Rattle.session_spec.specs.Searches.{metric_of, number_from, rules_of};
ghost use Rattle.session_spec.specs.Tests.{must_wait};
ghost use Rattle.session.specs.Candidates.{IsCandidate};
ghost use Rattle.session.specs.NodeCandidates.{AreNodeCandidates, AreWithout, IsNodeCandidate, IsNodeWithHarts, MustWait, numbers_in, queue_of};
ghost use Rattle.session.specs.KnownCosts.{AreKnown};
ghost use Rattle.session.specs.Given.{AreGiven};

use crate::candidate::{Candidate, prepare};
use crate::inputs::Inputs;
use crate::known_costs::{KnownCost, KnownCosts};
use crate::stored::StoredState;
use mdl_ast::{Hypothesis, Metric};
use pn_types::{NoMemory, Plan};
use prim_code::predicted;
use std::alloc::Global;
use std::collections::VecDeque;
use w3_search::{Node, Search};

/// How many nodes are taken at once, at most.
const TAKEN_AT_ONCE: usize = 64;

/// Returns the numbers of the nodes that are to be taken: the first of those that wait, and none where the observed cost is above
/// its limit.
fn queue<'a>(inputs: &Inputs, search: &'a Search, observed: u64) -> &'a [u32]
    ensures { result.now ≡ queue_of inputs.now observed search.now }
{
    let waiting = search.waiting();
    if u64::from(inputs.search_decl().observed) < observed {
        return &waiting[..0];
    }
    if waiting.len() <= TAKEN_AT_ONCE {
        return waiting;
    }
    &waiting[..TAKEN_AT_ONCE]
}

/// Returns the number of the first metric of this name; where none has it, the number after the last.
fn number_named(metrics: &[Metric], name: &[u8]) -> u32
    requires { length metrics.now < 2 ^ 32 }
    ensures { result ≡ number_from 0 name.now metrics.now }
{
    let mut number = 0;
    for metric in metrics {
        if name == metric.name.bytes() {
            return number;
        }
        number += 1;
    }
    number
}

/// Returns the hypothesis of a number, if there is one.
fn hypothesis(inputs: &Inputs, number: u32) -> Option<&Hypothesis>
    ensures { option_map (λ hypothesis. hypothesis.now) result ≡ slice_get inputs.now.checked.hypotheses number }
{
    inputs.checked.hypotheses.as_slice().get(number as usize)
}

/// Returns the number of the metric of a node's hypothesis.
#[tactic(auto, unfolding(session_spec::specs::Searches::metric_of))]
fn node_metric(inputs: &Inputs, node: &Node) -> u32
    requires { AreGiven inputs.now }
    ensures { result ≡ metric_of inputs.now node.now }
{
    let metrics = inputs.checked.metrics.as_slice();
    match hypothesis(inputs, node.hypothesis) {
        Some(hypothesis) => number_named(metrics, hypothesis.metric.bytes()),
        None => metrics.len() as u32,
    }
}

/// Returns whether a node whose plan has `words` words keeps waiting: they aren't above the limit, but are together with the costs
/// in force.
pub(crate) fn must_wait(limit: u64, words: u64, force: u64) -> bool
    requires { force + words < 2 ^ 64 }
    ensures { result ≡ must_wait limit words force }
{
    words <= limit && limit < force + words
}

/// Returns whether it is known of a node that it keeps waiting where the costs in force are these.
fn is_left(
    inputs: &Inputs,
    node: &Node,
    number: u32,
    metric: u32,
    force: u64,
    costs: &KnownCosts,
) -> bool
    requires force { force < 2 ^ 63 }
    requires known { AreKnown inputs.now costs.now }
    ensures { (nodes : List Node) → slice_get nodes number ≡ Some node.now
        → metric ≡ metric_of inputs.now node.now → IsTrue result → MustWait inputs.now nodes force number }
{
    match costs.words(number, metric, &node.focus) {
        Some(words) => must_wait(u64::from(inputs.search_decl().cost), words, force),
        None => false,
    }
}

/// Notes what the plan of a node's pair costs, if there is one.
///
/// # Errors
///
/// `NoMemory` where memory runs out.
fn note_cost(
    costs: &mut KnownCosts,
    number: u32,
    plan: &Plan,
    candidate: &Candidate,
) -> Result<(), NoMemory>
    requires { predicted plan.now < 2 ^ 32 }
    ensures { (i : Inputs) → IsCandidate i plan.now candidate.now → AreKnown i costs.old → AreKnown i costs.new }
{
    if candidate.fault.is_some() {
        return Ok(());
    }
    let cost = KnownCost {
        metric: candidate.metric,
        focus: candidate.focus,
        words: predicted(plan),
    };
    costs.note(number, cost)
}

/// Prepares what a node needs to be taken. None where it is known that it keeps waiting, `force` being the costs in force. What its
/// plan costs is known afterwards, if there is one.
///
/// # Errors
///
/// `NoMemory` where memory runs out.
fn prepare_node(
    alloc: Global,
    inputs: &Inputs,
    nodes: &[Node],
    number: u32,
    force: u64,
    costs: &mut KnownCosts,
) -> Result<Option<(Plan, Candidate)>, NoMemory>
    requires given { AreGiven inputs.now }
    requires node { IsNodeWithHarts inputs.now nodes.now number }
    requires force { force < 2 ^ 63 }
    requires known { AreKnown inputs.now costs.old }
    ensures none { IfOk result (λ made. IfNone made (MustWait inputs.now nodes.now force number)) }
    ensures node_candidate { IfOk result (λ made. IfSome made (λ made. IsNodeCandidate inputs.now nodes.now made.0 made.1)) }
    ensures number { IfOk result (λ made. IfSome made (λ made. made.1.node ≡ Some number)) }
    ensures known { AreKnown inputs.now costs.new }
{
    let node = &nodes[number as usize];
    let metric = node_metric(inputs, node);
    if is_left(inputs, node, number, metric, force, costs) {
        return Ok(None);
    }
    let (plan, candidate) = prepare(alloc, inputs, Some(number), metric, node.focus)?;
    note_cost(costs, number, &plan, &candidate)?;
    Ok(Some((plan, candidate)))
}

impl StoredState {
    /// Prepares what the nodes that are to be taken need, and appends their plans to others. It leaves out those of which it is
    /// known that they keep waiting where the costs in force are these.
    ///
    /// # Errors
    ///
    /// `NoMemory` where memory runs out.
    pub(crate) fn prepare_nodes(
        &self,
        alloc: Global,
        inputs: &Inputs,
        force: u64,
        costs: &mut KnownCosts,
        plans: &mut Vec<Plan>,
    ) -> Result<VecDeque<Candidate>, NoMemory>
        requires given { AreGiven inputs.now }
        requires rules { self.now.search.rules ≡ rules_of inputs.now }
        requires force { force < 2 ^ 63 }
        requires known { AreKnown inputs.now costs.old }
        ensures others { IfOk result (λ candidates. take (length plans.old.items) plans.new.items ≡ plans.old.items) }
        ensures each { IfOk result (λ candidates.
            AreNodeCandidates inputs.now self.now.search.nodes (drop (length plans.old.items) plans.new.items) candidates.items) }
        ensures queue { IfOk result (λ candidates. AreWithout inputs.now self.now.search.nodes force
            (queue_of inputs.now self.now.observed self.now.search) (numbers_in candidates.items)) }
        ensures known { AreKnown inputs.now costs.new }
    {
        let nodes = self.search.nodes();
        let mut candidates = VecDeque::new(alloc);
        for number in queue(inputs, &self.search, self.observed) {
            let made = prepare_node(alloc, inputs, nodes, *number, force, costs)?;
            let Some((plan, candidate)) = made else {
                continue;
            };
            plans.push(plan)?;
            candidates.push_back(candidate)?;
        }
        Ok(candidates)
    }
}
