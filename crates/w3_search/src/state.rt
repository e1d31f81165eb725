//! The state of a search, and the parts of its step.

ghost use Rattle.std.specs.Prelude.{◌≡◌, ◌<◌, ◌≤◌, ◌+◌, ◌^◌, [], IfOk, drop, length};
ghost use Rattle.w3_search.specs.Refining.{children, roots};
ghost use Rattle.w3_search.specs.declared.node.NodeState.TheVariants.{Active, Barred};
ghost use Rattle.w3_search.specs.History.{AreFew, AreHere};
ghost use Rattle.w3_search.specs.Nodes.{active_of};
ghost use Rattle.w3_search.specs.States.{AreOf};
ghost use Rattle.w3_search.specs.Steps as spec;

use crate::hypotheses::Hypotheses;
use crate::limits::MAX_NODES;
use crate::node::NodeSample;
use crate::nodes::Nodes;
use crate::numbers::push_all;
use mdl_ast::{Hypothesis, PhaseDecl, SearchDecl};
use pn_types::{BarCause, CodePart, Focus, NoMemory};
use resource_tree::Tree;
use std::alloc::Global;
use std::marker::Model;

/// The roots of all three hierarchies.
const ROOT: Focus = Focus {
    code: CodePart::All,
    hart: None,
    object: None,
};

/// The state of a search, with its room. Contracts see what it goes by, its nodes, its phase and its drops.
pub(crate) struct State {
    hypotheses: Hypotheses,
    decl: SearchDecl,
    phases: Vec<PhaseDecl>,
    tree: Tree,
    nodes: Nodes,
    present: u32,
    drops: Vec<u32>,
}

impl Model for State {
    ghost use Rattle.w3_search.specs.Steps.{SearchData};
    ghost use Rattle.w3_search.specs.States.{IsState};

    ghost Value = { SearchData };

    ghost view = { λ s. record {
      rules = record { hypotheses = s.hypotheses; decl = s.decl; phases = s.phases.items; tree = s.tree };
      nodes = s.nodes;
      present = s.present;
      drops = s.drops.items;
    } };

    ghost invariant = { λ s. IsState s.decl.window s.phases.items s.nodes s.present s.drops };
}

// A function of its own, so that what drops it need not prove the drops of all its parts.
impl Drop for State {
    fn drop(self) {
        let State {
            hypotheses: _,
            decl: _,
            phases: _,
            tree: _,
            nodes: _,
            present: _,
            drops: _,
        } = self;
    }
}

/// Copies of phases.
fn copies(alloc: Global, phases: &[PhaseDecl]) -> Result<Vec<PhaseDecl>, NoMemory>
    ensures { IfOk result (λ copies. copies.items ≡ phases.now) }
{
    let mut copies = Vec::new(alloc);
    for phase in phases {
        copies.push(phase.copy(alloc)?)?;
    }
    Ok(copies)
}

/// Makes roots of a phase.
fn add_roots(nodes: &mut Nodes, phase: u32, roots: &[u32])
    ensures { nodes.new ≡ spec.with_roots phase roots.now nodes.old }
{
    for hypothesis in roots {
        nodes.add(phase, None, *hypothesis, &ROOT);
    }
}

/// Makes the children of a node of this phase, number, hypothesis and focus.
fn add_children(
    nodes: &mut Nodes,
    hypotheses: &Hypotheses,
    tree: &Tree,
    phase: u32,
    number: u32,
    hypothesis: u32,
    focus: &Focus,
)
    ensures { nodes.new ≡ spec.with_children phase number (children hypotheses.now tree.now hypothesis focus.now) nodes.old }
{
    let count = hypotheses.child_count(hypothesis, focus, tree);
    for i in 0..count {
        if let Some((child, below)) = hypotheses.child(hypothesis, focus, i, tree) {
            nodes.add(phase, Some(number), child, &below);
        }
    }
}

/// Makes the children of a node, if it is confirmed.
#[tactic(auto, unfolding(crate::specs::Steps::with_family))]
fn add_family(nodes: &mut Nodes, hypotheses: &Hypotheses, tree: &Tree, number: u32)
    ensures { nodes.new ≡ spec.with_family hypotheses.now tree.now number nodes.old }
{
    let Some(node) = nodes.list().get(number as usize) else {
        return;
    };
    if !node.state.is_confirmed() {
        return;
    }
    let phase = node.phase;
    let hypothesis = node.hypothesis;
    let focus = node.focus;
    add_children(nodes, hypotheses, tree, phase, number, hypothesis, &focus);
}

/// Makes the children of those of these nodes that are confirmed.
fn add_families(nodes: &mut Nodes, hypotheses: &Hypotheses, tree: &Tree, numbers: &[u32])
    ensures { nodes.new ≡ spec.with_families hypotheses.now tree.now numbers.now nodes.old }
{
    for number in numbers {
        add_family(nodes, hypotheses, tree, *number);
    }
}

impl State {
    /// The search before its first phase, with all its room.
    pub(crate) fn new(
        alloc: Global,
        hypotheses: &[Hypothesis],
        decl: &SearchDecl,
        phases: &[PhaseDecl],
        tree: &Tree,
    ) -> Result<State, NoMemory>
        requires hypotheses { length hypotheses.now < 2 ^ 32 }
        requires window { 1 ≤ decl.now.window }
        requires phases { length phases.now < 2 ^ 32 }
        ensures { IfOk result (λ s. s ≡ record {
          rules = record { hypotheses = hypotheses.now; decl = decl.now; phases = phases.now; tree = tree.now };
          nodes = [];
          present = 0;
          drops = [];
        }) }
    {
        Ok(State {
            hypotheses: Hypotheses::new(alloc, hypotheses)?,
            decl: *decl,
            phases: copies(alloc, phases)?,
            tree: tree.copy(alloc)?,
            nodes: Nodes::new(alloc)?,
            present: 0,
            drops: Vec::with_capacity(alloc, MAX_NODES)?,
        })
    }

    /// The nodes.
    pub(crate) fn nodes(&self) -> &Nodes
        ensures nodes { result.now ≡ self.now.nodes }
        ensures few { AreFew self.now.rules.decl.window self.now.nodes }
        ensures here { AreHere self.now.present self.now.nodes }
    {
        &self.nodes
    }

    /// The nodes whose instruments are to be dropped.
    pub(crate) fn drops(&self) -> &[u32]
        ensures { result.now ≡ self.now.drops }
    {
        self.drops.as_slice()
    }

    /// Makes the roots of the present phase.
    pub(crate) fn add_roots(&mut self)
        ensures { self.new ≡ record self.old { nodes = spec.with_roots self.old.present (roots self.old.rules.hypotheses) self.old.nodes } }
    {
        add_roots(&mut self.nodes, self.present, self.hypotheses.roots());
    }

    /// Takes samples, which end at t.
    fn add_samples(&mut self, t: u64, samples: &[NodeSample])
        ensures state { self.new ≡ spec.with_all_samples t samples.now self.old }
        ensures here { AreOf self.new.present self.new.drops self.new.nodes }
        ensures room { length self.new.drops + length (active_of self.new.nodes) ≤ MAX_NODES }
    {
        self.drops.clear();
        self.nodes.add_samples(
            &self.hypotheses,
            self.decl.window,
            t,
            samples,
            &mut self.drops,
        );
    }

    /// Makes the children of the nodes that were confirmed.
    fn add_families(&mut self)
        requires here { AreOf self.old.present self.old.drops self.old.nodes }
        requires room { length self.old.drops + length (active_of self.old.nodes) ≤ MAX_NODES }
        ensures state { self.new ≡ spec.with_all_families self.old }
        ensures room { length self.new.drops + length (active_of self.new.nodes) ≤ MAX_NODES }
    {
        add_families(&mut self.nodes, &self.hypotheses, &self.tree, &self.drops);
    }

    /// Whether the next phase is due at t.
    fn is_due(&self, t: u64) -> bool
        ensures { result ≡ spec.is_due t (drop self.now.present self.now.rules.phases) }
    {
        match self.phases.get(self.present as usize) {
            Some(phase) => phase.at as u64 <= t,
            None => false,
        }
    }

    /// Begins the next phase.
    fn begin_phase(&mut self)
        requires phase { self.old.present < length self.old.rules.phases }
        requires room { length self.old.drops + length (active_of self.old.nodes) ≤ MAX_NODES }
        ensures state { self.new ≡ spec.with_next_phase self.old }
        ensures room { length self.new.drops + length (active_of self.new.nodes) ≤ MAX_NODES }
    {
        push_all(&mut self.drops, self.nodes.active());
        self.nodes.end_open();
        self.present += 1;
        add_roots(&mut self.nodes, self.present, self.hypotheses.roots());
    }

    /// Begins those of the next phases that are due at t.
    fn begin_phases(&mut self, t: u64)
        requires room { length self.old.drops + length (active_of self.old.nodes) ≤ MAX_NODES }
        ensures state { self.new ≡ spec.with_all_phases t self.old }
        ensures room { length self.new.drops + length (active_of self.new.nodes) ≤ MAX_NODES }
    {
        while self.is_due(t) {
            self.begin_phase();
        }
    }

    /// A due work at t with these samples.
    #[tactic(auto, unfolding(crate::specs::Steps::search_step))]
    pub(crate) fn step(&mut self, t: u64, samples: &[NodeSample])
        ensures state { self.new ≡ spec.search_step t samples.now self.old }
        ensures few { length self.new.drops ≤ MAX_NODES }
    {
        self.add_samples(t, samples);
        self.add_families();
        self.begin_phases(t);
    }

    /// A node that waits is under test.
    pub(crate) fn admit(&mut self, number: u32)
        requires { spec.Waits number self.old.nodes }
        ensures { self.new ≡ spec.with_state number Active self.old }
    {
        self.nodes.admit(number);
    }

    /// A node that waits can't be tested.
    pub(crate) fn bar(&mut self, number: u32, cause: BarCause)
        requires { spec.Waits number self.old.nodes }
        ensures { self.new ≡ spec.with_state number (Barred cause) self.old }
    {
        self.nodes.bar(number, cause);
    }

    /// Ends the search.
    pub(crate) fn end(&mut self)
        ensures { self.new ≡ spec.with_end self.old }
    {
        self.nodes.end_open();
    }
}
