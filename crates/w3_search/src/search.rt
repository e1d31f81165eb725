//! The search.

ghost use Rattle.std.specs.Prelude.{◌≡◌, ◌<◌, ◌≤◌, ◌^◌, IfOk, length};
ghost use Rattle.w3_search.specs.declared.node.NodeState.TheVariants.{Active, Barred};
ghost use Rattle.w3_search.specs.Nodes.{waiting_of};
ghost use Rattle.w3_search.specs.Steps as spec;
ghost use Rattle.w3_search.specs.History.{AreFew, AreHere, IsHistory};

use crate::node::{Node, NodeSample};
use crate::state::State;
use mdl_ast::{Hypothesis, PhaseDecl, SearchDecl};
use pn_types::{BarCause, NoMemory};
use resource_tree::Tree;
use std::alloc::Global;
use std::marker::Model;

/// A search. Contracts see what it goes by, its nodes, the phase that it is in, and its drops.
#[derive(Drop)]
pub struct Search {
    state: State,
}

impl Model for Search {
    ghost use Rattle.w3_search.specs.Steps.{SearchData};
    ghost use Rattle.w3_search.specs.History.{IsHistory};

    ghost Value = { SearchData };

    ghost view = { λ s. s.state };

    ghost invariant = { λ s. IsHistory s.state };
}

impl Search {
    /// Returns a search by these hypotheses, this declaration and these phases, over the foci of this tree. It keeps copies of them.
    /// It has the roots of the first phase, and takes all its room now: no other call takes memory.
    ///
    /// # Errors
    ///
    /// `NoMemory` where memory runs out.
    pub fn new(
        alloc: Global,
        hypotheses: &[Hypothesis],
        decl: &SearchDecl,
        phases: &[PhaseDecl],
        tree: &Tree,
    ) -> Result<Search, NoMemory>
        requires hypotheses { length hypotheses.now < 2 ^ 32 }
        requires window { 1 ≤ decl.now.window }
        requires phases { length phases.now < 2 ^ 32 }
        ensures { IfOk result (λ s. s ≡ spec.new_search
            (record { hypotheses = hypotheses.now; decl = decl.now; phases = phases.now; tree = tree.now })) }
    {
        let mut state = State::new(alloc, hypotheses, decl, phases, tree)?;
        state.add_roots();
        Ok(Search { state })
    }

    /// Does the due work of tick `t` with these samples, and returns how many instruments are to be dropped. A sample of a node
    /// that isn't under test, or of a number that no node has, is passed over, and so is one with which the node's ticks
    /// would pass 64 bits.
    pub fn on_sample(&mut self, t: u64, samples: &[NodeSample]) -> u32
        ensures state { self.new ≡ spec.search_step t samples.now self.old }
        ensures drops { result ≡ length self.new.drops }
    {
        self.state.step(t, samples);
        self.state.drops().len() as u32
    }

    /// Returns the nodes that the last due work ended while they were under test, whose instruments are to be dropped:
    /// those with a verdict first, then those that a phase ended, each by number.
    pub fn drops(&self) -> &[u32]
        ensures { result.now ≡ self.now.drops }
    {
        self.state.drops()
    }

    /// Returns the numbers of the nodes that wait, which are of the present phase.
    pub fn waiting(&self) -> &[u32]
        ensures waiting { result.now ≡ waiting_of self.now.nodes }
        ensures here { AreHere self.now.present self.now.nodes }
    {
        self.state.nodes().waiting()
    }

    /// A node that waited is under test.
    pub fn admitted(&mut self, node: u32)
        requires { spec.Waits node self.old.nodes }
        ensures { self.new ≡ spec.with_state node Active self.old }
    {
        self.state.admit(node);
    }

    /// A node that waited can't be tested.
    pub fn barred(&mut self, node: u32, cause: BarCause)
        requires { spec.Waits node self.old.nodes }
        ensures { self.new ≡ spec.with_state node (Barred cause) self.old }
    {
        self.state.bar(node, cause);
    }

    /// Ends the search: the nodes that wait or are under test are unfinished.
    pub fn finish(&mut self)
        ensures { self.new ≡ spec.with_end self.old }
    {
        self.state.end();
    }

    /// Returns the nodes in the order in which they were made, which are a history of the search whatever was called before.
    pub fn nodes(&self) -> &[Node]
        ensures nodes { result.now ≡ self.now.nodes }
        ensures history { IsHistory self.now }
        ensures few { AreFew self.now.rules.decl.window self.now.nodes }
    {
        let state = &self.state;
        state.nodes().list()
    }
}
