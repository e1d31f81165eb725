//! The nodes with their index: which places are taken, which nodes wait, and which are under test.

ghost use Rattle.std.specs.Prelude.{◌≡◌, ◌<◌, ◌≤◌, ◌+◌, ◌∷◌, ◌++◌, not, if◌then◌else◌, [], IfOk, length, map, vec_len, vec_capacity};
ghost use Rattle.std.specs.List.{list_any};
ghost use Rattle.indexmap.specs.IndexSet.{spare};
ghost use Rattle.w3_search.specs.declared.node.NodeState.TheVariants.{Active};
ghost use Rattle.w3_search.specs.Steps.{ended_tests, with_samples, Waits};
ghost use Rattle.w3_search.specs.History.{AreFew};
ghost use Rattle.w3_search.specs.Nodes.{active_of, with_node_changed, node_at_end, in_state, is_free, is_open, is_same_place, is_waiting, is_active, place_of, waiting_of, with_node};

use crate::hypotheses::Hypotheses;
use crate::limits::MAX_NODES;
use crate::node::{Node, NodeSample, NodeState};
use crate::numbers::{part_active, push_if, put_in, take_out};
use crate::place::NodePlace;
use crate::steps::{add_samples, end_open, push_node, set_state};
use indexmap::IndexSet;
use pn_types::{BarCause, Focus, NoMemory};
use std::alloc::Global;
use std::marker::Model;

/// The nodes in the order in which they were made, with room for all that may be. Contracts see the list of them.
pub(crate) struct Nodes {
    list: Vec<Node>,
    /// Where they stand, in their order.
    index: IndexSet<NodePlace>,
    /// The numbers of those that wait.
    waiting: Vec<u32>,
    /// The numbers of those that are under test.
    active: Vec<u32>,
    /// Room for the next such list.
    next_active: Vec<u32>,
}

impl Model for Nodes {
    ghost use Rattle.std.specs.Prelude.{List};
    ghost use Rattle.w3_search.specs.declared.node.Node.{Node as OneNode};
    ghost use Rattle.w3_search.specs.Index.{HasRoom, IsIndexed};

    ghost Value = { List OneNode };

    ghost view = { λ n. n.list.items };

    ghost invariant = { λ n. IsIndexed n.list.items n.index n.waiting.items n.active.items
        × HasRoom n.list n.waiting n.active n.next_active };
}

// A function of its own, so that what drops it need not prove the drops of all its parts.
impl Drop for Nodes {
    fn drop(self) {
        let Nodes {
            list: _,
            index: _,
            waiting: _,
            active: _,
            next_active: _,
        } = self;
    }
}

/// Whether a place is in the index.
fn is_taken(index: &IndexSet<NodePlace>, place: NodePlace) -> bool
    ensures { result ≡ list_any (is_same_place place) index.now.keys }
{
    index.contains(&place)
}

/// Puts a place into the index, and says whether it wasn't there.
fn take_place(index: &mut IndexSet<NodePlace>, place: NodePlace) -> bool
    requires { 0 < spare index.old }
    ensures new { result ≡ not (list_any (is_same_place place) index.old.keys) }
    ensures keys { index.new.keys ≡ (if result then index.old.keys ++ place ∷ [] else index.old.keys) }
    ensures room { spare index.old ≤ spare index.new + 1 }
{
    index.insert(place).unwrap()
}

/// Whether a node may be made at a place.
fn is_free(list: &[Node], index: &IndexSet<NodePlace>, place: NodePlace) -> bool
    requires { index.now.keys ≡ map place_of list.now }
    ensures { result ≡ is_free place list.now }
{
    list.len() < MAX_NODES && !is_taken(index, place)
}

impl Nodes {
    /// No nodes, and room for all.
    pub(crate) fn new(alloc: Global) -> Result<Nodes, NoMemory>
        ensures { IfOk result (λ nodes. nodes ≡ []) }
    {
        Ok(Nodes {
            list: Vec::with_capacity(alloc, MAX_NODES)?,
            index: IndexSet::with_capacity(alloc, MAX_NODES)?,
            waiting: Vec::with_capacity(alloc, MAX_NODES)?,
            active: Vec::with_capacity(alloc, MAX_NODES)?,
            next_active: Vec::with_capacity(alloc, MAX_NODES)?,
        })
    }

    /// The nodes.
    pub(crate) fn list(&self) -> &[Node]
        ensures list { result.now ≡ self.now }
        ensures few { length self.now ≤ MAX_NODES }
    {
        // A read field brings in the invariant, which bounds the nodes.
        let _few = &self.index;
        self.list.as_slice()
    }

    /// The numbers of the nodes that wait.
    pub(crate) fn waiting(&self) -> &[u32]
        ensures { result.now ≡ waiting_of self.now }
    {
        self.waiting.as_slice()
    }

    /// The numbers of the nodes that are under test.
    pub(crate) fn active(&self) -> &[u32]
        ensures { result.now ≡ active_of self.now }
    {
        self.active.as_slice()
    }

    /// Makes a node, unless one stands at its place or there are as many as there may be.
    pub(crate) fn add(&mut self, phase: u32, parent: Option<u32>, hypothesis: u32, focus: &Focus)
        ensures { self.new ≡ with_node phase parent hypothesis focus.now self.old }
    {
        let place = NodePlace::new(phase, hypothesis, focus);
        if !is_free(&self.list, &self.index, place) {
            return;
        }
        push_if(&mut self.waiting, true, self.list.len() as u32);
        push_node(&mut self.list, phase, parent, hypothesis, focus);
        take_place(&mut self.index, place);
    }

    /// Gives nodes their samples, which end at t, and the verdicts that these bring, and lists the nodes that are under
    /// test no more.
    pub(crate) fn add_samples(
        &mut self,
        hypotheses: &Hypotheses,
        window: u32,
        t: u64,
        samples: &[NodeSample],
        drops: &mut Vec<u32>,
    )
        requires few { AreFew window self.old }
        requires empty { drops.old.items ≡ [] }
        requires room { MAX_NODES ≤ vec_capacity drops.old }
        ensures nodes { self.new ≡ with_samples hypotheses.now window t samples.now self.old }
        ensures few { AreFew window self.new }
        ensures drops { drops.new.items ≡ ended_tests self.old self.new }
        ensures capacity { vec_capacity drops.old ≤ vec_capacity drops.new }
        ensures room { vec_len drops.new + length (active_of self.new) ≤ MAX_NODES }
    {
        add_samples(&mut self.list, hypotheses, window, t, samples);
        self.next_active.clear();
        part_active(&self.active, &self.list, &mut self.next_active, drops);
        std::mem::swap(&mut self.active, &mut self.next_active);
    }

    /// A node that waits is under test.
    pub(crate) fn admit(&mut self, number: u32)
        requires { Waits number self.old }
        ensures { self.new ≡ with_node_changed (in_state Active) number self.old }
    {
        set_state(&mut self.list, number, NodeState::Active);
        take_out(&mut self.waiting, number);
        put_in(&mut self.active, number);
    }

    /// A node that waits can't be tested.
    pub(crate) fn bar(&mut self, number: u32, cause: BarCause)
        requires { Waits number self.old }
        ensures { self.new ≡ with_node_changed (in_state (NodeState.Barred cause)) number self.old }
    {
        set_state(&mut self.list, number, NodeState::Barred(cause));
        take_out(&mut self.waiting, number);
    }

    /// Ends the nodes that wait or are under test.
    pub(crate) fn end_open(&mut self)
        ensures { self.new ≡ map node_at_end self.old }
    {
        end_open(&mut self.list, &self.waiting, &self.active);
        self.waiting.clear();
        self.active.clear();
    }
}
