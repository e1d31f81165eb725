//! The known costs of the plans of nodes that wait.

ghost use Rattle.std.specs.Prelude.{◌≡◌, ◌<◌, IfSome, OnOk, [], length, true};
ghost use Rattle.session_spec.specs.Inputs.{Inputs};
ghost use Rattle.session.specs.KnownCosts.{AreKnown, IsCost};

use pn_types::{Focus, NoMemory};
use std::alloc::Global;
use std::marker::Model;

/// What the plan of a metric at a focus costs.
#[derive(Clone, Copy, Drop)]
pub(crate) struct KnownCost {
    pub(crate) metric: u32,
    pub(crate) focus: Focus,
    // The predicted cost, in words.
    pub(crate) words: u64,
}

/// What the plans of nodes cost, by the nodes' numbers, where that is known. Contracts see a list.
#[derive(Drop)]
pub(crate) struct KnownCosts {
    entries: Vec<Option<KnownCost>>,
}

impl Model for KnownCosts {
    ghost use Rattle.std.specs.Prelude.{List, Option};
    ghost use Rattle.session.specs.declared.known_costs.KnownCost.{KnownCost};

    ghost Value = { List (Option KnownCost) };

    ghost view = { λ costs. costs.entries.items };
}

/// Returns whether two foci are the same.
fn is_same(a: &Focus, b: &Focus) -> bool
    ensures { result ≡ true → a.now ≡ b.now }
{
    a == b
}

impl KnownCosts {
    /// Makes a list in which no cost is known.
    pub(crate) fn new(alloc: Global) -> KnownCosts
        ensures { result ≡ [] }
    {
        KnownCosts {
            entries: Vec::new(alloc),
        }
    }

    /// Returns what the plan of this pair costs, if that is known for this node.
    pub(crate) fn words(&self, node: u32, metric: u32, focus: &Focus) -> Option<u64>
        ensures { (i : Inputs) → AreKnown i self.now → IfSome result (IsCost i metric focus.now) }
    {
        let cost = (*self.entries.get(node as usize)?)?;
        if cost.metric == metric && is_same(&cost.focus, focus) {
            return Some(cost.words);
        }
        None
    }

    /// Makes a place for the node of this number.
    ///
    /// # Errors
    ///
    /// `NoMemory` where memory runs out.
    fn make_place(&mut self, node: u32) -> Result<(), NoMemory>
        ensures known { (i : Inputs) → AreKnown i self.old → AreKnown i self.new }
        ensures place { OnOk result (node < length self.new) }
    {
        let place = node as usize;
        if place < self.entries.len() {
            return Ok(());
        }
        self.entries.resize(place + 1, None)
    }

    /// Notes what the plan of a node's pair costs.
    ///
    /// # Errors
    ///
    /// `NoMemory` where memory runs out.
    pub(crate) fn note(&mut self, node: u32, cost: KnownCost) -> Result<(), NoMemory>
        ensures { (i : Inputs) → IsCost i cost.metric cost.focus cost.words → AreKnown i self.old → AreKnown i self.new }
    {
        self.make_place(node)?;
        self.entries[node as usize] = Some(cost);
        Ok(())
    }
}
