//! Hypotheses that are linked to their refinements.

ghost use Rattle.std.specs.Prelude.{◌≡◌, ◌<◌, ◌^◌, ℕ, List, IfOk, OnOk, length, map, slice_get};
ghost use Rattle.first_places.specs.Numbers.{numbers_under, with_number};
ghost use Rattle.w3_search.specs.Linked.{AreUnder};
ghost use Rattle.w3_search.specs.Refining.{axes_named, children, is_under, refinements, roots, threshold_of};

use crate::axis_set::AxisSet;
use first_places::add_number;
use indexmap::IndexMap;
use mdl_ast::Hypothesis;
use pn_types::{Focus, NoMemory};
use resource_tree::Tree;
use std::alloc::Global;
use std::marker::Model;

/// Hypotheses by number, each linked to those whose parent it is. Contracts see the list of them.
pub struct Hypotheses {
    list: Vec<Hypothesis>,
    /// The numbers of those without a parent.
    roots: Vec<u32>,
    /// The numbers of those with a parent, by its name.
    under: IndexMap<Vec<u8>, Vec<u32>>,
    /// The axes of each.
    axes: Vec<AxisSet>,
}

impl Model for Hypotheses {
    ghost use Rattle.std.specs.Prelude.{List};
    ghost use Rattle.mdl_ast.specs.declared.items.Hypothesis.{Hypothesis as OneHypothesis};
    ghost use Rattle.w3_search.specs.Linked.{IsLinked};

    ghost Value = { List OneHypothesis };

    ghost view = { λ h. h.list.items };

    ghost invariant = { λ h. IsLinked (λ key. key.items) (λ own. own.items) h.list.items h.roots.items h.under.entries h.axes.items };
}

// A function of its own, so that what drops it need not prove the drops of all its parts.
impl Drop for Hypotheses {
    fn drop(self) {
        let Hypotheses {
            list: _,
            roots: _,
            under: _,
            axes: _,
        } = self;
    }
}

/// Copies of hypotheses.
fn copies(alloc: Global, hypotheses: &[Hypothesis]) -> Result<Vec<Hypothesis>, NoMemory>
    ensures { IfOk result (λ copies. copies.items ≡ hypotheses.now) }
{
    let mut copies = Vec::new(alloc);
    for hypothesis in hypotheses {
        copies.push(hypothesis.copy(alloc)?)?;
    }
    Ok(copies)
}

/// The numbers of the hypotheses without a parent.
#[tactic(auto, unfolding(crate::specs::Refining::roots))]
fn roots(alloc: Global, hypotheses: &[Hypothesis]) -> Result<Vec<u32>, NoMemory>
    requires { length hypotheses.now < 2 ^ 32 }
    ensures { IfOk result (λ numbers. numbers.items ≡ roots hypotheses.now) }
{
    let mut numbers = Vec::new(alloc);
    for (number, hypothesis) in hypotheses.iter().enumerate() {
        if hypothesis.parent.is_none() {
            numbers.push(number as u32)?;
        }
    }
    Ok(numbers)
}

/// Notes the number of a hypothesis under its parent's name, if it has a parent.
fn add_under(
    alloc: Global,
    under: &mut IndexMap<Vec<u8>, Vec<u32>>,
    hypothesis: &Hypothesis,
    number: u32,
) -> Result<(), NoMemory>
    ensures { OnOk result ((name : List ℕ)
        → numbers_under (λ key. key.items) (λ own. own.items) name under.new.entries
        ≡ with_number (is_under name hypothesis.now) number
        (numbers_under (λ key. key.items) (λ own. own.items) name under.old.entries)) }
{
    if let Some(parent) = &hypothesis.parent {
        add_number(alloc, under, parent.bytes(), number)?;
    }
    Ok(())
}

/// The numbers of the hypotheses with a parent, by its name.
fn under(alloc: Global, hypotheses: &[Hypothesis]) -> Result<IndexMap<Vec<u8>, Vec<u32>>, NoMemory>
    requires { length hypotheses.now < 2 ^ 32 }
    ensures { IfOk result (λ under. AreUnder (λ key. key.items) (λ own. own.items) hypotheses.now under.entries) }
{
    let mut under = IndexMap::new(alloc);
    for (number, hypothesis) in hypotheses.iter().enumerate() {
        add_under(alloc, &mut under, hypothesis, number as u32)?;
    }
    Ok(under)
}

/// The axes of each hypothesis.
fn axes(alloc: Global, hypotheses: &[Hypothesis]) -> Result<Vec<AxisSet>, NoMemory>
    ensures { IfOk result (λ axes. axes.items ≡ map (λ h. axes_named h.axes) hypotheses.now) }
{
    let mut axes = Vec::new(alloc);
    for hypothesis in hypotheses {
        axes.push(AxisSet::named(hypothesis.axes.as_slice()))?;
    }
    Ok(axes)
}

impl Hypotheses {
    /// Returns copies of these hypotheses, with their links.
    ///
    /// # Errors
    ///
    /// `NoMemory` where memory runs out.
    pub fn new(alloc: Global, hypotheses: &[Hypothesis]) -> Result<Hypotheses, NoMemory>
        requires { length hypotheses.now < 2 ^ 32 }
        ensures { IfOk result (λ all. all ≡ hypotheses.now) }
    {
        Ok(Hypotheses {
            list: copies(alloc, hypotheses)?,
            roots: roots(alloc, hypotheses)?,
            under: under(alloc, hypotheses)?,
            axes: axes(alloc, hypotheses)?,
        })
    }

    /// Returns the numbers of the hypotheses without a parent.
    pub fn roots(&self) -> &[u32]
        ensures { result.now ≡ roots self.now }
    {
        self.roots.as_slice()
    }

    /// Returns the threshold of a hypothesis. It is 0 where there is no such hypothesis.
    pub fn threshold(&self, h: u32) -> u32
        ensures { result ≡ threshold_of self.now h }
    {
        match self.list.get(h as usize) {
            Some(own) => own.threshold,
            None => 0,
        }
    }

    /// The numbers of the hypotheses whose parent has this name.
    fn refinements(&self, name: &[u8]) -> &[u32]
        ensures { result.now ≡ refinements self.now name.now }
    {
        match self.under.get(name) {
            Some(numbers) => numbers.as_slice(),
            None => &[],
        }
    }

    /// Returns child number i, from 0, of hypothesis number h at a focus, as [`crate::child_node`] does, but found at once. None
    /// exactly where there are no more.
    #[tactic(auto, unfolding(crate::specs::Refining::children))]
    pub fn child(&self, h: u32, focus: &Focus, i: usize, tree: &Tree) -> Option<(u32, Focus)>
        ensures { result ≡ slice_get (children self.now tree.now h focus.now) i }
    {
        let own = self.list.get(h as usize)?;
        let axes = self.axes.get(h as usize)?;
        let under = self.refinements(own.name.bytes());
        if let Some(number) = under.get(i) {
            return Some((*number, *focus));
        }
        Some((h, axes.finer(tree, focus, i - under.len())?))
    }

    /// Returns how many children hypothesis number h has at a focus.
    #[tactic(auto, using(crate::proofs::Counting::count_children), unfolding(crate::specs::Refining::children))]
    pub fn child_count(&self, h: u32, focus: &Focus, tree: &Tree) -> usize
        ensures { result ≡ length (children self.now tree.now h focus.now) }
    {
        let Some(own) = self.list.get(h as usize) else {
            return 0;
        };
        let Some(axes) = self.axes.get(h as usize) else {
            return 0;
        };
        self.refinements(own.name.bytes()).len() + axes.finer_count(tree, focus)
    }
}
