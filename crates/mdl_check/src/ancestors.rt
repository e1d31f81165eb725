//! The parents of hypotheses.

ghost use Rattle.std.specs.Prelude.{◌≡◌, ◌||◌, IfOk, OnOk, false, length, map, replicate};
ghost use Rattle.std.specs.List.{list_any};
ghost use Rattle.mdl_check.specs.Rules.{parent_place, parents_of, parent_at, is_cyclic};
ghost use Rattle.mdl_check.specs.Ancestry.{AreClear, HaveChildren, IsAncestry, KeepsOthers, has, is_clear, noted};

use crate::index::Index;
use mdl_ast::Item;
use pn_types::NoMemory;
use std::alloc::Global;
use std::marker::Model;

/// The place of an item's parent.
fn parent_place(index: &Index<'_, '_>, item: &Item) -> Option<usize>
    ensures { result ≡ parent_place index.now item.now }
{
    let Item::Hypothesis(hypothesis) = item else {
        return None;
    };
    match &hypothesis.parent {
        Some(name) => index.hypothesis_place(name.bytes()),
        None => None,
    }
}

/// The places of all items' parents.
fn parents_of(alloc: Global, index: &Index<'_, '_>) -> Result<Vec<Option<usize>>, NoMemory>
    ensures { IfOk result (λ parents. parents.items ≡ parents_of index.now) }
{
    let mut parents = Vec::new(alloc);
    for entry in index.all() {
        parents.push(parent_place(index, entry.item()))?;
    }
    Ok(parents)
}

/// The place of the parent of the item at a place.
fn parent_at(parents: &[Option<usize>], place: usize) -> Option<usize>
    ensures { result ≡ parent_at parents.now place }
{
    match parents.get(place) {
        Some(parent) => *parent,
        None => None,
    }
}

/// Whether it is known that the item at this place isn't its own ancestor.
fn is_clear(clear: &[bool], place: usize) -> bool
    ensures { result ≡ is_clear clear.now place }
{
    clear.get(place).copied().unwrap_or(false)
}

/// Puts a child last among those of its parent, if there is such a place.
fn note(children: &mut Vec<Vec<usize>>, parent: Option<usize>, child: usize) -> Result<(), NoMemory>
    ensures { OnOk result (map (λ l. l.items) children.new.items ≡ noted parent child (map (λ l. l.items) children.old.items)) }
{
    if let Some(place) = parent
        && let Some(list) = children.get_mut(place)
    {
        list.push(child)?;
    }
    Ok(())
}

/// An empty list for each of `count` places.
fn empty_lists(alloc: Global, count: usize) -> Result<Vec<Vec<usize>>, NoMemory>
    ensures { IfOk result (λ lists. length lists.items ≡ count) }
{
    let mut lists = Vec::new(alloc);
    for _place in 0..count {
        lists.push(Vec::new(alloc))?;
    }
    Ok(lists)
}

/// By place the places of the items whose parent stands there.
fn children_of(alloc: Global, parents: &[Option<usize>]) -> Result<Vec<Vec<usize>>, NoMemory>
    ensures many { IfOk result (λ children. length children.items ≡ length parents.now) }
    ensures children { IfOk result (λ children. HaveChildren (length parents.now) parents.now (map (λ l. l.items) children.items)) }
{
    let mut children = empty_lists(alloc, parents.len())?;
    for place in 0..parents.len() {
        note(&mut children, parent_at(parents, place), place)?;
    }
    Ok(children)
}

/// Drops from the end the children that are clear.
fn drop_clear(children: &mut Vec<usize>, clear: &[bool])
    ensures { KeepsOthers clear.now children.old.items children.new.items }
{
    for _child in 0..children.len() {
        match children.last() {
            Some(child) if is_clear(clear, *child) => {}
            _ => return,
        }
        children.pop();
    }
}

/// Whether all children of the item at a place are clear, and it isn't known yet to be so: then it is clear too.
fn clears(
    parents: &[Option<usize>],
    children: &mut Vec<Vec<usize>>,
    clear: &mut Vec<bool>,
    place: usize,
) -> bool
    requires { IsAncestry parents.now (map (λ l. l.items) children.old.items) clear.old.items }
    ensures { IsAncestry parents.now (map (λ l. l.items) children.new.items) clear.new.items }
{
    // The clauses speak of it, and what no line reads isn't known to the prover.
    let _parents = parents;
    if is_clear(clear.as_slice(), place) {
        return false;
    }
    let Some(list) = children.get_mut(place) else {
        return false;
    };
    drop_clear(list, clear.as_slice());
    if !list.is_empty() {
        return false;
    }
    if let Some(known) = clear.get_mut(place) {
        *known = true;
    }
    true
}

/// Clears the item at a place and its ancestors, as far as all their children are clear.
fn climb(
    parents: &[Option<usize>],
    children: &mut Vec<Vec<usize>>,
    clear: &mut Vec<bool>,
    start: usize,
)
    requires { IsAncestry parents.now (map (λ l. l.items) children.old.items) clear.old.items }
    ensures { IsAncestry parents.now (map (λ l. l.items) children.new.items) clear.new.items }
{
    let mut place = start;
    for _step in 0..parents.len() {
        if !clears(parents, children, clear, place) {
            return;
        }
        let Some(parent) = parent_at(parents, place) else {
            return;
        };
        place = parent;
    }
}

/// That nothing is known of `count` places.
fn none_clear(alloc: Global, count: usize) -> Result<Vec<bool>, NoMemory>
    ensures { IfOk result (λ clear. clear.items ≡ replicate count false) }
{
    let mut clear = Vec::new(alloc);
    for _place in 0..count {
        clear.push(false)?;
    }
    Ok(clear)
}

/// The places that are clear: the leaves, and then those whose children are. The others are their own ancestors. The cost is
/// linear, since each child is dropped once, and each item cleared once.
fn cleared(alloc: Global, parents: &[Option<usize>]) -> Result<Vec<bool>, NoMemory>
    ensures { IfOk result (λ clear. AreClear parents.now clear.items) }
{
    let mut children = children_of(alloc, parents)?;
    let mut clear = none_clear(alloc, parents.len())?;
    for place in 0..parents.len() {
        climb(parents, &mut children, &mut clear, place);
    }
    Ok(clear)
}

/// The places of all items' parents, and which items are known not to be their own ancestors.
#[derive(Drop)]
pub(crate) struct Ancestry {
    parents: Vec<Option<usize>>,
    clear: Vec<bool>,
}

impl Model for Ancestry {
    ghost use Rattle.std.specs.Prelude.{List, Option, ℕ};
    ghost use Rattle.mdl_check.specs.Ancestry.{AreClear};

    ghost Value = { List (Option ℕ) };

    ghost view = { λ a. a.parents.items };

    ghost invariant = { λ a. AreClear a.parents.items a.clear.items };
}

impl Ancestry {
    /// The parents of these items.
    pub(crate) fn of(alloc: Global, index: &Index<'_, '_>) -> Result<Ancestry, NoMemory>
        ensures { IfOk result (λ ancestry. ancestry ≡ parents_of index.now) }
    {
        let parents = parents_of(alloc, index)?;
        let clear = cleared(alloc, &parents)?;
        Ok(Ancestry { parents, clear })
    }

    /// Whether the item at this place is its own ancestor.
    pub(crate) fn is_cyclic(&self, place: usize) -> bool
        ensures { result ≡ is_cyclic self.now place }
    {
        !is_clear(&self.clear, place) && leads_back(&self.parents, place)
    }
}

/// Whether the item at this place is its own ancestor, looked for along its ancestors.
fn leads_back(parents: &[Option<usize>], place: usize) -> bool
    ensures { result ≡ is_cyclic parents.now place }
{
    let mut next = parent_at(parents, place);
    for _step in 0..parents.len() {
        let Some(ancestor) = next else {
            return false;
        };
        if ancestor == place {
            return true;
        }
        next = parent_at(parents, ancestor);
    }
    false
}
