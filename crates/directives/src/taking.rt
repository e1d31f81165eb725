//! Items that are taken out of their places.

ghost use Rattle.std.specs.Prelude.{◌≡◌, ◌++◌, List, ℕ, true, option_to_list, OnOk};
ghost use Rattle.directives.specs.Standing.{under, slot, without, items_in_slots, items_left, IsLeftOf, children_of, ArePlaces, standing};
ghost use Rattle.directives.specs.Hypotheses.{has_hypothesis};
ghost use Rattle.directives.specs.Acts.{pruned};

use crate::name_places::NamePlaces;
use mdl_ast::Item;
use pn_types::NoMemory;
use std::alloc::Global;

/// Takes what stands at a place, if anything does.
fn take_slot(slots: &mut [Option<Item>], place: usize) -> Option<Item>
    ensures item { result ≡ slot slots.old place }
    ensures slots { slots.new ≡ without slots.old place }
{
    if place >= slots.len() {
        return None;
    }
    slots[place].take()
}

/// Takes what stands at a place, if anything does, and puts it last.
pub(crate) fn take_item(
    slots: &mut [Option<Item>],
    place: usize,
    out: &mut Vec<Item>,
) -> Result<(), NoMemory>
    ensures slots { slots.new ≡ without slots.old place }
    ensures out { OnOk result (out.new.items ≡ out.old.items ++ option_to_list (slot slots.old place)) }
{
    if let Some(item) = take_slot(slots, place) {
        out.push(item)?;
    }
    Ok(())
}

/// Takes what stands at the places, one after another, and puts it last.
pub(crate) fn take_items(
    slots: &mut [Option<Item>],
    places: &[usize],
    out: &mut Vec<Item>,
) -> Result<(), NoMemory>
    ensures left { IsLeftOf slots.old slots.new }
    ensures slots { OnOk result (slots.new ≡ items_left places.now slots.old) }
    ensures out { OnOk result (out.new.items ≡ out.old.items ++ items_in_slots places.now slots.old) }
{
    for &place in places {
        take_item(slots, place, out)?;
    }
    Ok(())
}

/// The places of the children of an item.
fn children_of<'a>(children: &'a NamePlaces, item: &Item) -> &'a [usize]
    ensures { result.now ≡ children_of (under children.now) item.now }
{
    match item {
        Item::Hypothesis(hypothesis) => children.under(hypothesis.name.bytes()),
        _ => &[],
    }
}

/// Takes away the hypothesis of this name, and all that have it as an ancestor: each once, and then its children.
pub(crate) fn take_under(
    alloc: Global,
    slots: &mut [Option<Item>],
    named: &NamePlaces,
    children: &NamePlaces,
    name: &[u8],
) -> Result<(), NoMemory>
    requires { ArePlaces slots.old (under named.now) (under children.now) }
    ensures left { IsLeftOf slots.old slots.new }
    ensures pruned { OnOk result ((moved : List ℕ) → has_hypothesis name.now (standing slots.old moved) ≡ true
        → standing slots.new moved ≡ pruned name.now (standing slots.old moved)) }
{
    let mut parents = Vec::new(alloc);
    take_items(slots, named.under(name), &mut parents)?;
    while let Some(parent) = parents.pop() {
        let taken = take_items(slots, children_of(children, &parent), &mut parents);
        // By a call, so that the loop need not prove the drops of all its parts.
        drop(parent);
        taken?;
    }
    Ok(())
}
