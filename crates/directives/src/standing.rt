//! The items of a configuration on which directives act.

ghost use Rattle.std.specs.Prelude.{◌≡◌, ◌++◌, List, ℕ, true, length, map, IfOk, OnOk};
ghost use Rattle.std.specs.List.{range_with_len};
ghost use Rattle.std.specs.Option.{option_map};
ghost use Rattle.first_places.specs.Numbers.{with_number};
ghost use Rattle.directives.specs.Hypotheses.{is_named, is_along, has_hypothesis, has_axis};
ghost use Rattle.directives.specs.Acts.{with_hypothesis, without_axis, with_threshold, with_first, pruned};
ghost use Rattle.directives.specs.Standing.{items_in_slots, under, is_child, first_at, HaveOwnNames};

use crate::change::{drop_axis, set_threshold};
use crate::hypotheses::{is_along, is_named};
use crate::name_places::NamePlaces;
use crate::taking::{take_item, take_items, take_under};
use mdl_ast::Item;
use pn_types::NoMemory;
use std::alloc::Global;
use std::marker::Model;

/// The items of a configuration while directives act on them. Contracts see those that still stand, in their order, the
/// hypotheses that were put before all others first.
pub(crate) struct Standing {
    // By place; none where a hypothesis was taken away.
    slots: Vec<Option<Item>>,
    // The places of the hypotheses, by their names and by those of their parents.
    named: NamePlaces,
    children: NamePlaces,
    // The places of the hypotheses that were put before all others, the last one last.
    moved: Vec<usize>,
}

impl Model for Standing {
    ghost use Rattle.std.specs.Prelude.{List};
    ghost use Rattle.mdl_ast.specs.declared.items.Item.{Item};
    ghost use Rattle.directives.specs.Standing.{standing, under, ArePlaces};

    ghost Value = { List Item };

    ghost view = { λ s. standing s.slots.items s.moved.items };

    ghost invariant = { λ s. ArePlaces s.slots.items (under s.named) (under s.children) };
}

// A function of its own, so that what drops it need not prove the drops of all its parts.
impl Drop for Standing {
    fn drop(self) {
        let Standing {
            slots: _,
            named: _,
            children: _,
            moved: _,
        } = self;
    }
}

/// Notes the place of an item under its name and under that of its parent, if it is a hypothesis.
fn note_item(
    alloc: Global,
    named: &mut NamePlaces,
    children: &mut NamePlaces,
    item: &Item,
    place: usize,
) -> Result<(), NoMemory>
    ensures named { OnOk result ((name : List ℕ)
        → under named.new name ≡ with_number (is_named name item.now) place (under named.old name)) }
    ensures children { OnOk result ((name : List ℕ)
        → under children.new name ≡ with_number (is_child name item.now) place (under children.old name)) }
{
    let Item::Hypothesis(hypothesis) = item else {
        return Ok(());
    };
    named.push(alloc, hypothesis.name.bytes(), place)?;
    if let Some(parent) = &hypothesis.parent {
        children.push(alloc, parent.bytes(), place)?;
    }
    Ok(())
}

/// What stands at the first of these places.
fn first_at<'a>(slots: &'a [Option<Item>], places: &[usize]) -> Option<&'a Item>
    ensures { option_map (λ item. item.now) result ≡ first_at slots.now places.now }
{
    let place = *places.first()?;
    if place >= slots.len() {
        return None;
    }
    slots[place].as_ref()
}

/// Takes all that still stand, in the order of their places, and puts them last.
fn take_all(slots: &mut [Option<Item>], out: &mut Vec<Item>) -> Result<(), NoMemory>
    ensures { OnOk result (out.new.items ≡ out.old.items ++ items_in_slots (range_with_len 0 (length slots.old)) slots.old) }
{
    for place in 0..slots.len() {
        take_item(slots, place, out)?;
    }
    Ok(())
}

impl Standing {
    /// All of these items.
    pub(crate) fn of(alloc: Global, items: Vec<Item>) -> Result<Standing, NoMemory>
        requires { HaveOwnNames items.items }
        ensures { IfOk result (λ standing. standing ≡ items.items) }
    {
        let mut named = NamePlaces::new(alloc);
        let mut children = NamePlaces::new(alloc);
        let mut slots = Vec::with_capacity(alloc, items.len())?;
        for item in items {
            note_item(alloc, &mut named, &mut children, &item, slots.len())?;
            slots.push(Some(item))?;
        }
        Ok(Standing {
            slots,
            named,
            children,
            moved: Vec::new(alloc),
        })
    }

    /// Whether a hypothesis of this name stands.
    pub(crate) fn stands(&self, name: &[u8]) -> bool
        ensures { result ≡ has_hypothesis name.now self.now }
    {
        match first_at(self.slots.as_slice(), self.named.under(name)) {
            Some(item) => is_named(name, item),
            None => false,
        }
    }

    /// Whether the hypothesis of this name is refined along this axis.
    pub(crate) fn has_axis(&self, name: &[u8], axis: &[u8]) -> bool
        ensures { result ≡ has_axis name.now axis.now self.now }
    {
        match first_at(self.slots.as_slice(), self.named.under(name)) {
            Some(item) => is_along(name, axis, item),
            None => false,
        }
    }

    /// Takes away the hypothesis of this name, and all that have it as an ancestor.
    pub(crate) fn prune(&mut self, alloc: Global, name: &[u8]) -> Result<(), NoMemory>
        requires { has_hypothesis name.now self.old ≡ true }
        ensures { OnOk result (self.new ≡ pruned name.now self.old) }
    {
        take_under(
            alloc,
            self.slots.as_mut_slice(),
            &self.named,
            &self.children,
            name,
        )
    }

    /// Takes the axis from those of the hypothesis of this name.
    pub(crate) fn drop_axis(
        &mut self,
        alloc: Global,
        name: &[u8],
        axis: &[u8],
    ) -> Result<(), NoMemory>
        ensures { OnOk result (self.new ≡ map (with_hypothesis name.now (without_axis axis.now)) self.old) }
    {
        let Some(place) = self.named.first(name) else {
            return Ok(());
        };
        drop_axis(alloc, self.slots.as_mut_slice(), place, name, axis)
    }

    /// Sets the threshold of the hypothesis of this name.
    pub(crate) fn set_threshold(&mut self, name: &[u8], threshold: u32)
        ensures { self.new ≡ map (with_hypothesis name.now (with_threshold threshold)) self.old }
    {
        if let Some(place) = self.named.first(name) {
            set_threshold(self.slots.as_mut_slice(), place, name, threshold);
        }
    }

    /// Puts the hypothesis of this name before all others.
    pub(crate) fn put_first(&mut self, name: &[u8]) -> Result<(), NoMemory>
        requires { has_hypothesis name.now self.old ≡ true }
        ensures { OnOk result (self.new ≡ with_first name.now self.old) }
    {
        if let Some(place) = self.named.first(name) {
            self.moved.push(place)?;
        }
        Ok(())
    }

    /// The items that stand.
    pub(crate) fn into_items(self, alloc: Global) -> Result<Vec<Item>, NoMemory>
        ensures { IfOk result (λ items. items.items ≡ self) }
    {
        let Standing {
            mut slots,
            mut moved,
            named: _,
            children: _,
        } = self;
        let mut items = Vec::new(alloc);
        moved.as_mut_slice().reverse();
        take_items(slots.as_mut_slice(), moved.as_slice(), &mut items)?;
        take_all(slots.as_mut_slice(), &mut items)?;
        Ok(items)
    }
}
