//! The items in their order, and their foci.

ghost use Rattle.std.specs.Prelude.{◌≡◌, ◌++◌, ◌∷◌, [], IfOk, OnOk, if◌then◌else◌};
ghost use Rattle.mdl_check.specs.Placed.{placed_item, line_of, is_hypothesis, is_taken, included, with_included, placed_items};
ghost use Rattle.mdl_check.specs.Checking.{HasFocus, AreEntries};

use crate::entry::{Entry, PlacedItem};
use mdl_ast::{Include, Item};
use pn_types::{Focus, NoMemory};
use resource_tree::Tree;
use std::alloc::Global;

/// The line of an item's first token.
fn line_of(item: &Item) -> u32
    ensures { result ≡ line_of item.now }
{
    match item {
        Item::Include(include) => include.line,
        Item::Sync(sync) => sync.line,
        Item::Metric(metric) => metric.line,
        Item::Constraint(constraint) => constraint.line,
        Item::Hypothesis(hypothesis) => hypothesis.line,
        Item::Search(search) => search.line,
        Item::Phase(phase) => phase.line,
        Item::Wish(wish) => wish.line,
    }
}

/// Whether an include takes the shipped item.
fn is_taken(metrics: bool, item: &Item) -> bool
    ensures { result ≡ is_taken metrics item.now }
{
    let hypothesis = matches!(item, Item::Hypothesis(_));
    if metrics { !hypothesis } else { hypothesis }
}

/// Adds the shipped item at this line, if the include takes it.
fn add_taken<'a>(
    placed_items: &mut Vec<PlacedItem<'a>>,
    include: Include,
    item: &'a Item,
) -> Result<(), NoMemory>
    ensures { OnOk result (placed_items.new.items ≡ (if is_taken include.metrics item.now
        then placed_items.old.items ++ (placed_item include.line item.now ∷ [])
        else placed_items.old.items)) }
{
    if is_taken(include.metrics, item) {
        placed_items.push(PlacedItem::new(include.line, item))?;
    }
    Ok(())
}

/// Adds the items that an include takes.
fn add_included<'a>(
    placed_items: &mut Vec<PlacedItem<'a>>,
    shipped: &'a [Item],
    include: Include,
) -> Result<(), NoMemory>
    ensures { OnOk result (placed_items.new.items ≡ placed_items.old.items ++ included shipped.now (Item.Include include)) }
{
    for item in shipped {
        add_taken(placed_items, include, item)?;
    }
    Ok(())
}

/// Adds an item, and after it those that it includes.
fn add_item<'a>(
    placed_items: &mut Vec<PlacedItem<'a>>,
    shipped: &'a [Item],
    item: &'a Item,
) -> Result<(), NoMemory>
    ensures { OnOk result (placed_items.new.items ≡ placed_items.old.items ++ with_included shipped.now item.now) }
{
    placed_items.push(PlacedItem::new(line_of(item), item))?;
    match item {
        Item::Include(include) => add_included(placed_items, shipped, *include),
        _ => Ok(()),
    }
}

/// All items in their order.
pub(crate) fn placed_items<'a>(
    alloc: Global,
    shipped: &'a [Item],
    items: &'a [Item],
) -> Result<Vec<PlacedItem<'a>>, NoMemory>
    ensures { IfOk result (λ all. all.items ≡ placed_items shipped.now items.now) }
{
    let mut all = Vec::new(alloc);
    for item in items {
        add_item(&mut all, shipped, item)?;
    }
    Ok(all)
}

/// The focus of a wish.
fn focus_of(tree: &Tree, item: &Item) -> Option<Focus>
    ensures { HasFocus tree.now item.now result }
{
    match item {
        Item::Wish(wish) => tree.selected(wish.focus.bytes()),
        _ => None,
    }
}

/// The items at these places, with their foci.
fn entries_at<'a>(
    alloc: Global,
    tree: &Tree,
    placed_items: &[PlacedItem<'a>],
) -> Result<Vec<Entry<'a>>, NoMemory>
    ensures { IfOk result (λ entries. AreEntries tree.now placed_items.now entries.items) }
{
    let mut entries = Vec::new(alloc);
    for placed in placed_items {
        entries.push(Entry::new(placed, focus_of(tree, placed.item())))?;
    }
    Ok(entries)
}

/// All items in their order, with their foci.
pub(crate) fn entries<'a>(
    alloc: Global,
    tree: &Tree,
    shipped: &'a [Item],
    items: &'a [Item],
) -> Result<Vec<Entry<'a>>, NoMemory>
    ensures { IfOk result (λ entries. AreEntries tree.now (placed_items shipped.now items.now) entries.items) }
{
    let places = placed_items(alloc, shipped, items)?;
    entries_at(alloc, tree, &places)
}
