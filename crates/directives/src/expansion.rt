//! The shipped hypotheses in the place of their include.

ghost use Rattle.std.specs.Prelude.{◌≡◌, ◌++◌, flat_map, IfOk, OnOk};
ghost use Rattle.directives.specs.Acts.{at_line, expansion, expanded};

use mdl_ast::Item;
use pn_types::NoMemory;
use std::alloc::Global;

/// Adds a copy of the shipped item at this line, if it is a hypothesis.
fn add_at_line(alloc: Global, items: &mut Vec<Item>, line: u32, item: &Item) -> Result<(), NoMemory>
    ensures { OnOk result (items.new.items ≡ items.old.items ++ at_line line item.now) }
{
    if let Item::Hypothesis(hypothesis) = item {
        let mut copy = hypothesis.copy(alloc)?;
        copy.line = line;
        items.push(Item::Hypothesis(copy))?;
    }
    Ok(())
}

/// Adds copies of the shipped hypotheses at this line.
fn add_shipped(
    alloc: Global,
    items: &mut Vec<Item>,
    line: u32,
    shipped: &[Item],
) -> Result<(), NoMemory>
    ensures { OnOk result (items.new.items ≡ items.old.items ++ flat_map (at_line line) shipped.now) }
{
    for item in shipped {
        add_at_line(alloc, items, line, item)?;
    }
    Ok(())
}

/// Adds copies of what an item stands for.
fn add_expansion(
    alloc: Global,
    items: &mut Vec<Item>,
    shipped: &[Item],
    item: &Item,
) -> Result<(), NoMemory>
    ensures { OnOk result (items.new.items ≡ items.old.items ++ expansion shipped.now item.now) }
{
    if let Item::Include(include) = item
        && !include.metrics
    {
        return add_shipped(alloc, items, include.line, shipped);
    }
    items.push(item.copy(alloc)?)?;
    Ok(())
}

/// Copies of the items, with the shipped hypotheses in the place of their include.
pub(crate) fn expanded(
    alloc: Global,
    shipped: &[Item],
    items: &[Item],
) -> Result<Vec<Item>, NoMemory>
    ensures { IfOk result (λ all. all.items ≡ expanded shipped.now items.now) }
{
    let mut all = Vec::new(alloc);
    for item in items {
        add_expansion(alloc, &mut all, shipped, item)?;
    }
    Ok(all)
}
