//! The check.

ghost use Rattle.std.specs.Prelude.{◌≡◌, ◌<◌, ◌^◌, ◌++◌, [], Ok, Err, IfOk, IfErr, OnOk, flat_map, length};
ghost use Rattle.std.specs.List.{AllByRecursion};
ghost use Rattle.mdl_ast.specs.Small.{HasSmall};
ghost use Rattle.mdl_check.specs.Sound.{CheckedIsSound, IsSoundCheck};
ghost use Rattle.mdl_check.specs.Placed.{placed_items};
ghost use Rattle.mdl_check.specs.Ancestors.{CyclicIsOwnAncestor};
ghost use Rattle.mdl_check.specs.Checking.{IsAnswer, OneAnswer, CheckRefuses, sync_of, prefixes_of};
ghost use Rattle.mdl_check.specs.Indexes.{AreIndexes};
ghost use Rattle.mdl_check.specs.Judged.{IsJudged};

use crate::checked::Checked;
use crate::collect::checked;
use crate::entry::{Entry, PlacedItem};
use crate::fault::CheckError;
use crate::index::{Index, Kept};
use crate::judge::find_fault;
use crate::places::{entries, placed_items};
use mdl_ast::{Conf, Item};
use pn_types::{NoMemory, Text};
use resource_tree::{Tree, one_reading};
use std::alloc::Global;

/// What is returned for these items, where nothing is kept of them yet.
fn judged_by<'a>(
    alloc: Global,
    all: &[Entry<'a>],
    kept: &mut Kept<'a>,
) -> Result<Checked, CheckError>
    requires few { length all.now < 2 ^ 32 }
    requires none { AreIndexes [] kept.old }
    ensures { IsJudged all.now result }
{
    kept.fill(alloc, all)?;
    let index = Index::new(all, kept);
    find_fault(alloc, &index)?;
    checked(alloc, &index)
}

/// What is returned for these items.
fn judged(alloc: Global, all: &[Entry<'_>]) -> Result<Checked, CheckError>
    requires { length all.now < 2 ^ 32 }
    ensures { IsJudged all.now result }
{
    let mut kept = Kept::none(alloc);
    judged_by(alloc, all, &mut kept)
}

/// Checks a configuration against the tree of a program's resources, where `include metrics` stands for the shipped
/// items that are no hypotheses, and `include hypotheses` for the others. An included item has the line of its include.
///
/// The items stand in the order of the text, those of an include after it. A name leads to the first item that has it. With those of
/// the includes there are fewer than 2^32 items.
///
/// # Errors
///
/// Out of memory, or the fault of the first faulty item, and of an item the first of these:
///
/// - `TwiceNamed`: a metric or constraint, a hypothesis, or a phase has the name of one before it, where `global` is a
///   phase; a second `search`; a repeated include; a metric with two constraints of one axis; a wish at tick 0 that
///   shows a metric at a focus at which one before it does so.
/// - `UnknownName`: a constraint, metric or parent that doesn't stand in the configuration; an axis that isn't one of
///   the three; a variable other than the metric's own, the counter constraint's own, or `$metric` in a replacement.
/// - `WrongKind`: a constraint of no axis; a counter that is started or stopped, or a timer that is used otherwise,
///   where that of `$metric` is a fault of each metric that takes the replacement; `$value` outside a constraint of
///   `/SyncObject`; `$arg` above 7; a window of 0; a phase whose tick isn't above that of the phase before it, or above
///   0; `at 0 drop`.
/// - `CyclicParent`: a hypothesis that is its own ancestor.
/// - `BadFocus`: a wish whose focus selects nothing in the tree.
pub fn check(alloc: Global, conf: &Conf, shipped: &Conf, tree: &Tree) -> Result<Checked, CheckError>
    requires { length (placed_items shipped.now.items conf.now.items) < 2 ^ 32 }
    ensures checked { IfOk result (λ checked. IsAnswer tree.now shipped.now.items conf.now.items (Ok checked)) }
    ensures fault { IfErr result (λ e. CheckRefuses e (λ fault. IsAnswer tree.now shipped.now.items conf.now.items (Err fault))) }
    // A number of 32 bits counts the metrics.
    ensures few { IfOk result (λ checked. length checked.metrics < 2 ^ 32) }
    // What is parsed or shipped has small statements.
    ensures sound { AllByRecursion HasSmall shipped.now.items → AllByRecursion HasSmall conf.now.items → IfOk result IsSoundCheck }
{
    let all = entries(alloc, tree, shipped.items.as_slice(), conf.items.as_slice())?;
    judged(alloc, &all)
}

/// The check of a configuration has one result.
pub fn one_answer()
    ensures { OneAnswer }
{
    one_reading();
}

/// What the check accepts is sound, where the numbers of its statements are small, as those of parsed and shipped items are.
pub fn checked_is_sound()
    ensures { CheckedIsSound }
{}

/// The check calls an item cyclic exactly if it is its own ancestor, however far above.
pub fn own_ancestors()
    ensures { CyclicIsOwnAncestor }
{}

fn add_prefix(alloc: Global, prefixes: &mut Vec<Text>, item: &Item) -> Result<(), NoMemory>
    ensures { OnOk result (prefixes.new.items ≡ prefixes.old.items ++ sync_of item.now) }
{
    if let Item::Sync(sync) = item {
        prefixes.push(sync.name.copy(alloc)?)?;
    }
    Ok(())
}

/// Adds the names of those of these items that are a `sync`.
fn add_prefixes(
    alloc: Global,
    prefixes: &mut Vec<Text>,
    places: &[PlacedItem<'_>],
) -> Result<(), NoMemory>
    ensures { OnOk result (prefixes.new.items ≡ prefixes.old.items ++ flat_map (λ place. sync_of place.item) places.now) }
{
    for place in places {
        add_prefix(alloc, prefixes, place.item())?;
    }
    Ok(())
}

/// Returns the names of the `sync` items in the order of the text, those of an include after it. Objects whose names begin with
/// one of these are synchronization objects, as locks.
///
/// # Errors
///
/// `NoMemory` where memory runs out.
pub fn prefixes(alloc: Global, conf: &Conf, shipped: &Conf) -> Result<Vec<Text>, NoMemory>
    ensures { IfOk result (λ prefixes. prefixes.items ≡ prefixes_of shipped.now.items conf.now.items) }
{
    let places = placed_items(alloc, shipped.items.as_slice(), conf.items.as_slice())?;
    let mut prefixes = Vec::new(alloc);
    add_prefixes(alloc, &mut prefixes, &places)?;
    Ok(prefixes)
}
