//! What is unknown or wrong.

ghost use Rattle.std.specs.Prelude.{◌≡◌, ◌&&◌, ◌||◌, not, is_some, codes};
ghost use Rattle.std.specs.List.{list_any, list_all};
ghost use Rattle.std.specs.Option.{option_map};
ghost use Rattle.std.specs.Str.{bytes_eq};
ghost use Rattle.mdl_check.specs.Names.{constraints_in, constraint_named};
ghost use Rattle.mdl_check.specs.Statements.{have};
ghost use Rattle.mdl_check.specs.declared.uses.Use.TheVariants as uses;
ghost use Rattle.mdl_check.specs.Rules.{own_variable, is_axis, is_orphan, is_metric_unknown, is_hypothesis_unknown, is_unknown, misuse, is_misused, has_bad_value, is_metric_wrong, is_constraint_wrong, is_wrong, is_astray};

use crate::before::Before;
use crate::index::Index;
use crate::uses::{Use, have};
use mdl_ast::{Constraint, Hypothesis, Item, Metric};
use pn_types::{Focus, Text};

/// A constraint's own variable: that of its name, and of a replacement `$metric`.
fn own_variable(constraint: &Constraint) -> Option<&[u8]>
    ensures { option_map (λ own. own.now) result ≡ own_variable constraint.now }
{
    if constraint.replace {
        None
    } else {
        Some(constraint.name.bytes())
    }
}

fn is_axis(name: &[u8]) -> bool
    ensures { result ≡ is_axis name.now }
{
    name == b"Code".as_slice() || name == b"Machine".as_slice() || name == b"SyncObject".as_slice()
}

fn are_axes(names: &[Text]) -> bool
    ensures { result ≡ list_all is_axis names.now }
{
    names.iter().all(|name| is_axis(name.bytes()))
}

/// Whether the name is none of a hypothesis.
fn is_orphan(index: &Index<'_, '_>, parent: &Option<Text>) -> bool
    ensures { result ≡ is_orphan index.now parent.now }
{
    match parent {
        Some(name) => !index.has_hypothesis(name.bytes()),
        None => false,
    }
}

fn has_unknown_constraint(index: &Index<'_, '_>, names: &[Text]) -> bool
    ensures { result ≡ list_any (λ name. not (is_some (constraint_named (constraints_in index.now) name))) names.now }
{
    names
        .iter()
        .any(|name| index.constraint_named(name.bytes()).is_none())
}

fn is_metric_unknown(index: &Index<'_, '_>, metric: &Metric) -> bool
    ensures { result ≡ is_metric_unknown index.now metric.now }
{
    has_unknown_constraint(index, metric.constraints.as_slice())
        || have(
            Use::OtherName,
            Some(metric.name.bytes()),
            metric.blocks.as_slice(),
        )
}

fn is_hypothesis_unknown(index: &Index<'_, '_>, hypothesis: &Hypothesis) -> bool
    ensures { result ≡ is_hypothesis_unknown index.now hypothesis.now }
{
    index.metric_number(hypothesis.metric.bytes()).is_none()
        || is_orphan(index, &hypothesis.parent)
        || !are_axes(hypothesis.axes.as_slice())
}

/// Whether the item names what doesn't stand in the configuration, or a variable that isn't its own.
pub(crate) fn is_unknown(index: &Index<'_, '_>, item: &Item) -> bool
    ensures { result ≡ is_unknown index.now item.now }
{
    match item {
        Item::Include(_) | Item::Sync(_) | Item::Search(_) | Item::Phase(_) => false,
        Item::Metric(metric) => is_metric_unknown(index, metric),
        Item::Constraint(constraint) => {
            let own = own_variable(constraint);
            have(Use::OtherName, own, constraint.blocks.as_slice())
        }
        Item::Hypothesis(hypothesis) => is_hypothesis_unknown(index, hypothesis),
        Item::Wish(wish) => index.metric_number(wish.metric.bytes()).is_none(),
    }
}

/// How a variable of the other kind is used.
fn misuse(timer: bool) -> Use
    ensures { result ≡ misuse timer }
{
    if timer { Use::AsCounter } else { Use::AsTimer }
}

/// Whether the constraint of this name is a replacement that uses `$metric` as one of the other kind.
fn is_misused(index: &Index<'_, '_>, timer: bool, name: &Text) -> bool
    ensures { result ≡ is_misused timer (constraint_named (constraints_in index.now) name.now) }
{
    match index.constraint_named(name.bytes()) {
        Some(constraint) => constraint.is_misused(timer),
        None => false,
    }
}

fn has_misused(index: &Index<'_, '_>, timer: bool, names: &[Text]) -> bool
    ensures { result ≡ list_any (λ name. is_misused timer (constraint_named (constraints_in index.now) name)) names.now }
{
    names.iter().any(|name| is_misused(index, timer, name))
}

fn is_metric_wrong(index: &Index<'_, '_>, metric: &Metric) -> bool
    ensures { result ≡ is_metric_wrong index.now metric.now }
{
    let blocks = metric.blocks.as_slice();
    have(misuse(metric.timer), Some(metric.name.bytes()), blocks)
        || has_misused(index, metric.timer, metric.constraints.as_slice())
        || have(Use::ObjectValue, None, blocks)
        || have(Use::HighArgument, None, blocks)
}

/// Whether the object's value is used and the constraint is none of an object.
fn has_bad_value(constraint: &Constraint) -> bool
    ensures { result ≡ has_bad_value constraint.now }
{
    constraint.path.bytes() != b"/SyncObject".as_slice()
        && have(Use::ObjectValue, None, constraint.blocks.as_slice())
}

fn is_constraint_path(path: &[u8]) -> bool
    ensures { result ≡ bytes_eq path.now (codes "/Code") || bytes_eq path.now (codes "/SyncObject") }
{
    path == b"/Code".as_slice() || path == b"/SyncObject".as_slice()
}

fn is_timed(constraint: &Constraint) -> bool
    ensures { result ≡ not constraint.now.replace && have uses.AsTimer (Some constraint.now.name) constraint.now.blocks }
{
    !constraint.replace
        && have(
            Use::AsTimer,
            Some(constraint.name.bytes()),
            constraint.blocks.as_slice(),
        )
}

fn is_constraint_wrong(constraint: &Constraint) -> bool
    ensures { result ≡ is_constraint_wrong constraint.now }
{
    !is_constraint_path(constraint.path.bytes())
        || is_timed(constraint)
        || has_bad_value(constraint)
        || have(Use::HighArgument, None, constraint.blocks.as_slice())
}

/// Whether what the item names can't be used so, or a number is out of its range.
pub(crate) fn is_wrong(index: &Index<'_, '_>, before: &Before<'_, '_, '_>, item: &Item) -> bool
    ensures { result ≡ is_wrong index.now before.now item.now }
{
    match item {
        Item::Include(_) | Item::Sync(_) | Item::Hypothesis(_) => false,
        Item::Metric(metric) => is_metric_wrong(index, metric),
        Item::Constraint(constraint) => is_constraint_wrong(constraint),
        Item::Search(search) => search.window == 0,
        Item::Phase(phase) => phase.at <= before.last_tick(),
        Item::Wish(wish) => wish.at == 0 && !wish.show,
    }
}

/// Whether the item is a wish whose focus selects nothing.
pub(crate) fn is_astray(item: &Item, focus: Option<Focus>) -> bool
    ensures { result ≡ is_astray item.now focus }
{
    match item {
        Item::Wish(_) => focus.is_none(),
        _ => false,
    }
}
