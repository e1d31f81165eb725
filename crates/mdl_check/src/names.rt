//! The names of items.

ghost use Rattle.std.specs.Prelude.{◌≡◌, ◌++◌, OnOk, option_to_list};
ghost use Rattle.std.specs.Option.{option_map};
ghost use Rattle.mdl_check.specs.Names.{variable_name, hypothesis_name, phase_name, is_named, metric_name, as_constraint};

use first_places::FirstPlaces;
use mdl_ast::{Constraint, Item};
use pn_types::NoMemory;
use std::alloc::Global;

/// The name of a metric or a constraint.
pub(crate) fn variable_name(item: &Item) -> Option<&[u8]>
    ensures { option_map (λ name. name.now) result ≡ variable_name item.now }
{
    match item {
        Item::Metric(metric) => Some(metric.name.bytes()),
        Item::Constraint(constraint) => Some(constraint.name.bytes()),
        _ => None,
    }
}

/// The name of a hypothesis.
pub(crate) fn hypothesis_name(item: &Item) -> Option<&[u8]>
    ensures { option_map (λ name. name.now) result ≡ hypothesis_name item.now }
{
    match item {
        Item::Hypothesis(hypothesis) => Some(hypothesis.name.bytes()),
        _ => None,
    }
}

/// The name of a phase.
pub(crate) fn phase_name(item: &Item) -> Option<&[u8]>
    ensures { option_map (λ name. name.now) result ≡ phase_name item.now }
{
    match item {
        Item::Phase(phase) => Some(phase.name.bytes()),
        _ => None,
    }
}

/// Whether there is a name and it is this one.
pub(crate) fn is_named(name: &[u8], own: Option<&[u8]>) -> bool
    ensures { result ≡ is_named name.now (option_map (λ own. own.now) own.entry) }
{
    match own {
        Some(own) => name == own,
        None => false,
    }
}

/// The name of a metric.
pub(crate) fn metric_name(item: &Item) -> Option<&[u8]>
    ensures { option_map (λ name. name.now) result ≡ metric_name item.now }
{
    match item {
        Item::Metric(metric) => Some(metric.name.bytes()),
        _ => None,
    }
}

/// The constraint that an item is.
pub(crate) fn as_constraint(item: &Item) -> Option<&Constraint>
    ensures { option_map (λ constraint. constraint.now) result ≡ as_constraint item.now }
{
    match item {
        Item::Constraint(constraint) => Some(constraint),
        _ => None,
    }
}

/// Puts a name last, if there is one.
pub(crate) fn add_name(
    alloc: Global,
    names: &mut FirstPlaces,
    name: Option<&[u8]>,
) -> Result<(), NoMemory>
    ensures { OnOk result (names.new ≡ names.old ++ option_to_list (option_map (λ name. name.now) name.entry)) }
{
    if let Some(name) = name {
        names.push(alloc, name)?;
    }
    Ok(())
}

/// The name of a constraint.
pub(crate) fn constraint_name(item: &Item) -> Option<&[u8]>
    ensures { option_map (λ name. name.now) result ≡ option_map (λ c. c.name) (as_constraint item.now) }
{
    let constraint = as_constraint(item)?;
    Some(constraint.name.bytes())
}
