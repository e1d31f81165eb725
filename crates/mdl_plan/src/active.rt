//! The constraints that a focus makes active.

ghost use Rattle.std.specs.Prelude.{◌≡◌, ◌≤◌, ◌++◌, IfOk, OnOk, codes, is_some, length, map};
ghost use Rattle.std.specs.Option.{option_map, option_or};
ghost use Rattle.mdl_check.specs.Names.{constraint_named};
ghost use Rattle.mdl_plan.specs.Active.{active_of, constraint_for, in_hierarchy, is_below, wanted};
ghost use Rattle.std.specs.Result.{result_map_both};
ghost use Rattle.mdl_plan.specs.Pieces.{counters, counting, replacement, replacing};

use crate::fault::PlanFault;
use mdl_ast::{Constraint, Metric};
use pn_types::{Axis, CodePart, Focus, NoMemory, Text};
use std::alloc::Global;
use std::marker::Model;

/// The active constraints, that of the code and that of the object.
#[derive(Drop)]
pub(crate) struct Active<'a> {
    code: Option<&'a Constraint>,
    object: Option<&'a Constraint>,
}

impl<'a> Model for Active<'a> {
    ghost use Rattle.std.specs.Option.{option_map};
    ghost use Rattle.mdl_plan.specs.Active.{Active};

    ghost Value = { Active };

    ghost view = { λ a. record { code = option_map (λ c. c.now) a.code; object = option_map (λ c. c.now) a.object } };
}

/// The first constraint of this name.
fn constraint_named<'a>(constraints: &'a [Constraint], name: &[u8]) -> Option<&'a Constraint>
    ensures { option_map (λ c. c.now) result ≡ constraint_named constraints.now name.now }
{
    for constraint in constraints {
        if name == constraint.name.bytes() {
            return Some(constraint);
        }
    }
    None
}

/// The constraint, if it is one of this hierarchy.
fn in_hierarchy<'a>(path: &[u8], constraint: Option<&'a Constraint>) -> Option<&'a Constraint>
    ensures { option_map (λ c. c.now) result ≡ in_hierarchy path.now (option_map (λ c. c.now) constraint.entry) }
{
    match constraint {
        Some(constraint) => {
            if path == constraint.path.bytes() {
                Some(constraint)
            } else {
                None
            }
        }
        None => None,
    }
}

/// Of the constraints of these names the first of this hierarchy.
fn constraint_for<'a>(
    constraints: &'a [Constraint],
    path: &[u8],
    names: &[Text],
) -> Option<&'a Constraint>
    ensures { option_map (λ c. c.now) result ≡ constraint_for constraints.now path.now names.now }
{
    for name in names {
        let named = constraint_named(constraints, name.bytes());
        if let Some(constraint) = in_hierarchy(path, named) {
            return Some(constraint);
        }
    }
    None
}

/// Whether this is below the root of the code.
fn is_below(code: CodePart) -> bool
    ensures { result ≡ is_below code }
{
    match code {
        CodePart::All => false,
        CodePart::Module(_) => true,
        CodePart::Procedure(_) => true,
    }
}

/// The constraint for a hierarchy below whose root the focus is. It has to be there.
fn wanted<'a>(
    axis: Axis,
    is_below: bool,
    constraint: Option<&'a Constraint>,
) -> Result<Option<&'a Constraint>, PlanFault>
    ensures { result_map_both (option_map (λ c. c.now)) (λ fault. fault) result
        ≡ wanted axis is_below (option_map (λ c. c.now) constraint.entry) }
{
    if !is_below {
        return Ok(None);
    }
    match constraint {
        Some(constraint) => Ok(Some(constraint)),
        None => Err(PlanFault::NoConstraint(axis)),
    }
}

/// The constraints of a metric that a focus makes active, or the hierarchy for which there is none.
pub(crate) fn active_at<'a>(
    constraints: &'a [Constraint],
    metric: &Metric,
    focus: &Focus,
) -> Result<Active<'a>, PlanFault>
    ensures { result ≡ active_of constraints.now metric.now focus.now }
{
    let names = metric.constraints.as_slice();
    let of_code = constraint_for(constraints, b"/Code", names);
    let of_object = constraint_for(constraints, b"/SyncObject", names);
    let code = wanted(Axis::Code, is_below(focus.code), of_code)?;
    let object = wanted(Axis::SyncObject, focus.object.is_some(), of_object)?;
    Ok(Active { code, object })
}

/// The constraint, if it is a replacement.
fn replacing<'a>(constraint: Option<&'a Constraint>) -> Option<&'a Constraint>
    ensures { option_map (λ c. c.now) result ≡ replacing (option_map (λ c. c.now) constraint.entry) }
{
    match constraint {
        Some(constraint) => {
            if constraint.replace {
                Some(constraint)
            } else {
                None
            }
        }
        None => None,
    }
}

/// Adds the constraint, if it is a counter.
fn add_counter<'a>(
    counters: &mut Vec<&'a Constraint>,
    constraint: Option<&'a Constraint>,
) -> Result<(), NoMemory>
    ensures { OnOk result (map (λ c. c.now) counters.new.items
        ≡ map (λ c. c.now) counters.old.items ++ counting (option_map (λ c. c.now) constraint.entry)) }
{
    if let Some(constraint) = constraint {
        if !constraint.replace {
            counters.push(constraint)?;
        }
    }
    Ok(())
}

impl<'a> Active<'a> {
    /// The active counters, the code's first. There are at most two.
    pub(crate) fn counters(&self, alloc: Global) -> Result<Vec<&'a Constraint>, NoMemory>
        ensures counters { IfOk result (λ found. map (λ c. c.now) found.items ≡ counters self.now) }
        ensures few { IfOk result (λ found. length found.items ≤ 2) }
    {
        let mut counters = Vec::new(alloc);
        add_counter(&mut counters, self.code)?;
        add_counter(&mut counters, self.object)?;
        Ok(counters)
    }

    /// What stands in the place of the metric's own blocks: the object's replacement before the code's.
    pub(crate) fn replacement(&self) -> Option<&'a Constraint>
        ensures { option_map (λ c. c.now) result ≡ replacement self.now }
    {
        match replacing(self.object) {
            Some(constraint) => Some(constraint),
            None => replacing(self.code),
        }
    }
}
