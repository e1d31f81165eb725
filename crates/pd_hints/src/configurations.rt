//! What is wrong with a configuration.

ghost use Rattle.pn_types.specs.Images.{IsImage};

use crate::calls::{Call, Pick};
use crate::contents::Contents;
use crate::foci::Resources;
use crate::grammar::ITEMS;
use crate::names::{Items, NameKind, add_unknown_names};
use crate::text_places::{TextPlace, add_form_fault, add_item_line};
use crate::texts::name_text;
use code_points::{objects, procedures};
use headline::Inputs;
use mdl_ast::{Conf, Item};
use mdl_check::prefixes;
use mdl_shipped::shipped;
use pn_types::NoMemory;
use std::alloc::Global;

/// Returns the line at which an item begins.
fn line_of(item: &Item) -> u32 {
    match item {
        Item::Include(include) => include.line,
        Item::Sync(sync) => sync.line,
        Item::Metric(metric) => metric.line,
        Item::Constraint(constraint) => constraint.line,
        Item::Hypothesis(hypothesis) => hypothesis.line,
        Item::Search(search) => search.line,
        Item::Phase(phase) => phase.line,
        Item::Wish(wish) => wish.line,
    }
}

/// Returns what an item has to keep to, where it uses something in a way that can't be.
fn rule_of(item: &Item) -> &'static str {
    match item {
        Item::Metric(_) | Item::Constraint(_) => {
            "Timers are started and stopped; counters go up or down, or are put. Constraints are for /Code or /SyncObject,\n\
            $value is for those of /SyncObject, and arguments are $arg[0] to $arg[7].\n"
        }
        Item::Search(_) => "A window has at least 1 sample.\n",
        Item::Phase(_) => "A phase begins after tick 0, and after the phase before it.\n",
        Item::Wish(_) => "At tick 0 nothing is shown yet that could be dropped.\n",
        Item::Include(_) | Item::Sync(_) | Item::Hypothesis(_) => "",
    }
}

/// Adds a line on each part of a line's foci, or of the focus of the command line, that selects nothing.
fn add_foci(
    alloc: Global,
    text: &mut String,
    inputs: &Inputs,
    line: u32,
    call: &Call<'_>,
) -> Result<(), NoMemory>
    requires { IsImage inputs.now.image }
{
    let (procs, _) = procedures(alloc, &inputs.image)?;
    let variables = objects(alloc, &inputs.image)?;
    let prefixes = prefixes(alloc, &inputs.conf, &shipped(alloc)?)?;
    let resources = Resources {
        procs: &procs,
        variables: &variables,
        prefixes: &prefixes,
        harts: call.harts,
    };
    let said = text.len();
    if let (0, Some(Pick { focus, .. })) = (line, call.pick) {
        resources.add_focus(alloc, text, focus)?;
    }
    for item in inputs.conf.items.as_slice() {
        if let Item::Wish(wish) = item
            && wish.line == line
        {
            resources.add_focus(alloc, text, name_text(wish.focus.bytes()))?;
        }
    }
    if text.len() > said {
        return Ok(());
    }
    text.push_str("A focus has each hierarchy once at most.\n")
}

/// Adds a line on each of some metrics, parted by commas, that there isn't.
fn add_metrics(
    alloc: Global,
    text: &mut String,
    items: &Items<'_>,
    names: &str,
) -> Result<(), NoMemory> {
    for name in names.split(',') {
        items.add_name(alloc, text, NameKind::Metric, name)?;
    }
    Ok(())
}

/// Adds a line on each name of a line's items, or of the command line, that nothing has.
fn add_names(
    alloc: Global,
    text: &mut String,
    conf: &Conf,
    line: u32,
    call: &Call<'_>,
) -> Result<(), NoMemory> {
    let shipped = shipped(alloc)?;
    let items = Items {
        own: conf.items.as_slice(),
        shipped: shipped.items.as_slice(),
    };
    if let (0, Some(Pick { metric, .. })) = (line, call.pick) {
        return add_metrics(alloc, text, &items, metric);
    }
    for item in conf.items.as_slice() {
        if line_of(item) == line {
            add_unknown_names(alloc, text, &items, item)?;
        }
    }
    Ok(())
}

/// Adds what the first item of a line that has a rule has to keep to.
fn add_rule(text: &mut String, conf: &Conf, line: u32) -> Result<(), NoMemory> {
    let mut rules = conf
        .items
        .as_slice()
        .iter()
        .filter(|item| line_of(item) == line)
        .map(rule_of);
    text.push_str(rules.find(|rule| !rule.is_empty()).unwrap_or(""))
}

/// Adds what an item, or the command line, uses wrongly.
fn add_item_fault(
    alloc: Global,
    text: &mut String,
    contents: &Contents,
    place: &TextPlace<'_>,
    call: &Call<'_>,
) -> Result<(), NoMemory> {
    if let Some(conf) = &contents.conf {
        add_item_line(alloc, text, conf, place)?;
    }
    let Some(inputs) = contents.inputs(alloc)? else {
        return Ok(());
    };
    match place.kind {
        "unknown name" => add_names(alloc, text, &inputs.conf, place.line, call),
        "bad focus" => add_foci(alloc, text, &inputs, place.line, call),
        "wrong kind" => add_rule(text, &inputs.conf, place.line),
        _ => Ok(()),
    }
}

/// Adds what a configuration's bytes tell of a fault of it.
pub(crate) fn add_configuration(
    alloc: Global,
    text: &mut String,
    fault: &str,
    contents: &Contents,
    call: &Call<'_>,
) -> Result<(), NoMemory> {
    let (Some(place), Some(conf)) = (TextPlace::of(fault), &contents.conf) else {
        return Ok(());
    };
    if place.column > 0 {
        add_form_fault(alloc, text, &ITEMS, conf, &place)
    } else {
        add_item_fault(alloc, text, contents, &place, call)
    }
}
