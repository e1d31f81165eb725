//! What is wrong with directives.

use crate::contents::Contents;
use crate::grammar::DIRECTIVES;
use crate::names::{Items, NameKind};
use crate::text_places::{TextPlace, add_form_fault, add_item_line};
use crate::texts::name_text;
use directives::{Directive, DirectiveAct, DirectiveError, read_directives};
use mdl_shipped::shipped;
use pn_types::NoMemory;
use std::alloc::{AllocError, Global};

/// The most bytes of directives.
const MOST_BYTES: usize = 1_048_576;

/// Returns the hypothesis of a directive.
fn hypothesis_of(directive: &Directive) -> &str {
    match &directive.act {
        DirectiveAct::Prune(name)
        | DirectiveAct::PruneAxis(name, _)
        | DirectiveAct::Threshold(name, _)
        | DirectiveAct::First(name) => name_text(name.bytes()),
    }
}

/// Adds why a name is that of no hypothesis, or of none any more.
fn add_hypothesis(
    alloc: Global,
    text: &mut String,
    contents: &Contents,
    name: &str,
) -> Result<(), NoMemory> {
    let Some(inputs) = contents.inputs(alloc)? else {
        return Ok(());
    };
    let shipped = shipped(alloc)?;
    let items = Items {
        own: inputs.conf.items.as_slice(),
        shipped: shipped.items.as_slice(),
    };
    if items.have(NameKind::Hypothesis, name) {
        return text.push_str(
            "A `prune` before it took that hypothesis away, or one of its parents.\n",
        );
    }
    items.add_name(alloc, text, NameKind::Hypothesis, name)
}

/// Adds a line on each hypothesis of a line's directives that doesn't stand.
fn add_hypotheses(
    alloc: Global,
    text: &mut String,
    contents: &Contents,
    source: &[u8],
    line: u32,
) -> Result<(), NoMemory> {
    if source.len() > MOST_BYTES {
        return Ok(());
    }
    let directives = match read_directives(alloc, source) {
        Ok(directives) => directives,
        Err(DirectiveError::NoMemory) => return Err(AllocError),
        Err(DirectiveError::Fault(_)) => return Ok(()),
    };
    match directives
        .as_slice()
        .iter()
        .find(|directive| directive.line == line)
    {
        Some(directive) => add_hypothesis(alloc, text, contents, hypothesis_of(directive)),
        None => Ok(()),
    }
}

/// Adds what the bytes of directives tell of a fault of them.
pub(crate) fn add_directives(
    alloc: Global,
    text: &mut String,
    fault: &str,
    contents: &Contents,
) -> Result<(), NoMemory> {
    let (Some(place), Some(source)) = (TextPlace::of(fault), &contents.directives) else {
        return Ok(());
    };
    if place.column > 0 {
        return add_form_fault(alloc, text, &DIRECTIVES, source, &place);
    }
    add_item_line(alloc, text, source, &place)?;
    match place.kind {
        "unknown name" => add_hypotheses(alloc, text, contents, source, place.line),
        "wrong kind" => text.push_str(
            "That hypothesis has no such axis, or a `prune` before it took the axis away.\n",
        ),
        _ => Ok(()),
    }
}
