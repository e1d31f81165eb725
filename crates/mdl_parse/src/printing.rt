//! From a configuration to its canonical text.

ghost use Rattle.std.specs.Prelude.{◌≡◌, ◌++◌, OnOk, IfOk};
ghost use Rattle.std.specs.List.{flat_map};
ghost use Rattle.mdl_ast.specs.declared.items.Conf.{Conf};
ghost use Rattle.mdl_parse.specs.ButLines.{IsSpelled, SpellsAgain};
ghost use Rattle.mdl_parse.specs.Printing.{line_text, item_lines, conf_text};

use crate::print_items::{add_include, add_phase, add_search, add_sync, add_wish};
use crate::print_metrics::{add_constraint, add_hypothesis, add_metric};
use mdl_ast::{Conf, Item};
use pn_types::NoMemory;
use std::alloc::Global;

/// Adds an item.
fn add_item(alloc: Global, out: &mut Vec<u8>, item: &Item) -> Result<(), NoMemory>
    ensures { OnOk result (out.new.items ≡ out.old.items ++ flat_map line_text (item_lines item.now)) }
{
    match item {
        Item::Include(include) => add_include(alloc, out, include),
        Item::Sync(sync) => add_sync(alloc, out, sync),
        Item::Metric(metric) => add_metric(alloc, out, metric),
        Item::Constraint(constraint) => add_constraint(alloc, out, constraint),
        Item::Hypothesis(hypothesis) => add_hypothesis(alloc, out, hypothesis),
        Item::Search(search) => add_search(alloc, out, search),
        Item::Phase(phase) => add_phase(alloc, out, phase),
        Item::Wish(wish) => add_wish(alloc, out, wish),
    }
}

/// The items, one after the other.
#[tactic(auto, using(crate::proofs::LineTexts::lines_text))]
fn items(alloc: Global, items: &[Item]) -> Result<Vec<u8>, NoMemory>
    ensures { IfOk result (λ text. text.items ≡ flat_map line_text (flat_map item_lines items.now)) }
{
    let mut out = Vec::new(alloc);
    for item in items {
        add_item(alloc, &mut out, item)?;
    }
    Ok(out)
}

/// Returns the canonical text of a configuration: one item, field, insertion or closing brace on a line, with two spaces for each
/// level, and one space between words where the grammar's text doesn't leave it out.
///
/// # Errors
///
/// `NoMemory` where memory runs out.
#[tactic(auto, unfolding(crate::specs::Printing::conf_text))]
pub fn print(alloc: Global, conf: &Conf) -> Result<Vec<u8>, NoMemory>
    ensures { IfOk result (λ text. text.items ≡ conf_text conf.now) }
{
    items(alloc, conf.items.as_slice())
}

/// The canonical text of a configuration that some text spells, but for its lines, spells it again, but for its lines.
#[tactic(auto, using(crate::proofs::PrintedAgain::printed_again))]
pub fn printed_again()
    ensures { (c : Conf) → IsSpelled c → SpellsAgain (conf_text c) c }
{}
