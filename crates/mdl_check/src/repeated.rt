//! What is named or asked for twice.

ghost use Rattle.std.specs.Prelude.{◌≡◌};
ghost use Rattle.mdl_check.specs.Names.{constraints_in, constraint_named};
ghost use Rattle.mdl_check.specs.Rules.{is_on, are_two_on, is_metric_repeated, is_phase_repeated, is_wish_repeated, is_repeated};

use crate::before::Before;
use crate::index::Index;
use mdl_ast::{Item, Metric, PhaseDecl, Wish};
use pn_types::{Focus, Text};

/// Whether the constraint of this name is one of this axis.
fn is_on(index: &Index<'_, '_>, path: &[u8], name: &Text) -> bool
    ensures { result ≡ is_on path.now (constraint_named (constraints_in index.now) name.now) }
{
    match index.constraint_named(name.bytes()) {
        Some(constraint) => constraint.is_on(path),
        None => false,
    }
}

/// Whether two of the constraints of these names are of this axis.
fn are_two_on(index: &Index<'_, '_>, path: &[u8], names: &[Text]) -> bool
    ensures { result ≡ are_two_on index.now path.now names.now }
{
    1 < names.iter().filter(|name| is_on(index, path, name)).count()
}

fn is_metric_repeated(index: &Index<'_, '_>, before: &Before<'_, '_, '_>, metric: &Metric) -> bool
    ensures { result ≡ is_metric_repeated index.now before.now metric.now }
{
    let constraints = metric.constraints.as_slice();
    before.has_variable(metric.name.bytes())
        || are_two_on(index, b"/Code", constraints)
        || are_two_on(index, b"/SyncObject", constraints)
}

fn is_phase_repeated(before: &Before<'_, '_, '_>, phase: &PhaseDecl) -> bool
    ensures { result ≡ is_phase_repeated before.now phase.now }
{
    phase.name.bytes() == b"global".as_slice() || before.has_phase(phase.name.bytes())
}

fn is_wish_repeated<'a>(before: &Before<'_, '_, 'a>, wish: &'a Wish, focus: Option<Focus>) -> bool
    ensures { result ≡ is_wish_repeated before.now wish.now focus }
{
    wish.at == 0 && wish.show && before.shows(wish.metric.bytes(), focus)
}

/// Whether an item before this one has its name or asks for what it asks for.
pub(crate) fn is_repeated<'a>(
    index: &Index<'_, 'a>,
    before: &Before<'_, '_, 'a>,
    item: &'a Item,
    focus: Option<Focus>,
) -> bool
    ensures { result ≡ is_repeated index.now before.now item.now focus }
{
    match item {
        Item::Include(include) => before.includes(include.metrics),
        Item::Sync(_) => false,
        Item::Metric(metric) => is_metric_repeated(index, before, metric),
        Item::Constraint(constraint) => before.has_variable(constraint.name.bytes()),
        Item::Hypothesis(hypothesis) => before.has_hypothesis(hypothesis.name.bytes()),
        Item::Search(_) => before.has_search(),
        Item::Phase(phase) => is_phase_repeated(before, phase),
        Item::Wish(wish) => is_wish_repeated(before, wish, focus),
    }
}
