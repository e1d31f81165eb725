//! The hypotheses among the items of a configuration.

ghost use Rattle.std.specs.Prelude.{◌≡◌};
ghost use Rattle.std.specs.List.{list_any};
ghost use Rattle.std.specs.Str.{bytes_eq};
ghost use Rattle.directives.specs.Hypotheses.{is_named, is_along};

use mdl_ast::{Hypothesis, Item};

/// Whether the item is a hypothesis of this name.
pub(crate) fn is_named(name: &[u8], item: &Item) -> bool
    ensures { result ≡ is_named name.now item.now }
{
    match item {
        Item::Hypothesis(hypothesis) => name == hypothesis.name.bytes(),
        _ => false,
    }
}

/// Whether the hypothesis is refined along this axis.
fn runs_along(hypothesis: &Hypothesis, axis: &[u8]) -> bool
    ensures { result ≡ list_any (bytes_eq axis.now) hypothesis.now.axes }
{
    let axes = hypothesis.axes.as_slice();
    axes.iter().any(|other| axis == other.bytes())
}

/// Whether the item is a hypothesis of this name that is refined along this axis.
pub(crate) fn is_along(name: &[u8], axis: &[u8], item: &Item) -> bool
    ensures { result ≡ is_along name.now axis.now item.now }
{
    match item {
        Item::Hypothesis(hypothesis) => {
            name == hypothesis.name.bytes() && runs_along(hypothesis, axis)
        }
        _ => false,
    }
}
