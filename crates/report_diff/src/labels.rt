//! What stands for a metric or a hypothesis at a focus in a line that a person reads.

ghost use Rattle.std.specs.Prelude.{◌≡◌, ◌++◌, IfOk, OnOk};
ghost use Rattle.report.specs.ShownTexts.{pair_text};
ghost use Rattle.report_diff.specs.Labels.{label_at};

use pn_types::{NoMemory, Text};
use report_view::short_focus;
use std::alloc::Global;

/// Adds a name and a focus, as a report has them.
///
/// # Errors
///
/// `NoMemory` where memory runs out.
pub fn add_pair(out: &mut Vec<u8>, name: &Text, focus: &Text) -> Result<(), NoMemory>
    ensures { OnOk result (out.new.items ≡ out.old.items ++ pair_text name.now focus.now) }
{
    out.extend_from_slice(name.bytes())?;
    out.extend_from_slice(b" ")?;
    out.extend_from_slice(focus.bytes())
}

/// Adds a name and a focus, as a person reads them.
///
/// # Errors
///
/// `NoMemory` where memory runs out.
#[tactic(auto, unfolding(crate::specs::Labels::label_at))]
pub fn add_label(
    alloc: Global,
    out: &mut Vec<u8>,
    name: &Text,
    focus: &Text,
) -> Result<(), NoMemory>
    ensures { OnOk result (out.new.items ≡ out.old.items ++ label_at name.now focus.now) }
{
    let focus = short_focus(alloc, focus.bytes())?;
    out.extend_from_slice(name.bytes())?;
    out.extend_from_slice(b", ")?;
    out.extend_from_slice(&focus)
}

/// Returns a name and a focus, as a person reads them.
///
/// # Errors
///
/// `NoMemory` where memory runs out.
pub fn label_at(alloc: Global, name: &Text, focus: &Text) -> Result<Vec<u8>, NoMemory>
    ensures { IfOk result (λ text. text.items ≡ label_at name.now focus.now) }
{
    let mut text = Vec::new(alloc);
    add_label(alloc, &mut text, name, focus)?;
    Ok(text)
}
