//! Hypotheses that are changed.

ghost use Rattle.std.specs.Prelude.{◌≡◌, not, filter, IfOk, OnErr, OnOk};
ghost use Rattle.std.specs.Option.{option_map};
ghost use Rattle.std.specs.Str.{bytes_eq};
ghost use Rattle.directives.specs.Acts.{with_hypothesis, without_axis, with_threshold};
ghost use Rattle.directives.specs.Standing.{with_change};

use mdl_ast::Item;
use pn_types::{NoMemory, Seq, Text};
use std::alloc::Global;

/// Sets the threshold of the item, if it is the hypothesis of this name.
fn set_threshold_of(item: &mut Item, name: &[u8], threshold: u32)
    ensures { item.new ≡ with_hypothesis name.now (with_threshold threshold) item.old }
{
    if let Item::Hypothesis(hypothesis) = item
        && name == hypothesis.name.bytes()
    {
        hypothesis.threshold = threshold;
    }
}

/// Sets the threshold of what stands there, if it is the hypothesis of this name.
fn set_threshold_in(slot: &mut Option<Item>, name: &[u8], threshold: u32)
    ensures { slot.new ≡ option_map (with_hypothesis name.now (with_threshold threshold)) slot.old }
{
    if let Some(item) = slot {
        set_threshold_of(item, name, threshold);
    }
}

/// Sets the threshold of the hypothesis of this name, if it stands at this place.
pub(crate) fn set_threshold(slots: &mut [Option<Item>], place: usize, name: &[u8], threshold: u32)
    ensures { slots.new ≡ with_change slots.old place (with_hypothesis name.now (with_threshold threshold)) }
{
    if place < slots.len() {
        set_threshold_in(&mut slots[place], name, threshold);
    }
}

/// Copies of the axes but this one.
fn other_axes(alloc: Global, axes: &[Text], axis: &[u8]) -> Result<Seq<Text>, NoMemory>
    ensures { IfOk result (λ others. others ≡ filter (λ other. not (bytes_eq axis.now other)) axes.now) }
{
    let mut others = Vec::new(alloc);
    for other in axes {
        if axis != other.bytes() {
            others.push(other.copy(alloc)?)?;
        }
    }
    Ok(Seq::from_vec(others))
}

/// Takes the axis from those of the item, if it is the hypothesis of this name.
fn drop_axis_of(alloc: Global, item: &mut Item, name: &[u8], axis: &[u8]) -> Result<(), NoMemory>
    ensures ok { OnOk result (item.new ≡ with_hypothesis name.now (without_axis axis.now) item.old) }
    ensures err { OnErr result (item.new ≡ item.old) }
{
    if let Item::Hypothesis(hypothesis) = item
        && name == hypothesis.name.bytes()
    {
        hypothesis.axes = other_axes(alloc, hypothesis.axes.as_slice(), axis)?;
    }
    Ok(())
}

/// Takes the axis from those of what stands there, if it is the hypothesis of this name.
fn drop_axis_in(
    alloc: Global,
    slot: &mut Option<Item>,
    name: &[u8],
    axis: &[u8],
) -> Result<(), NoMemory>
    ensures ok { OnOk result (slot.new ≡ option_map (with_hypothesis name.now (without_axis axis.now)) slot.old) }
    ensures err { OnErr result (slot.new ≡ slot.old) }
{
    if let Some(item) = slot {
        drop_axis_of(alloc, item, name, axis)?;
    }
    Ok(())
}

/// Takes the axis from those of the hypothesis of this name, if it stands at this place.
pub(crate) fn drop_axis(
    alloc: Global,
    slots: &mut [Option<Item>],
    place: usize,
    name: &[u8],
    axis: &[u8],
) -> Result<(), NoMemory>
    ensures ok { OnOk result (slots.new ≡ with_change slots.old place (with_hypothesis name.now (without_axis axis.now))) }
    ensures err { OnErr result (slots.new ≡ slots.old) }
{
    if place < slots.len() {
        drop_axis_in(alloc, &mut slots[place], name, axis)?;
    }
    Ok(())
}
