//! What is said of harts, histograms and nodes.

ghost use Rattle.std.specs.Prelude.{◌≡◌, ◌++◌, ◌≤◌, ◌^◌, IfOk, OnOk, length, take};
ghost use Rattle.std.specs.Fmt.{decimal};
ghost use Rattle.fold_hist.specs.Bins.{hist_of};
ghost use Rattle.report_picture.specs.Labels.{bin_counts, hart_name, histogram_name, histogram_sums, node_name, node_window, steps_of, value_sums};

use fold_hist::{Bin, Hist};
use pn_types::NoMemory;
use report::{HartPart, NodePart, ShownPart};
use report_view::{add_signed, bin_values, greatest, short_focus, sum_of};
use std::alloc::Global;

/// Adds a number behind a label.
///
/// # Errors
///
/// `NoMemory` where memory runs out.
pub fn add_number(
    alloc: Global,
    out: &mut Vec<u8>,
    label: &[u8],
    number: u128,
) -> Result<(), NoMemory>
    ensures { OnOk result (out.new.items ≡ out.old.items ++ label.now ++ decimal number) }
{
    out.extend_from_slice(label)?;
    out.extend_from_slice(format!(in alloc; "{number}")?.as_bytes())
}

/// Adds a hart's ticks, and how and where it ended.
///
/// # Errors
///
/// `NoMemory` where memory runs out.
#[tactic(auto, unfolding(crate::specs::Labels::hart_name))]
pub fn add_hart_name(
    alloc: Global,
    out: &mut Vec<u8>,
    number: usize,
    part: &HartPart,
) -> Result<(), NoMemory>
    ensures { OnOk result (out.new.items ≡ out.old.items ++ hart_name number part.now) }
{
    let ticks = part.ticks;
    let stop = part.stop;
    let pc = part.pc;
    let text = format!(in alloc; "hart {number}: {ticks} ticks, {stop} at 0x{pc:x}")?;
    out.extend_from_slice(text.as_bytes())
}

/// Returns a histogram's metric, its units and its focus.
///
/// # Errors
///
/// `NoMemory` where memory runs out.
#[tactic(auto, unfolding(crate::specs::Labels::histogram_name))]
pub fn histogram_name(alloc: Global, part: &ShownPart) -> Result<Vec<u8>, NoMemory>
    ensures { IfOk result (λ name. name.items ≡ histogram_name part.now) }
{
    let focus = short_focus(alloc, part.focus.bytes())?;
    let mut name = Vec::from_slice(alloc, part.metric.bytes())?;
    name.extend_from_slice(b" in ")?;
    name.extend_from_slice(part.units.bytes())?;
    name.extend_from_slice(b", ")?;
    name.extend_from_slice(&focus)?;
    Ok(name)
}

/// Returns the first so many of some bins.
fn first_bins(bins: &[Bin], most: usize) -> &[Bin]
    ensures items { result.now ≡ take most bins.now }
    ensures bound { length result.now ≤ most }
{
    bins.split_at(bins.len().min(most)).0
}

/// Returns bins, which are joined until there are at most 512.
fn joined(alloc: Global, bins: &[Bin]) -> Result<Hist, NoMemory>
    requires { length bins.now ≤ 2 ^ 32 }
    ensures { IfOk result (λ hist. hist ≡ hist_of 512 bins.now) }
{
    let mut hist = Hist::new(alloc, 512)?;
    for bin in bins {
        hist.push(bin.sum, bin.from, bin.to);
    }
    Ok(hist)
}

/// Returns the steps that are drawn of a histogram's bins.
///
/// # Errors
///
/// `NoMemory` where memory runs out.
#[tactic(auto, unfolding(crate::specs::Labels::steps_of))]
pub fn steps_of(alloc: Global, part: &ShownPart) -> Result<Hist, NoMemory>
    ensures { IfOk result (λ hist. hist ≡ steps_of part.now) }
{
    joined(alloc, first_bins(part.bins.as_slice(), 4_294_967_296))
}

/// Adds the sum of values, and the greatest.
#[tactic(auto, unfolding(crate::specs::Labels::value_sums))]
fn add_value_sums(alloc: Global, out: &mut Vec<u8>, values: &[u64]) -> Result<(), NoMemory>
    ensures { OnOk result (out.new.items ≡ out.old.items ++ value_sums values.now) }
{
    out.extend_from_slice(b"sum ")?;
    add_signed(alloc, out, sum_of(values))?;
    out.extend_from_slice(b", greatest bin ")?;
    add_signed(alloc, out, greatest(values))
}

/// Adds how many bins there are, and how many of them a step of this width joins.
#[tactic(auto, unfolding(crate::specs::Labels::bin_counts))]
fn add_bin_counts(alloc: Global, out: &mut Vec<u8>, count: u128, width: u64) -> Result<(), NoMemory>
    ensures { OnOk result (out.new.items ≡ out.old.items ++ bin_counts width count) }
{
    add_number(alloc, out, b", bins ", count)?;
    add_number(alloc, out, b", bins in a step ", width as u128)
}

/// Adds the sum of a histogram's bins, the greatest, how many there are, and how many of them a step of this width joins.
///
/// # Errors
///
/// `NoMemory` where memory runs out.
#[tactic(auto, unfolding(crate::specs::Labels::histogram_sums))]
pub fn add_histogram_sums(
    alloc: Global,
    out: &mut Vec<u8>,
    part: &ShownPart,
    width: u64,
) -> Result<(), NoMemory>
    ensures { OnOk result (out.new.items ≡ out.old.items ++ histogram_sums width part.now) }
{
    let values = bin_values(alloc, part.bins.as_slice())?;
    add_value_sums(alloc, out, &values)?;
    let count = part.bins.as_slice().len() as u128;
    add_bin_counts(alloc, out, count, width)
}

/// Returns the hypothesis of a node, at a root, and its focus.
///
/// # Errors
///
/// `NoMemory` where memory runs out.
#[tactic(auto, unfolding(crate::specs::Labels::node_name))]
pub fn node_name(alloc: Global, depth: usize, part: &NodePart) -> Result<Vec<u8>, NoMemory>
    ensures { IfOk result (λ name. name.items ≡ node_name depth part.now) }
{
    let focus = short_focus(alloc, part.focus.bytes())?;
    let mut name = Vec::new(alloc);
    if depth == 0 {
        name.extend_from_slice(part.hypothesis.bytes())?;
        name.extend_from_slice(b", ")?;
    }
    name.extend_from_slice(&focus)?;
    Ok(name)
}

/// Adds from when to when a node was tested.
///
/// # Errors
///
/// `NoMemory` where memory runs out.
#[tactic(auto, unfolding(crate::specs::Labels::node_window))]
pub fn add_node_window(alloc: Global, out: &mut Vec<u8>, part: &NodePart) -> Result<(), NoMemory>
    ensures { OnOk result (out.new.items ≡ out.old.items ++ node_window part.now) }
{
    let from = part.node.from;
    let to = part.node.to;
    out.extend_from_slice(format!(in alloc; ", ticks {from} to {to}")?.as_bytes())
}
