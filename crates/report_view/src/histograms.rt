//! Histograms: a metric that was shown once has a picture, one that was shown at more foci a table.

ghost use Rattle.std.specs.Prelude.{◌≡◌, ◌++◌, ◌<◌, [], if◌then◌else◌, flat_map, length, map, IfOk, OnOk};
ghost use Rattle.fold_hist.specs.Bins.{first_from, last_to};
ghost use Rattle.report.specs.ShownTexts.{refused_line};
ghost use Rattle.report_view.specs.Histograms.{columns_text, framed, table_heading, name_text, histograms_view, interval_text, metrics_from, of_metric, picture, picture_or_none, histogram_row, single, single_or_table, small_bars, sums_text, histogram_table};

use crate::bars::{add_bars_in, bin_values};
use crate::foci::short_focus;
use crate::pieces::{add_counted, add_number, add_padded};
use crate::signed::{add_quotient, add_signed, greatest, least, signed_number, sum_of};
use first_places::FirstPlaces;
use fold_hist::Bin;
use pn_types::NoMemory;
use report::{RefusedPart, ReportParts, ShownPart, add_refused};
use std::alloc::Global;

/// Returns where the first of some bins begins, or 0.
fn first_from(bins: &[Bin]) -> u64
    ensures { result ≡ first_from bins.now }
{
    match bins.first() {
        Some(bin) => bin.from,
        None => 0,
    }
}

/// Returns where the last of some bins ends, or 0.
#[tactic(auto, using(crate::proofs::Joins::last_is))]
fn last_to(bins: &[Bin]) -> u64
    ensures { result ≡ last_to bins.now }
{
    if bins.is_empty() {
        return 0;
    }
    bins[bins.len() - 1].to
}

/// Adds how many bins of how many samples there are, and from when to when.
#[tactic(auto, unfolding(crate::specs::Histograms::interval_text))]
fn add_interval(alloc: Global, out: &mut Vec<u8>, part: &ShownPart) -> Result<(), NoMemory>
    ensures { OnOk result (out.new.items ≡ out.old.items ++ interval_text part.now) }
{
    let bins = part.bins.as_slice();
    add_counted(alloc, out, bins.len() as u64, b"bin", b"bins")?;
    out.extend_from_slice(b" of ")?;
    add_counted(alloc, out, part.width, b"sample", b"samples")?;
    add_number(alloc, out, b" from ", first_from(bins))?;
    add_number(alloc, out, b" to ", last_to(bins))
}

/// Adds the sum of values, and the least, the mean and the greatest of them.
#[tactic(auto, unfolding(crate::specs::Histograms::sums_text))]
fn add_sums(alloc: Global, out: &mut Vec<u8>, values: &[u64]) -> Result<(), NoMemory>
    requires { 0 < length values.now }
    ensures { OnOk result (out.new.items ≡ out.old.items ++ sums_text values.now) }
{
    let sum = sum_of(values);
    out.extend_from_slice(b"sum ")?;
    add_signed(alloc, out, sum)?;
    out.extend_from_slice(b", least ")?;
    add_signed(alloc, out, least(values))?;
    out.extend_from_slice(b", mean ")?;
    add_quotient(alloc, out, sum, values.len() as u64)?;
    out.extend_from_slice(b", greatest ")?;
    add_signed(alloc, out, greatest(values))
}

/// Adds the bars of a histogram within margins.
#[tactic(auto, unfolding(crate::specs::Histograms::framed))]
fn add_framed(
    alloc: Global,
    out: &mut Vec<u8>,
    ascii: bool,
    columns: u32,
    part: &ShownPart,
) -> Result<(), NoMemory>
    ensures { OnOk result (out.new.items ≡ out.old.items ++ framed ascii columns part.now) }
{
    let room = columns.saturating_sub(4).max(1);
    out.extend_from_slice(b"  |")?;
    add_bars_in(alloc, out, ascii, room, part.bins.as_slice())?;
    out.extend_from_slice(b"|\n")
}

/// Adds the bars of a histogram, its interval, and its sums.
fn add_picture(
    alloc: Global,
    out: &mut Vec<u8>,
    ascii: bool,
    columns: u32,
    part: &ShownPart,
) -> Result<(), NoMemory>
    requires { 0 < length part.now.bins }
    ensures { OnOk result (out.new.items ≡ out.old.items ++ picture ascii columns part.now) }
{
    let values = bin_values(alloc, part.bins.as_slice())?;
    add_framed(alloc, out, ascii, columns, part)?;
    out.extend_from_slice(b"  ")?;
    add_interval(alloc, out, part)?;
    out.extend_from_slice(b"\n  ")?;
    add_sums(alloc, out, &values)?;
    out.extend_from_slice(b"\n")
}

/// Adds the picture of a histogram, or that there is none.
#[tactic(auto, unfolding(crate::specs::Histograms::picture_or_none))]
fn add_picture_or_none(
    alloc: Global,
    out: &mut Vec<u8>,
    ascii: bool,
    columns: u32,
    part: &ShownPart,
) -> Result<(), NoMemory>
    ensures { OnOk result (out.new.items ≡ out.old.items ++ picture_or_none ascii columns part.now) }
{
    if part.bins.as_slice().is_empty() {
        return out.extend_from_slice(b"  its instrument was never armed\n");
    }
    add_picture(alloc, out, ascii, columns, part)
}

/// Adds the name of a metric and its units.
#[tactic(auto, unfolding(crate::specs::Histograms::name_text))]
fn add_name(out: &mut Vec<u8>, part: &ShownPart) -> Result<(), NoMemory>
    ensures { OnOk result (out.new.items ≡ out.old.items ++ name_text part.now) }
{
    out.extend_from_slice(b"\n")?;
    out.extend_from_slice(part.metric.bytes())?;
    out.extend_from_slice(b" in ")?;
    out.extend_from_slice(part.units.bytes())
}

/// Adds a metric that was shown once.
#[tactic(auto, unfolding(crate::specs::Histograms::single))]
fn add_single(
    alloc: Global,
    out: &mut Vec<u8>,
    ascii: bool,
    columns: u32,
    part: &ShownPart,
) -> Result<(), NoMemory>
    ensures { OnOk result (out.new.items ≡ out.old.items ++ single ascii columns part.now) }
{
    let focus = short_focus(alloc, part.focus.bytes())?;
    add_name(out, part)?;
    out.extend_from_slice(b", ")?;
    out.extend_from_slice(&focus)?;
    out.extend_from_slice(b"\n")?;
    add_picture_or_none(alloc, out, ascii, columns, part)
}

/// Adds what stands above a table.
#[tactic(auto, unfolding(crate::specs::Histograms::table_heading))]
fn add_heading(out: &mut Vec<u8>, part: &ShownPart) -> Result<(), NoMemory>
    ensures { OnOk result (out.new.items ≡ out.old.items ++ table_heading part.now) }
{
    add_name(out, part)?;
    out.extend_from_slice(b"\n")?;
    add_padded(out, 16, b"sum")?;
    add_padded(out, 16, b"greatest bin")?;
    out.extend_from_slice(b"\n")
}

/// Adds the sum and the greatest bin of a histogram, in columns.
#[tactic(auto, unfolding(crate::specs::Histograms::columns_text))]
fn add_columns(alloc: Global, out: &mut Vec<u8>, part: &ShownPart) -> Result<(), NoMemory>
    ensures { OnOk result (out.new.items ≡ out.old.items ++ columns_text part.now) }
{
    let values = bin_values(alloc, part.bins.as_slice())?;
    let sum = signed_number(alloc, sum_of(&values))?;
    let greatest = signed_number(alloc, greatest(&values))?;
    add_padded(out, 16, &sum)?;
    add_padded(out, 16, &greatest)
}

/// Adds the bars of a histogram in a table, or that there are none.
#[tactic(auto, unfolding(crate::specs::Histograms::small_bars))]
fn add_small_bars(
    alloc: Global,
    out: &mut Vec<u8>,
    ascii: bool,
    part: &ShownPart,
) -> Result<(), NoMemory>
    ensures { OnOk result (out.new.items ≡ out.old.items ++ small_bars ascii part.now) }
{
    let bins = part.bins.as_slice();
    if bins.is_empty() {
        return out.extend_from_slice(b"  never armed  ");
    }
    out.extend_from_slice(b"  |")?;
    add_bars_in(alloc, out, ascii, 16, bins)?;
    out.extend_from_slice(b"|  ")
}

/// Adds the row of a histogram.
#[tactic(auto, unfolding(crate::specs::Histograms::histogram_row))]
fn add_row(alloc: Global, out: &mut Vec<u8>, ascii: bool, part: &ShownPart) -> Result<(), NoMemory>
    ensures { OnOk result (out.new.items ≡ out.old.items ++ histogram_row ascii part.now) }
{
    let focus = short_focus(alloc, part.focus.bytes())?;
    add_columns(alloc, out, part)?;
    add_small_bars(alloc, out, ascii, part)?;
    out.extend_from_slice(&focus)?;
    out.extend_from_slice(b"\n")
}

/// Adds the rows of histograms.
fn add_rows(
    alloc: Global,
    out: &mut Vec<u8>,
    ascii: bool,
    parts: &[&ShownPart],
) -> Result<(), NoMemory>
    ensures { OnOk result (out.new.items ≡ out.old.items ++ flat_map (histogram_row ascii) (map (λ part. part.now) parts.now)) }
{
    for part in parts {
        add_row(alloc, out, ascii, part)?;
    }
    Ok(())
}

/// Adds a metric that was shown at more foci.
fn add_table(
    alloc: Global,
    out: &mut Vec<u8>,
    ascii: bool,
    parts: &[&ShownPart],
) -> Result<(), NoMemory>
    ensures { OnOk result (out.new.items ≡ out.old.items ++ histogram_table ascii (map (λ part. part.now) parts.now)) }
{
    if let Some(first) = parts.first() {
        add_heading(out, first)?;
    }
    add_rows(alloc, out, ascii, parts)
}

/// Returns the histograms of one metric.
fn of_metric<'a>(
    alloc: Global,
    name: &[u8],
    shown: &'a [ShownPart],
) -> Result<Vec<&'a ShownPart>, NoMemory>
    ensures { IfOk result (λ found. map (λ part. part.now) found.items ≡ of_metric name.now shown.now) }
{
    let mut found = Vec::new(alloc);
    for part in shown {
        if name == part.metric.bytes() {
            found.push(part)?;
        }
    }
    Ok(found)
}

/// Adds the histograms of one metric.
fn add_single_or_table(
    alloc: Global,
    out: &mut Vec<u8>,
    ascii: bool,
    columns: u32,
    parts: &[&ShownPart],
) -> Result<(), NoMemory>
    ensures { OnOk result (out.new.items ≡ out.old.items ++ single_or_table ascii columns (map (λ part. part.now) parts.now)) }
{
    if parts.len() == 1 {
        return add_single(alloc, out, ascii, columns, parts[0]);
    }
    add_table(alloc, out, ascii, parts)
}

/// Adds all histograms of a metric, unless they stand before.
fn add_metric(
    alloc: Global,
    out: &mut Vec<u8>,
    ascii: bool,
    columns: u32,
    shown: &[ShownPart],
    name: &[u8],
    before: bool,
) -> Result<(), NoMemory>
    ensures { OnOk result (out.new.items
        ≡ out.old.items ++ (if before then [] else single_or_table ascii columns (of_metric name.now shown.now))) }
{
    if before {
        return Ok(());
    }
    let parts = of_metric(alloc, name, shown)?;
    add_single_or_table(alloc, out, ascii, columns, &parts)
}

/// Adds each metric where it is first shown, with all its histograms.
fn add_metrics(
    alloc: Global,
    out: &mut Vec<u8>,
    ascii: bool,
    columns: u32,
    shown: &[ShownPart],
) -> Result<(), NoMemory>
    ensures { OnOk result (out.new.items ≡ out.old.items ++ metrics_from ascii columns shown.now [] shown.now) }
{
    let mut mentioned = FirstPlaces::new(alloc);
    for part in shown {
        let name = part.metric.bytes();
        let before = mentioned.push(alloc, name)?;
        add_metric(alloc, out, ascii, columns, shown, name, before)?;
    }
    Ok(())
}

/// Adds the wishes that were refused.
fn add_all_refused(alloc: Global, out: &mut Vec<u8>, parts: &[RefusedPart]) -> Result<(), NoMemory>
    ensures { OnOk result (out.new.items ≡ out.old.items ++ flat_map refused_line parts.now) }
{
    for part in parts {
        add_refused(alloc, out, part)?;
    }
    Ok(())
}

/// Adds the wishes that were refused, and what was shown.
///
/// # Errors
///
/// `NoMemory` where memory runs out.
pub fn add_histograms_view(
    alloc: Global,
    out: &mut Vec<u8>,
    ascii: bool,
    columns: u32,
    parts: &ReportParts,
) -> Result<(), NoMemory>
    ensures { OnOk result (out.new.items ≡ out.old.items ++ histograms_view ascii columns parts.now) }
{
    add_all_refused(alloc, out, parts.refused.as_slice())?;
    add_metrics(alloc, out, ascii, columns, parts.shown.as_slice())
}
