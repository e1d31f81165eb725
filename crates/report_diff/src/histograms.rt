//! Histograms: the sums over their bins.

ghost use Rattle.std.specs.Prelude.{◌≡◌, ◌++◌, IfOk, OnOk, map};
ghost use Rattle.std.specs.List.{count_by};
ghost use Rattle.report.specs.ShownTexts.{pair_text};
ghost use Rattle.report_diff.specs.Matches.{alone_text, both_text};
ghost use Rattle.report_diff.specs.Sums.{bins_sum, histograms_diff, is_same_sum, lone_histogram, lone_histograms, same_sums_line, shown_names, sums_row, sums_rows, sums_section, sums_table};

use crate::labels::{add_label, add_pair, label_at};
use crate::matches::{Match, matches_of};
use crate::numbers::{add_heading, add_values_row};
use crate::pieces::{add_amount, add_only_in};
use pn_types::{NoMemory, Text};
use report::ShownPart;
use report_view::{bin_values, sum_of};
use std::alloc::Global;

/// Returns the name by which a histogram is matched.
fn shown_name(alloc: Global, part: &ShownPart) -> Result<Text, NoMemory>
    ensures { IfOk result (λ name. name ≡ pair_text part.now.metric part.now.focus) }
{
    let mut name = Vec::new(alloc);
    add_pair(&mut name, &part.metric, &part.focus)?;
    Ok(Text::from_vec(name))
}

/// Returns the names of histograms.
fn shown_names(alloc: Global, parts: &[ShownPart]) -> Result<Vec<Text>, NoMemory>
    ensures { IfOk result (λ names. names.items ≡ shown_names parts.now) }
{
    let mut names = Vec::new(alloc);
    for part in parts {
        names.push(shown_name(alloc, part)?)?;
    }
    Ok(names)
}

/// Returns the sum over the bins of a histogram.
fn bins_sum(alloc: Global, part: &ShownPart) -> Result<u64, NoMemory>
    ensures { IfOk result (λ sum. sum ≡ bins_sum part.now) }
{
    let values = bin_values(alloc, part.bins.as_slice())?;
    Ok(sum_of(&values))
}

/// Adds the sums of a histogram, where they differ.
#[tactic(auto, unfolding(crate::specs::Sums::sums_row))]
fn add_sums_row(
    alloc: Global,
    out: &mut Vec<u8>,
    old: &ShownPart,
    new: &ShownPart,
) -> Result<(), NoMemory>
    ensures { OnOk result (out.new.items ≡ out.old.items ++ sums_row old.now new.now) }
{
    let was = bins_sum(alloc, old)?;
    let is = bins_sum(alloc, new)?;
    if was == is {
        return Ok(());
    }
    let label = label_at(alloc, &old.metric, &old.focus)?;
    add_values_row(alloc, out, was, is, &label)
}

/// Adds the sums of the histogram of a match, where it stands in both and they differ.
fn add_match_row(
    alloc: Global,
    out: &mut Vec<u8>,
    olds: &[ShownPart],
    news: &[ShownPart],
    found: &Match,
) -> Result<(), NoMemory>
    ensures { OnOk result (out.new.items ≡ out.old.items ++ both_text sums_row olds.now news.now found.now) }
{
    let Some(old) = olds.get(found.place) else {
        return Ok(());
    };
    let Some(other) = found.other else {
        return Ok(());
    };
    match news.get(other) {
        Some(new) => add_sums_row(alloc, out, old, new),
        None => Ok(()),
    }
}

/// Returns the rows of the histograms that stand in both and whose sums differ.
fn sums_rows(
    alloc: Global,
    olds: &[ShownPart],
    news: &[ShownPart],
    matches: &[Match],
) -> Result<Vec<u8>, NoMemory>
    ensures { IfOk result (λ rows. rows.items ≡ sums_rows olds.now news.now matches.now) }
{
    let mut rows = Vec::new(alloc);
    for found in matches {
        add_match_row(alloc, &mut rows, olds, news, found)?;
    }
    Ok(rows)
}

/// Returns whether the histogram of a match stands in both with the same sum.
fn is_same_sum(
    alloc: Global,
    olds: &[ShownPart],
    news: &[ShownPart],
    found: &Match,
) -> Result<bool, NoMemory>
    ensures { IfOk result (λ same. same ≡ is_same_sum olds.now news.now found.now) }
{
    let Some(old) = olds.get(found.place) else {
        return Ok(false);
    };
    let Some(other) = found.other else {
        return Ok(false);
    };
    match news.get(other) {
        Some(new) => Ok(bins_sum(alloc, old)? == bins_sum(alloc, new)?),
        None => Ok(false),
    }
}

/// Returns how many histograms stand in both with the same sum.
fn count_same_sums(
    alloc: Global,
    olds: &[ShownPart],
    news: &[ShownPart],
    matches: &[Match],
) -> Result<usize, NoMemory>
    ensures { IfOk result (λ count. count ≡ count_by (is_same_sum olds.now news.now) matches.now) }
{
    let mut count = 0;
    for found in matches {
        if is_same_sum(alloc, olds, news, found)? {
            count += 1;
        }
    }
    Ok(count)
}

/// Adds how many histograms have the same sum, where any have.
#[tactic(auto, unfolding(crate::specs::Sums::same_sums_line))]
fn add_same_sums(alloc: Global, out: &mut Vec<u8>, count: usize) -> Result<(), NoMemory>
    ensures { OnOk result (out.new.items ≡ out.old.items ++ same_sums_line count) }
{
    if count == 0 {
        return Ok(());
    }
    out.extend_from_slice(b"same sum: ")?;
    add_amount(alloc, out, count as u64, b"pair", b"pairs")?;
    out.extend_from_slice(b"\n")
}

/// Adds a histogram that stands in one report alone.
#[tactic(auto, unfolding(crate::specs::Sums::lone_histogram))]
fn add_lone_histogram(
    alloc: Global,
    out: &mut Vec<u8>,
    report: &[u8],
    part: &ShownPart,
) -> Result<(), NoMemory>
    ensures { OnOk result (out.new.items ≡ out.old.items ++ lone_histogram report.now part.now) }
{
    add_only_in(out, report)?;
    add_label(alloc, out, &part.metric, &part.focus)?;
    out.extend_from_slice(b"\n")
}

/// Adds the histogram of a match, where it has no other.
fn add_if_alone(
    alloc: Global,
    out: &mut Vec<u8>,
    report: &[u8],
    parts: &[ShownPart],
    found: &Match,
) -> Result<(), NoMemory>
    ensures { OnOk result (out.new.items ≡ out.old.items ++ alone_text (lone_histogram report.now) parts.now found.now) }
{
    if found.other.is_some() {
        return Ok(());
    }
    match parts.get(found.place) {
        Some(part) => add_lone_histogram(alloc, out, report, part),
        None => Ok(()),
    }
}

/// Returns the lines of the histograms that stand in one report alone.
fn lone_histograms(
    alloc: Global,
    report: &[u8],
    parts: &[ShownPart],
    matches: &[Match],
) -> Result<Vec<u8>, NoMemory>
    ensures { IfOk result (λ lines. lines.items ≡ lone_histograms report.now parts.now matches.now) }
{
    let mut lines = Vec::new(alloc);
    for found in matches {
        add_if_alone(alloc, &mut lines, report, parts, found)?;
    }
    Ok(lines)
}

/// Adds a table of rows, if there are any.
fn add_table(out: &mut Vec<u8>, rows: &[u8]) -> Result<(), NoMemory>
    ensures { OnOk result (out.new.items ≡ out.old.items ++ sums_table rows.now) }
{
    if rows.is_empty() {
        return Ok(());
    }
    add_heading(out, b"metric, focus")?;
    out.extend_from_slice(rows)
}

/// Adds rows, how many sums are the same, and lines on what stands in one report alone, unless nothing differs.
#[tactic(auto, unfolding(crate::specs::Sums::sums_section))]
fn add_section(
    alloc: Global,
    out: &mut Vec<u8>,
    rows: &[u8],
    same: usize,
    gone: &[u8],
    added: &[u8],
) -> Result<(), NoMemory>
    ensures { OnOk result (out.new.items ≡ out.old.items ++ sums_section rows.now same gone.now added.now) }
{
    if rows.is_empty() && gone.is_empty() && added.is_empty() {
        return Ok(());
    }
    add_table(out, rows)?;
    add_same_sums(alloc, out, same)?;
    out.extend_from_slice(gone)?;
    out.extend_from_slice(added)
}

/// Adds what differs between the histograms.
///
/// # Errors
///
/// `NoMemory` where memory runs out.
#[tactic(auto, unfolding(crate::specs::Sums::histograms_diff))]
pub fn add_histograms_diff(
    alloc: Global,
    out: &mut Vec<u8>,
    olds: &[ShownPart],
    news: &[ShownPart],
) -> Result<(), NoMemory>
    ensures { OnOk result (out.new.items ≡ out.old.items ++ histograms_diff olds.now news.now) }
{
    let names = shown_names(alloc, olds)?;
    let others = shown_names(alloc, news)?;
    let matches = matches_of(alloc, &names, &others)?;
    let back = matches_of(alloc, &others, &names)?;
    let rows = sums_rows(alloc, olds, news, &matches)?;
    let same = count_same_sums(alloc, olds, news, &matches)?;
    let gone = lone_histograms(alloc, b"OLD", olds, &matches)?;
    let added = lone_histograms(alloc, b"NEW", news, &back)?;
    add_section(alloc, out, &rows, same, &gone, &added)
}
