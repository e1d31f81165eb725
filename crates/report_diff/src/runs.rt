//! The ticks of two runs, how their harts ended, and what their programs wrote.

ghost use Rattle.std.specs.Prelude.{◌≡◌, ◌++◌, ◌<◌, ◌^◌, [], if◌then◌else◌, nat_lt, IfOk, OnOk, slice_get, sum_by};
ghost use Rattle.std.specs.Option.{option_map_or};
ghost use Rattle.pn_types.specs.Texts.{stop_text};
ghost use Rattle.report_diff.specs.Runs.{all_ticks, are_several, has_same_end, hart_end_line, hart_label, hart_rows, hart_ticks_row, harts_diff, harts_in_both, lone_hart_line, lone_harts, ticks_table};

use crate::numbers::{add_heading, add_numbers_row};
use crate::pieces::{add_decimal, add_only_in};
use pn_types::{NoMemory, StopText};
use report::HartPart;
use std::alloc::Global;

/// Returns the name of the hart of a number.
fn hart_label(alloc: Global, number: u64) -> Result<Vec<u8>, NoMemory>
    ensures { IfOk result (λ text. text.items ≡ hart_label number) }
{
    let mut text = Vec::from_slice(alloc, b"hart ")?;
    add_decimal(alloc, &mut text, number)?;
    Ok(text)
}

/// Adds the ticks of a hart, where they differ.
#[tactic(auto, unfolding(crate::specs::Runs::hart_ticks_row))]
fn add_hart_ticks(
    alloc: Global,
    out: &mut Vec<u8>,
    number: u64,
    old: &HartPart,
    new: &HartPart,
) -> Result<(), NoMemory>
    ensures { OnOk result (out.new.items ≡ out.old.items ++ hart_ticks_row number old.now new.now) }
{
    if old.ticks == new.ticks {
        return Ok(());
    }
    let label = hart_label(alloc, number)?;
    add_numbers_row(alloc, out, old.ticks, new.ticks, &label)
}

/// Adds the ticks of a hart that stands in both, where they differ.
fn add_ticks_if_both(
    alloc: Global,
    out: &mut Vec<u8>,
    number: usize,
    old: &HartPart,
    news: &[HartPart],
) -> Result<(), NoMemory>
    ensures { OnOk result (out.new.items ≡ out.old.items ++ option_map_or (hart_ticks_row number old.now) (slice_get news.now number) []) }
{
    match news.get(number) {
        Some(new) => add_hart_ticks(alloc, out, number as u64, old, new),
        None => Ok(()),
    }
}

/// Returns the ticks of the harts that stand in both, where they differ.
fn hart_rows(alloc: Global, olds: &[HartPart], news: &[HartPart]) -> Result<Vec<u8>, NoMemory>
    ensures { IfOk result (λ rows. rows.items ≡ hart_rows olds.now news.now) }
{
    let mut rows = Vec::new(alloc);
    for (number, old) in olds.iter().enumerate() {
        add_ticks_if_both(alloc, &mut rows, number, old, news)?;
    }
    Ok(rows)
}

/// Returns the ticks of all harts together.
fn all_ticks(harts: &[HartPart]) -> u64
    requires { sum_by (λ part. part.ticks) harts.now < 2 ^ 64 }
    ensures { result ≡ all_ticks harts.now }
{
    let mut total = 0;
    for part in harts {
        total += part.ticks;
    }
    total
}

/// Returns whether a run has more than one hart.
fn are_several(olds: &[HartPart], news: &[HartPart]) -> bool
    ensures { result ≡ are_several olds.now news.now }
{
    olds.len() > 1 || news.len() > 1
}

/// Adds rows on harts, where there are several harts.
fn add_hart_rows(out: &mut Vec<u8>, several: bool, rows: &[u8]) -> Result<(), NoMemory>
    ensures { OnOk result (out.new.items ≡ out.old.items ++ (if several then rows.now else [])) }
{
    if several {
        out.extend_from_slice(rows)
    } else {
        Ok(())
    }
}

/// Adds the ticks of all harts together, and rows on harts, unless nothing differs.
#[tactic(auto, unfolding(crate::specs::Runs::ticks_table))]
fn add_ticks(
    alloc: Global,
    out: &mut Vec<u8>,
    olds: &[HartPart],
    news: &[HartPart],
    rows: &[u8],
) -> Result<(), NoMemory>
    requires old { sum_by (λ part. part.ticks) olds.now < 2 ^ 64 }
    requires new { sum_by (λ part. part.ticks) news.now < 2 ^ 64 }
    ensures { OnOk result (out.new.items ≡ out.old.items ++ ticks_table olds.now news.now rows.now) }
{
    let old = all_ticks(olds);
    let new = all_ticks(news);
    if old == new && rows.is_empty() {
        return Ok(());
    }
    add_heading(out, b"ticks")?;
    add_numbers_row(alloc, out, old, new, b"all harts")?;
    add_hart_rows(out, are_several(olds, news), rows)
}

/// Returns the text of how a hart ended.
fn stop_text(alloc: Global, stop: StopText) -> Result<Vec<u8>, NoMemory>
    ensures { IfOk result (λ text. text.items ≡ stop_text stop) }
{
    let mut text = Vec::new(alloc);
    text.extend_from_slice(format!(in alloc; "{stop}")?.as_bytes())?;
    Ok(text)
}

/// Returns whether two harts ended in the same way.
fn has_same_end(alloc: Global, old: &HartPart, new: &HartPart) -> Result<bool, NoMemory>
    ensures { IfOk result (λ same. same ≡ has_same_end old.now new.now) }
{
    let was = stop_text(alloc, old.stop)?;
    let is = stop_text(alloc, new.stop)?;
    Ok(was == is)
}

/// Adds how a hart ended, where that differs.
#[tactic(auto, unfolding(crate::specs::Runs::hart_end_line))]
fn add_hart_end(
    alloc: Global,
    out: &mut Vec<u8>,
    number: u64,
    old: &HartPart,
    new: &HartPart,
) -> Result<(), NoMemory>
    ensures { OnOk result (out.new.items ≡ out.old.items ++ hart_end_line number old.now new.now) }
{
    if has_same_end(alloc, old, new)? {
        return Ok(());
    }
    let was = old.stop;
    let is = new.stop;
    let line = format!(in alloc; "hart {number}: {was} -> {is}\n")?;
    out.extend_from_slice(line.as_bytes())
}

/// Adds how a hart ended that stands in both, where that differs.
fn add_end_if_both(
    alloc: Global,
    out: &mut Vec<u8>,
    number: usize,
    old: &HartPart,
    news: &[HartPart],
) -> Result<(), NoMemory>
    ensures { OnOk result (out.new.items ≡ out.old.items ++ option_map_or (hart_end_line number old.now) (slice_get news.now number) []) }
{
    match news.get(number) {
        Some(new) => add_hart_end(alloc, out, number as u64, old, new),
        None => Ok(()),
    }
}

/// Adds how the harts ended that stand in both, where that differs.
fn add_hart_ends(
    alloc: Global,
    out: &mut Vec<u8>,
    olds: &[HartPart],
    news: &[HartPart],
) -> Result<(), NoMemory>
    ensures { OnOk result (out.new.items ≡ out.old.items ++ harts_in_both hart_end_line news.now 0 olds.now) }
{
    for (number, old) in olds.iter().enumerate() {
        add_end_if_both(alloc, out, number, old, news)?;
    }
    Ok(())
}

/// Adds a hart that stands in one report alone.
#[tactic(auto, unfolding(crate::specs::Runs::lone_hart_line))]
fn add_lone_hart(
    alloc: Global,
    out: &mut Vec<u8>,
    report: &[u8],
    number: u64,
    part: &HartPart,
) -> Result<(), NoMemory>
    ensures { OnOk result (out.new.items ≡ out.old.items ++ lone_hart_line report.now number part.now) }
{
    let ticks = part.ticks;
    let stop = part.stop;
    let line = format!(in alloc; "hart {number}, {ticks} ticks, {stop}\n")?;
    add_only_in(out, report)?;
    out.extend_from_slice(line.as_bytes())
}

/// Adds a hart, unless its number is below that of the others.
fn add_if_lone(
    alloc: Global,
    out: &mut Vec<u8>,
    report: &[u8],
    others: usize,
    number: usize,
    part: &HartPart,
) -> Result<(), NoMemory>
    ensures { OnOk result (out.new.items
        ≡ out.old.items ++ (if nat_lt number others then [] else lone_hart_line report.now number part.now)) }
{
    if number < others {
        return Ok(());
    }
    add_lone_hart(alloc, out, report, number as u64, part)
}

/// Adds the harts of a report that stand behind so many others.
fn add_lone_harts(
    alloc: Global,
    out: &mut Vec<u8>,
    report: &[u8],
    others: usize,
    harts: &[HartPart],
) -> Result<(), NoMemory>
    ensures { OnOk result (out.new.items ≡ out.old.items ++ lone_harts report.now others 0 harts.now) }
{
    for (number, part) in harts.iter().enumerate() {
        add_if_lone(alloc, out, report, others, number, part)?;
    }
    Ok(())
}

/// Adds what differs between the harts. The ticks of all harts of a report together are below 2^64.
///
/// # Errors
///
/// `NoMemory` where memory runs out.
#[tactic(auto, unfolding(crate::specs::Runs::harts_diff))]
pub fn add_harts_diff(
    alloc: Global,
    out: &mut Vec<u8>,
    olds: &[HartPart],
    news: &[HartPart],
) -> Result<(), NoMemory>
    requires old { sum_by (λ part. part.ticks) olds.now < 2 ^ 64 }
    requires new { sum_by (λ part. part.ticks) news.now < 2 ^ 64 }
    ensures { OnOk result (out.new.items ≡ out.old.items ++ harts_diff olds.now news.now) }
{
    let rows = hart_rows(alloc, olds, news)?;
    add_ticks(alloc, out, olds, news, &rows)?;
    add_hart_ends(alloc, out, olds, news)?;
    add_lone_harts(alloc, out, b"OLD", news.len(), olds)?;
    add_lone_harts(alloc, out, b"NEW", olds.len(), news)
}
