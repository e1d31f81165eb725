//! The time lines of all histograms, one row for each, over one axis.

ghost use Rattle.std.specs.Prelude.{◌≡◌, ◌++◌, OnOk, flat_map};
ghost use Rattle.report_picture.specs.Escapes.{clipped, escaped, escaped_pair};
ghost use Rattle.report_picture.specs.Labels.{histogram_name};
ghost use Rattle.report_picture.specs.TimeLines.{hist_line, line_of_steps, line_or_none, lines_to, some_time_lines, step, step_height, step_top, steps, time_line, time_lines, time_lines_from, time_lines_height};

use crate::axis::{add_marks, end_of_shown, place};
use crate::escapes::{add_clipped, add_pair};
use crate::labels::{add_histogram_sums, add_number, histogram_name, steps_of};
use fold_hist::{Bin, Hist};
use pn_types::NoMemory;
use report::ShownPart;
use report_view::{bin_values, greatest, is_negative, positive};
use std::alloc::Global;

/// Returns the height of a value: how many 400ths of the greatest value there are in it.
#[tactic(auto, unfolding(crate::specs::TimeLines::step_height))]
fn step_height(most: u64, value: u64) -> u128
    ensures { result ≡ step_height most value }
{
    if most == 0 {
        0
    } else {
        value as u128 * 400 / most as u128
    }
}

/// Returns how far down a step reaches, where the greatest value is at 0 and the zero line at 400.
#[tactic(auto, unfolding(crate::specs::TimeLines::step_top))]
fn step_top(most: u64, value: u64) -> u128
    ensures { result ≡ step_top most value }
{
    if is_negative(value) {
        430
    } else {
        400u128.saturating_sub(step_height(most, value))
    }
}

/// Adds the step of a bin on an axis up to an end, where this is the greatest value.
#[tactic(auto, unfolding(crate::specs::TimeLines::step))]
fn add_step(alloc: Global, out: &mut Vec<u8>, end: u64, most: u64, bin: Bin) -> Result<(), NoMemory>
    ensures { OnOk result (out.new.items ≡ out.old.items ++ step end most bin) }
{
    let from = place(end, bin.from);
    let to = place(end, bin.to);
    let top = step_top(most, bin.sum);
    out.extend_from_slice(format!(in alloc; "M{from} 400V{top}H{to}V400z")?.as_bytes())
}

/// Adds the steps of bins.
fn add_steps(alloc: Global, out: &mut Vec<u8>, end: u64, bins: &[Bin]) -> Result<(), NoMemory>
    ensures { OnOk result (out.new.items ≡ out.old.items ++ steps end bins.now) }
{
    let values = bin_values(alloc, bins)?;
    let most = positive(greatest(&values));
    for bin in bins {
        add_step(alloc, out, end, most, *bin)?;
    }
    Ok(())
}

/// Adds the sums of a histogram, and its steps.
#[tactic(auto, unfolding(crate::specs::TimeLines::hist_line))]
fn add_hist(
    alloc: Global,
    out: &mut Vec<u8>,
    end: u64,
    part: &ShownPart,
    hist: &Hist,
) -> Result<(), NoMemory>
    ensures { OnOk result (out.new.items ≡ out.old.items ++ hist_line end part.now hist.now) }
{
    out.extend_from_slice(b"<text y=\"28\" fill=\"#555\">")?;
    add_histogram_sums(alloc, out, part, hist.width())?;
    out.extend_from_slice(
        b"</text>\n<path transform=\"translate(0 34) scale(.1)\" fill=\"#2563a8\" d=\"",
    )?;
    add_steps(alloc, out, end, hist.bins())?;
    out.extend_from_slice(b"\"/>\n<path d=\"M0 74.5H940\" stroke=\"#888\"/>\n")
}

/// Adds the sums and the steps of a histogram.
#[tactic(auto, unfolding(crate::specs::TimeLines::line_of_steps))]
fn add_line_of_steps(
    alloc: Global,
    out: &mut Vec<u8>,
    end: u64,
    part: &ShownPart,
) -> Result<(), NoMemory>
    ensures { OnOk result (out.new.items ≡ out.old.items ++ line_of_steps end part.now) }
{
    let hist = steps_of(alloc, part)?;
    add_hist(alloc, out, end, part, &hist)
}

/// Adds the line of a histogram, or that there is none.
#[tactic(auto, unfolding(crate::specs::TimeLines::line_or_none))]
fn add_line_or_none(
    alloc: Global,
    out: &mut Vec<u8>,
    end: u64,
    part: &ShownPart,
) -> Result<(), NoMemory>
    ensures { OnOk result (out.new.items ≡ out.old.items ++ line_or_none end part.now) }
{
    if part.bins.as_slice().is_empty() {
        return out.extend_from_slice(
            b"<text y=\"28\" fill=\"#555\">its instrument was never armed</text>\n",
        );
    }
    add_line_of_steps(alloc, out, end, part)
}

/// Adds a histogram's metric and its whole focus.
fn add_title(out: &mut Vec<u8>, part: &ShownPart) -> Result<(), NoMemory>
    ensures { OnOk result (out.new.items ≡ out.old.items ++ escaped_pair part.now.metric part.now.focus) }
{
    add_pair(out, part.metric.bytes(), part.focus.bytes())
}

/// Adds a histogram's name, or the beginning of a long one and dots.
fn add_name(alloc: Global, out: &mut Vec<u8>, part: &ShownPart) -> Result<(), NoMemory>
    ensures { OnOk result (out.new.items ≡ out.old.items ++ escaped (clipped (histogram_name part.now))) }
{
    let name = histogram_name(alloc, part)?;
    add_clipped(alloc, out, &name)
}

/// Adds the row of a histogram.
#[tactic(auto, unfolding(crate::specs::TimeLines::time_line))]
fn add_time_line(
    alloc: Global,
    out: &mut Vec<u8>,
    end: u64,
    number: usize,
    part: &ShownPart,
) -> Result<(), NoMemory>
    ensures { OnOk result (out.new.items ≡ out.old.items ++ time_line end number part.now) }
{
    add_number(
        alloc,
        out,
        b"<g transform=\"translate(20 ",
        number as u128 * 84 + 40,
    )?;
    out.extend_from_slice(b")\"><title>")?;
    add_title(out, part)?;
    out.extend_from_slice(
        b"</title>\n<rect width=\"940\" height=\"80\" fill=\"none\" pointer-events=\"all\"/>\n<text y=\"14\" font-weight=\"bold\">",
    )?;
    add_name(alloc, out, part)?;
    out.extend_from_slice(b"</text>\n")?;
    add_line_or_none(alloc, out, end, part)?;
    out.extend_from_slice(b"</g>\n")
}

/// Adds the rows of histograms.
fn add_rows(alloc: Global, out: &mut Vec<u8>, end: u64, parts: &[ShownPart]) -> Result<(), NoMemory>
    ensures { OnOk result (out.new.items ≡ out.old.items ++ time_lines_from end 0 parts.now) }
{
    for (number, part) in parts.iter().enumerate() {
        add_time_line(alloc, out, end, number, part)?;
    }
    Ok(())
}

/// Returns how many pixels the axis and the rows of histograms are high.
pub fn time_lines_height(parts: &[ShownPart]) -> u128
    ensures { result ≡ time_lines_height parts.now }
{
    parts.len() as u128 * 84 + 40
}

/// Adds the axis up to an end, and the rows of histograms.
#[tactic(auto, unfolding(crate::specs::TimeLines::lines_to))]
fn add_lines_to(
    alloc: Global,
    out: &mut Vec<u8>,
    end: u64,
    parts: &[ShownPart],
) -> Result<(), NoMemory>
    ensures { OnOk result (out.new.items ≡ out.old.items ++ lines_to end parts.now) }
{
    out.extend_from_slice(b"<text x=\"20\" y=\"14\" fill=\"#555\">time in ticks</text>\n")?;
    add_marks(alloc, out, time_lines_height(parts), end)?;
    add_rows(alloc, out, end, parts)
}

/// Adds the axis, and the rows of histograms.
#[tactic(auto, unfolding(crate::specs::TimeLines::some_time_lines))]
fn add_some_time_lines(
    alloc: Global,
    out: &mut Vec<u8>,
    parts: &[ShownPart],
) -> Result<(), NoMemory>
    ensures { OnOk result (out.new.items ≡ out.old.items ++ some_time_lines parts.now) }
{
    add_lines_to(alloc, out, end_of_shown(parts), parts)
}

/// Adds the time lines of all histograms, or nothing where there are none.
///
/// # Errors
///
/// `NoMemory` where memory runs out.
#[tactic(auto, unfolding(crate::specs::TimeLines::time_lines))]
pub fn add_time_lines(alloc: Global, out: &mut Vec<u8>, parts: &[ShownPart]) -> Result<(), NoMemory>
    ensures { OnOk result (out.new.items ≡ out.old.items ++ time_lines parts.now) }
{
    if parts.is_empty() {
        return Ok(());
    }
    add_some_time_lines(alloc, out, parts)
}
