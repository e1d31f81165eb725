//! The text of the samples that each view was given.

ghost use Rattle.std.specs.Prelude.{◌≡◌, ◌++◌, flat_map, map, IfOk, OnOk};
ghost use Rattle.report.specs.ShownTexts.{pair_text};
ghost use Rattle.visi_run.specs.Texts.{first_count, line_at, sample_line, view_text, view_texts, views_line, visi_text};

use pn_types::{NoMemory, Text};
use report::ShownPart;
use session_spec::LatestSample;
use std::alloc::Global;

/// Appends a metric's name and a focus.
fn add_pair(out: &mut Vec<u8>, name: &Text, focus: &Text) -> Result<(), NoMemory>
    ensures { OnOk result (out.new.items ≡ out.old.items ++ pair_text name.now focus.now) }
{
    out.extend_from_slice(name.bytes())?;
    out.extend_from_slice(b" ")?;
    out.extend_from_slice(focus.bytes())
}

/// Appends the line of a sample of what is shown.
fn add_sample_of(
    alloc: Global,
    out: &mut Vec<u8>,
    part: &ShownPart,
    sample: &LatestSample,
) -> Result<(), NoMemory>
    ensures { OnOk result (out.new.items ≡ out.old.items ++ line_at part.now sample.now) }
{
    out.extend_from_slice(b"sample ")?;
    add_pair(out, &part.metric, &part.focus)?;
    let from = sample.from;
    let to = sample.to;
    let sum = sample.sum;
    let rest = format!(in alloc; " from {from} to {to} value {sum}\n")?;
    out.extend_from_slice(rest.as_bytes())
}

/// Appends the line of a sample.
fn add_sample(
    alloc: Global,
    out: &mut Vec<u8>,
    shown: &[ShownPart],
    sample: &LatestSample,
) -> Result<(), NoMemory>
    ensures { OnOk result (out.new.items ≡ out.old.items ++ sample_line shown.now sample.now) }
{
    match shown.get(sample.shown as usize) {
        Some(part) => add_sample_of(alloc, out, part, sample),
        None => Ok(()),
    }
}

/// Appends the lines of all samples of a view.
fn add_samples(
    alloc: Global,
    out: &mut Vec<u8>,
    shown: &[ShownPart],
    samples: &[LatestSample],
) -> Result<(), NoMemory>
    ensures { OnOk result (out.new.items ≡ out.old.items ++ flat_map (sample_line shown.now) samples.now) }
{
    for sample in samples {
        add_sample(alloc, out, shown, sample)?;
    }
    Ok(())
}

/// Appends a view's number and its samples.
fn add_view(
    alloc: Global,
    out: &mut Vec<u8>,
    shown: &[ShownPart],
    number: usize,
    samples: &[LatestSample],
) -> Result<(), NoMemory>
    ensures { OnOk result (out.new.items ≡ out.old.items ++ view_text shown.now number samples.now) }
{
    let line = format!(in alloc; "view {number}\n")?;
    out.extend_from_slice(line.as_bytes())?;
    add_samples(alloc, out, shown, samples)
}

/// Appends all views.
fn add_views(
    alloc: Global,
    out: &mut Vec<u8>,
    shown: &[ShownPart],
    lists: &[Vec<LatestSample>],
) -> Result<(), NoMemory>
    ensures { OnOk result (out.new.items ≡ out.old.items ++ view_texts shown.now 0 (map (λ v. v.items) lists.now)) }
{
    for (number, list) in lists.iter().enumerate() {
        add_view(alloc, out, shown, number, list.as_slice())?;
    }
    Ok(())
}

/// Returns how many samples the first view was given.
pub fn count_first(lists: &[Vec<LatestSample>]) -> usize
    ensures { result ≡ first_count (map (λ v. v.items) lists.now) }
{
    match lists.first() {
        Some(list) => list.len(),
        None => 0,
    }
}

/// Appends the numbers of the views and of the samples.
fn add_counts(alloc: Global, out: &mut Vec<u8>, lists: &[Vec<LatestSample>]) -> Result<(), NoMemory>
    ensures { OnOk result (out.new.items ≡ out.old.items ++ views_line (map (λ v. v.items) lists.now)) }
{
    let views = lists.len();
    let samples = count_first(lists);
    let line = format!(in alloc; "views {views} samples {samples}\n")?;
    out.extend_from_slice(line.as_bytes())
}

/// Returns the text of what each view was given, where `shown` is shown.
///
/// # Errors
///
/// `NoMemory` where memory runs out.
pub fn visi_text(
    alloc: Global,
    shown: &[ShownPart],
    lists: &[Vec<LatestSample>],
) -> Result<Vec<u8>, NoMemory>
    ensures { IfOk result (λ text. text.items ≡ visi_text shown.now (map (λ v. v.items) lists.now)) }
{
    let mut out = Vec::new(alloc);
    out.extend_from_slice(b"paradyn visi 1\n")?;
    add_counts(alloc, &mut out, lists)?;
    add_views(alloc, &mut out, shown, lists)?;
    Ok(out)
}
