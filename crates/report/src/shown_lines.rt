//! The lines of wishes that were refused, and of histograms.

ghost use Rattle.std.specs.Prelude.{◌≡◌, ◌++◌, ◌<◌, ◌^◌, if◌then◌else◌, codes, flat_map, length, OnOk};
ghost use Rattle.std.specs.List.{All};
ghost use Rattle.report.specs.ShownTexts.{bin_line, bin_lines, from_text, histogram_head, histogram_line, pair_text, refused_line, shown_lines};

use crate::parts::{RefusedPart, ShownPart};
use fold_hist::Bin;
use pn_types::{NoMemory, Text};
use std::alloc::Global;

/// Appends the name of a metric or of a hypothesis, at a focus.
///
/// # Errors
///
/// `NoMemory` where memory runs out.
pub fn add_pair(out: &mut Vec<u8>, name: &Text, focus: &Text) -> Result<(), NoMemory>
    ensures { OnOk result (out.new.items ≡ out.old.items ++ pair_text name.now focus.now) }
{
    out.extend_from_slice(name.bytes())?;
    out.extend_from_slice(b" ")?;
    out.extend_from_slice(focus.bytes())
}

/// What was wished.
fn add_wish(out: &mut Vec<u8>, show: bool) -> Result<(), NoMemory>
    ensures { OnOk result (out.new.items ≡ out.old.items ++ (if show then codes "show " else codes "drop ")) }
{
    if show {
        out.extend_from_slice(b"show ")
    } else {
        out.extend_from_slice(b"drop ")
    }
}

/// Appends the line of a wish that was refused.
///
/// # Errors
///
/// `NoMemory` where memory runs out.
pub fn add_refused(alloc: Global, out: &mut Vec<u8>, part: &RefusedPart) -> Result<(), NoMemory>
    ensures { OnOk result (out.new.items ≡ out.old.items ++ refused_line part.now) }
{
    out.extend_from_slice(b"refused ")?;
    add_wish(out, part.show)?;
    add_pair(out, &part.metric, &part.focus)?;
    let at = part.at;
    let cause = part.cause;
    let rest = format!(in alloc; " at {at}: {cause}\n")?;
    out.extend_from_slice(rest.as_bytes())
}

/// Appends the lines of the wishes that were refused.
///
/// # Errors
///
/// `NoMemory` where memory runs out.
pub fn add_all_refused(
    alloc: Global,
    out: &mut Vec<u8>,
    parts: &[RefusedPart],
) -> Result<(), NoMemory>
    ensures { OnOk result (out.new.items ≡ out.old.items ++ flat_map refused_line parts.now) }
{
    for part in parts {
        add_refused(alloc, out, part)?;
    }
    Ok(())
}

/// From when on something was shown.
fn add_from(alloc: Global, out: &mut Vec<u8>, from: Option<u64>) -> Result<(), NoMemory>
    ensures { OnOk result (out.new.items ≡ out.old.items ++ from_text from) }
{
    match from {
        None => out.extend_from_slice(b"none"),
        Some(from) => {
            let text = format!(in alloc; "{from}")?;
            out.extend_from_slice(text.as_bytes())
        }
    }
}

/// Appends the first line of a histogram of so many bins.
///
/// # Errors
///
/// `NoMemory` where memory runs out.
pub fn add_histogram_head(
    alloc: Global,
    out: &mut Vec<u8>,
    bins: usize,
    part: &ShownPart,
) -> Result<(), NoMemory>
    ensures { OnOk result (out.new.items ≡ out.old.items ++ histogram_head bins part.now) }
{
    out.extend_from_slice(b"histogram ")?;
    add_pair(out, &part.metric, &part.focus)?;
    out.extend_from_slice(b" units ")?;
    out.extend_from_slice(part.units.bytes())?;
    out.extend_from_slice(b" from ")?;
    add_from(alloc, out, part.from)?;
    let width = part.width;
    let rest = format!(in alloc; " bins {bins} width {width}\n")?;
    out.extend_from_slice(rest.as_bytes())
}

/// The first line of a histogram.
fn add_histogram(alloc: Global, out: &mut Vec<u8>, part: &ShownPart) -> Result<(), NoMemory>
    ensures { OnOk result (out.new.items ≡ out.old.items ++ histogram_line part.now) }
{
    add_histogram_head(alloc, out, part.bins.as_slice().len(), part)
}

/// Appends the line of a bin.
///
/// # Errors
///
/// `NoMemory` where memory runs out.
pub fn add_bin(alloc: Global, out: &mut Vec<u8>, number: usize, bin: &Bin) -> Result<(), NoMemory>
    ensures { OnOk result (out.new.items ≡ out.old.items ++ bin_line number bin.now) }
{
    let from = bin.from;
    let to = bin.to;
    let sum = bin.sum;
    let line = format!(in alloc; "bin {number} from {from} to {to} value {sum}\n")?;
    out.extend_from_slice(line.as_bytes())
}

/// The lines of all bins.
fn add_bins(alloc: Global, out: &mut Vec<u8>, bins: &[Bin]) -> Result<(), NoMemory>
    ensures { OnOk result (out.new.items ≡ out.old.items ++ bin_lines 0 bins.now) }
{
    for (number, bin) in bins.iter().enumerate() {
        add_bin(alloc, out, number, bin)?;
    }
    Ok(())
}

/// The lines of one histogram.
fn add_shown(alloc: Global, out: &mut Vec<u8>, part: &ShownPart) -> Result<(), NoMemory>
    ensures { OnOk result (out.new.items ≡ out.old.items ++ shown_lines part.now) }
{
    add_histogram(alloc, out, part)?;
    add_bins(alloc, out, part.bins.as_slice())
}

/// Appends the lines of all histograms.
///
/// # Errors
///
/// `NoMemory` where memory runs out.
pub fn add_all_shown(alloc: Global, out: &mut Vec<u8>, parts: &[ShownPart]) -> Result<(), NoMemory>
    ensures { OnOk result (out.new.items ≡ out.old.items ++ flat_map shown_lines parts.now) }
{
    for part in parts {
        add_shown(alloc, out, part)?;
    }
    Ok(())
}
