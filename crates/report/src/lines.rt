//! The text of a report.

ghost use Rattle.std.specs.Prelude.{◌≡◌, ◌++◌, ◌≤◌, ◌<◌, ◌^◌, length, OnOk, IfOk, sum_by};
ghost use Rattle.report.specs.Text.{counts_line, hart_line, hart_lines, numbers_line, output_lines, report_text};

use crate::parts::{HartPart, ReportParts};
use crate::search_lines::add_search;
use crate::shown_lines::{add_all_refused, add_all_shown};
use pn_types::NoMemory;
use std::alloc::Global;

/// The ticks of all harts together.
fn total_ticks(parts: &[HartPart]) -> u64
    requires { sum_by (λ part. part.ticks) parts.now < 2 ^ 64 }
    ensures { result ≡ sum_by (λ part. part.ticks) parts.now }
{
    let mut total = 0;
    for part in parts {
        total += part.ticks;
    }
    total
}

/// Appends the line of the numbers of the harts, of their ticks together, of the samples and of the function symbols that are no procedures.
///
/// # Errors
///
/// `NoMemory` where memory runs out.
pub fn add_numbers(
    alloc: Global,
    out: &mut Vec<u8>,
    harts: usize,
    ticks: u64,
    samples: u64,
    skipped: u32,
) -> Result<(), NoMemory>
    ensures { OnOk result (out.new.items ≡ out.old.items ++ numbers_line harts ticks samples skipped) }
{
    let line = format!(in alloc;
        "harts {harts} ticks {ticks} samples {samples} skipped {skipped}\n"
    )?;
    out.extend_from_slice(line.as_bytes())
}

/// The line of the numbers of the whole run.
fn add_counts(
    alloc: Global,
    out: &mut Vec<u8>,
    parts: &ReportParts,
    skipped: u32,
) -> Result<(), NoMemory>
    requires { sum_by (λ part. part.ticks) parts.now.harts < 2 ^ 64 }
    ensures { OnOk result (out.new.items ≡ out.old.items ++ counts_line parts.now skipped) }
{
    let harts = parts.harts.as_slice().len();
    let ticks = total_ticks(parts.harts.as_slice());
    add_numbers(alloc, out, harts, ticks, parts.samples, skipped)
}

/// Appends the line of a hart.
///
/// # Errors
///
/// `NoMemory` where memory runs out.
pub fn add_hart(
    alloc: Global,
    out: &mut Vec<u8>,
    number: u32,
    part: &HartPart,
) -> Result<(), NoMemory>
    ensures { OnOk result (out.new.items ≡ out.old.items ++ hart_line number part.now) }
{
    let ticks = part.ticks;
    let stop = part.stop;
    let pc = part.pc;
    let line = format!(in alloc; "hart {number} ticks {ticks} {stop} at 0x{pc:x}\n")?;
    out.extend_from_slice(line.as_bytes())
}

/// Adds the lines of all harts.
///
/// # Errors
///
/// `NoMemory` where memory runs out.
pub fn add_harts(alloc: Global, out: &mut Vec<u8>, parts: &[HartPart]) -> Result<(), NoMemory>
    requires { length parts.now < 2 ^ 32 }
    ensures { OnOk result (out.new.items ≡ out.old.items ++ hart_lines 0 parts.now) }
{
    for (number, part) in parts.iter().enumerate() {
        add_hart(alloc, out, number as u32, part)?;
    }
    Ok(())
}

/// The program's output after its length, and a line's end.
fn add_output(alloc: Global, out: &mut Vec<u8>, output: &[u8]) -> Result<(), NoMemory>
    ensures { OnOk result (out.new.items ≡ out.old.items ++ output_lines output.now) }
{
    let count = output.len();
    let line = format!(in alloc; "output {count}\n")?;
    out.extend_from_slice(line.as_bytes())?;
    out.extend_from_slice(output)?;
    out.extend_from_slice(b"\n")
}

/// Returns the text of a report. The number `skipped` is that of the function symbols that are no procedures. The harts'
/// ticks together are below 2^64.
///
/// # Errors
///
/// `NoMemory` where memory runs out.
pub fn report(alloc: Global, parts: &ReportParts, skipped: u32) -> Result<Vec<u8>, NoMemory>
    requires harts { length parts.now.harts < 2 ^ 32 }
    requires ticks { sum_by (λ part. part.ticks) parts.now.harts < 2 ^ 64 }
    ensures { IfOk result (λ text. text.items ≡ report_text parts.now skipped) }
{
    let mut out = Vec::new(alloc);
    out.extend_from_slice(b"paradyn report 1\n")?;
    add_counts(alloc, &mut out, parts, skipped)?;
    add_harts(alloc, &mut out, parts.harts.as_slice())?;
    add_output(alloc, &mut out, parts.output.bytes())?;
    add_all_refused(alloc, &mut out, parts.refused.as_slice())?;
    add_all_shown(alloc, &mut out, parts.shown.as_slice())?;
    if let Some(search) = &parts.search {
        add_search(alloc, &mut out, search)?;
    }
    Ok(out)
}
