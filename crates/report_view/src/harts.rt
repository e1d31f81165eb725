//! The run: its ticks, how its harts ended, and what the program wrote.

ghost use Rattle.std.specs.Prelude.{◌≡◌, ◌++◌, ◌<◌, ◌^◌, OnOk, flat_map, sum_by, take};
ghost use Rattle.report_view.specs.Harts.{hart_view_line, hart_view_lines, meaning_of_end, more_output, output_view, run_line, run_view, shown_byte, some_output, without_last_lf};

use crate::pieces::{add_counted, add_number, add_padded, number_text};
use pn_types::{NoMemory, StopText};
use report::{HartPart, ReportParts};
use std::alloc::Global;

/// Returns what an end means.
fn meaning_of_end(stop: StopText) -> &'static str
    ensures { result.now ≡ meaning_of_end stop }
{
    match stop {
        StopText::Exit(0) => "",
        StopText::Exit(_) => ": it ended itself, and told that something failed",
        StopText::Illegal => ": what stands there is no instruction",
        StopText::Break => ": an ebreak stands there",
        StopText::Misaligned => ": an address wasn't aligned",
        StopText::Access(_) => ": it touched memory that isn't there",
        StopText::TextAccess(_) => ": it touched the program's own text",
        StopText::FetchOutside => ": it left the program's text",
        StopText::Budget => ": its budget was spent",
        StopText::Cut => ": the run was cut off",
    }
}

/// Adds a hart's number, its ticks, how and where it ended, and what that means.
fn add_hart(alloc: Global, out: &mut Vec<u8>, number: u64, part: &HartPart) -> Result<(), NoMemory>
    ensures { OnOk result (out.new.items ≡ out.old.items ++ hart_view_line number part.now) }
{
    let ticks = number_text(alloc, part.ticks)?;
    add_number(alloc, out, b"  hart ", number)?;
    add_padded(out, 14, &ticks)?;
    let stop = part.stop;
    let pc = part.pc;
    let meaning = meaning_of_end(stop);
    let end = format!(in alloc; " ticks, {stop} at 0x{pc:x}{meaning}\n")?;
    out.extend_from_slice(end.as_bytes())
}

/// Adds the lines of all harts.
fn add_harts(alloc: Global, out: &mut Vec<u8>, parts: &[HartPart]) -> Result<(), NoMemory>
    ensures { OnOk result (out.new.items ≡ out.old.items ++ hart_view_lines 0 parts.now) }
{
    for (number, part) in parts.iter().enumerate() {
        add_hart(alloc, out, number as u64, part)?;
    }
    Ok(())
}

/// Returns the ticks of all harts together.
fn total_ticks(parts: &[HartPart]) -> u64
    requires { sum_by (λ part. part.ticks) parts.now < 2 ^ 64 }
    ensures { result ≡ sum_by (λ part. part.ticks) parts.now }
{
    let mut total = 0;
    for part in parts {
        total += part.ticks;
    }
    total
}

/// Adds the line of the whole run.
#[tactic(auto, unfolding(crate::specs::Harts::run_line))]
fn add_run(alloc: Global, out: &mut Vec<u8>, parts: &ReportParts) -> Result<(), NoMemory>
    requires { sum_by (λ part. part.ticks) parts.now.harts < 2 ^ 64 }
    ensures { OnOk result (out.new.items ≡ out.old.items ++ run_line parts.now) }
{
    let harts = parts.harts.as_slice();
    add_number(alloc, out, b"ticks ", total_ticks(harts))?;
    out.extend_from_slice(b" on ")?;
    add_counted(alloc, out, harts.len() as u64, b"hart", b"harts")?;
    out.extend_from_slice(b", ")?;
    add_counted(alloc, out, parts.samples, b"sample", b"samples")?;
    out.extend_from_slice(b"\n")
}

/// Adds a byte that the program wrote, as it is shown.
fn add_shown_byte(out: &mut Vec<u8>, byte: u8) -> Result<(), NoMemory>
    ensures { OnOk result (out.new.items ≡ out.old.items ++ shown_byte byte) }
{
    match byte {
        b'\n' => out.extend_from_slice(b"\n  | "),
        b' '..=b'~' => out.extend_from_slice(&[byte]),
        _ => out.extend_from_slice(b"."),
    }
}

/// Adds bytes that the program wrote, as they are shown.
fn add_shown_bytes(out: &mut Vec<u8>, bytes: &[u8]) -> Result<(), NoMemory>
    ensures { OnOk result (out.new.items ≡ out.old.items ++ flat_map shown_byte bytes.now) }
{
    for byte in bytes {
        add_shown_byte(out, *byte)?;
    }
    Ok(())
}

/// Returns the first so many bytes of an output.
fn first_bytes(output: &[u8], most: usize) -> &[u8]
    ensures { result.now ≡ take most output.now }
{
    output.split_at(output.len().min(most)).0
}

/// Returns bytes without an LF at their end.
#[tactic(auto, using(crate::proofs::LastLines::last_lf))]
fn without_last_lf(bytes: &[u8]) -> &[u8]
    ensures { result.now ≡ without_last_lf bytes.now }
{
    let Some((last, front)) = bytes.split_last() else {
        return bytes;
    };
    if *last == b'\n' { front } else { bytes }
}

/// Adds how many bytes aren't shown, where there are any.
fn add_more_output(alloc: Global, out: &mut Vec<u8>, length: u64) -> Result<(), NoMemory>
    ensures { OnOk result (out.new.items ≡ out.old.items ++ more_output length) }
{
    if length <= 1000 {
        return Ok(());
    }
    add_number(alloc, out, b"  and ", length - 1000)?;
    out.extend_from_slice(b" bytes more\n")
}

/// Adds an output that isn't empty.
fn add_some_output(alloc: Global, out: &mut Vec<u8>, output: &[u8]) -> Result<(), NoMemory>
    ensures { OnOk result (out.new.items ≡ out.old.items ++ some_output output.now) }
{
    let length = output.len() as u64;
    out.extend_from_slice(b"output ")?;
    add_counted(alloc, out, length, b"byte", b"bytes")?;
    out.extend_from_slice(b"\n  | ")?;
    add_shown_bytes(out, without_last_lf(first_bytes(output, 1000)))?;
    out.extend_from_slice(b"\n")?;
    add_more_output(alloc, out, length)
}

/// Adds what the program wrote.
#[tactic(auto, unfolding(crate::specs::Harts::output_view))]
fn add_output(alloc: Global, out: &mut Vec<u8>, output: &[u8]) -> Result<(), NoMemory>
    ensures { OnOk result (out.new.items ≡ out.old.items ++ output_view output.now) }
{
    if output.is_empty() {
        return out.extend_from_slice(b"no output\n");
    }
    add_some_output(alloc, out, output)
}

/// Adds the run. The ticks of all harts together are below 2^64.
///
/// # Errors
///
/// `NoMemory` where memory runs out.
pub fn add_run_view(alloc: Global, out: &mut Vec<u8>, parts: &ReportParts) -> Result<(), NoMemory>
    requires { sum_by (λ part. part.ticks) parts.now.harts < 2 ^ 64 }
    ensures { OnOk result (out.new.items ≡ out.old.items ++ run_view parts.now) }
{
    add_run(alloc, out, parts)?;
    add_harts(alloc, out, parts.harts.as_slice())?;
    add_output(alloc, out, parts.output.bytes())
}
