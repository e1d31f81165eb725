//! The whole report.

ghost use Rattle.std.specs.Prelude.{◌≡◌, ◌++◌, ◌∷◌, [], IfOk, OnOk, codes};
ghost use Rattle.json.specs.Token.{key};
ghost use Rattle.json.specs.Tree.{json_tokens};
ghost use Rattle.report_json.specs.Laws.{IsRead};
ghost use Rattle.report_json.specs.Report.{report_json, report_value};

use crate::members::{add_bytes, add_natural, add_string, begin_object, end_object};
use crate::run::add_harts;
use crate::search::add_search;
use crate::shown::{add_all_refused, add_all_shown};
use json::Writer;
use pn_types::NoMemory;
use report::ReportParts;
use std::alloc::Global;

/// Adds a report.
#[tactic(auto, unfolding(crate::specs::Report::report_value))]
fn add_report(
    alloc: Global,
    out: &mut Writer,
    skipped: u32,
    parts: &ReportParts,
) -> Result<(), NoMemory>
    ensures before { OnOk result (out.new.before ≡ out.old.before) }
    ensures tokens { OnOk result (out.new.tokens ≡ out.old.tokens ++ json_tokens (report_value skipped parts.now)) }
{
    begin_object(out)?;
    add_string(out, "format", "paradyn report 1")?;
    add_natural(out, "skipped", skipped as u64)?;
    add_natural(out, "samples", parts.samples)?;
    add_harts(alloc, out, parts.harts.as_slice())?;
    add_bytes(alloc, out, "output", parts.output.bytes())?;
    add_all_refused(alloc, out, parts.refused.as_slice())?;
    add_all_shown(alloc, out, parts.shown.as_slice())?;
    add_search(alloc, out, &parts.search)?;
    end_object(out)
}

/// Returns a report as one object of JSON, without spaces, and an LF. Bytes that a program or a configuration wrote (its output,
/// and names, foci and units) are texts with a character for each byte, that of its number, from U+0000 to U+00FF: so any
/// bytes are valid UTF-8, and the numbers of the characters are the bytes again. Numbers below 2^64 are integers; the sums
/// of bins are signed ones of 64 bits. The number `skipped` is that of the function symbols that are no procedures.
///
/// # Errors
///
/// `NoMemory` where memory runs out.
#[tactic(auto, using(crate::proofs::Depths::line_is_read), unfolding(crate::specs::Report::report_json, crate::specs::Report::report_line))]
pub fn report_json(alloc: Global, skipped: u32, parts: &ReportParts) -> Result<Vec<u8>, NoMemory>
    ensures text { IfOk result (λ text. text.items ≡ report_json skipped parts.now) }
    ensures read { OnOk result (IsRead skipped parts.now) }
{
    let mut out = Writer::new(Vec::new(alloc));
    add_report(alloc, &mut out, skipped, parts)?;
    let mut text = out.into_inner();
    text.push(b'\n')?;
    Ok(text)
}
