//! The command `show`.

ghost use Rattle.std.specs.Prelude.{◌≡◌, ◌<◌, ◌^◌, IfOk, sum_by};
ghost use Rattle.command_words.specs.Asked.{asked_show};
ghost use Rattle.commands.specs.FileReadings.{reads, Looks};
ghost use Rattle.commands.specs.Showing.{report_view_texts, view_in, IsShowDue};
ghost use Rattle.refusals.specs.Refusals.{Comes};
ghost use Rattle.report_reader.specs.Reading.{report_in};

use crate::advising::REPORT_LIMIT;
use crate::files::read_file;
use crate::texts::Texts;
use advice::{ReportError, ReportFault};
use command_words::{ShowRequest, ViewFormat};
use outside::Files;
use pn_types::NoMemory;
use refusals::{Fault, Refusal};
use report_csv::report_csv;
use report_json::report_json;
use report_picture::{report_html, report_svg};
use report_reader::{Report, read_report};
use report_view::report_view;
use std::alloc::Global;

/// Returns a report in a format.
fn view_in(
    alloc: Global,
    format: ViewFormat,
    columns: u32,
    report: &Report,
) -> Result<Vec<u8>, NoMemory>
    requires { sum_by (λ part. part.ticks) report.now.parts.harts < 2 ^ 64 }
    ensures { IfOk result (λ text. text.items ≡ view_in format columns report.now) }
{
    let parts = &report.parts;
    match format {
        ViewFormat::Blocks => report_view(alloc, false, columns, parts),
        ViewFormat::Ascii => report_view(alloc, true, columns, parts),
        ViewFormat::Json => report_json(alloc, report.skipped, parts),
        ViewFormat::Csv => report_csv(alloc, report.skipped, parts),
        ViewFormat::Svg => report_svg(alloc, parts),
        ViewFormat::Html => report_html(alloc, parts),
    }
}

/// Returns how the bytes of a report are shown.
fn view(alloc: Global, request: &ShowRequest<'_>, bytes: &[u8]) -> Result<Texts, Refusal>
    ensures { Comes result (λ texts. texts ≡ report_view_texts (asked_show request.now) (report_in bytes.now)) }
{
    match read_report(alloc, bytes) {
        Ok(report) => {
            let text = view_in(alloc, request.format, request.columns, &report)?;
            Ok(Texts::output(alloc, text))
        }
        Err(ReportError::Fault(ReportFault::BadReport(place))) => {
            Err(Refusal::Fault(Fault::BadReport(place)))
        }
        Err(ReportError::NoMemory) => Err(Refusal::NoMemory),
    }
}

/// Returns what is due for `show`.
///
/// # Errors
///
/// `Refusal::NoMemory` where memory runs out, or the first fault that is due.
pub fn show<F: Files>(
    alloc: Global,
    request: &ShowRequest<'_>,
    files: &mut F,
) -> Result<Texts, Refusal>
    ensures due { Comes result (IsShowDue (asked_show request.now) (reads (F.holds files.old) (F.faults files.old) (F.faults files.new))) }
    ensures looks { Looks F.holds F.faults files.old files.new result }
{
    let too_long = Fault::BadReport(REPORT_LIMIT);
    let bytes = read_file(alloc, files, request.report, REPORT_LIMIT, too_long)?;
    view(alloc, request, bytes.as_slice())
}
