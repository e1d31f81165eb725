//! Reading a report.

ghost use Rattle.std.specs.Prelude.{◌≡◌, ◌<◌, ◌^◌, Err, IfOk, MatchResult, OnOk, length, sum_by};
ghost use Rattle.advice.specs.Reading.{ReportRefuses};
ghost use Rattle.report_reader.specs.Reading.{report_at_end, report_from, report_in, ReadsReport};
ghost use Rattle.report_reader.specs.Taking.{HasFewHarts};

use crate::draft::Draft;
use crate::whole_report::Report;
use advice::{ReportError, ReportFault};
use std::alloc::Global;

/// Takes all lines, up to the end.
fn take_lines(alloc: Global, draft: &mut Draft, bytes: &[u8]) -> Result<(), ReportError>
    requires { HasFewHarts draft.old }
    ensures told { MatchResult result
        (λ _. report_from draft.old 0 0 bytes.now ≡ report_at_end draft.new (length bytes.now))
        (λ e. ReportRefuses e (λ fault. report_from draft.old 0 0 bytes.now ≡ Err fault)) }
    ensures harts { OnOk result (HasFewHarts draft.new) }
{
    let mut at = 0;
    'lines: while at < bytes.len() {
        let Some(line) = draft.due.first_due_line(&bytes[at..]) else {
            return Err(ReportError::Fault(ReportFault::BadReport(at as u64)));
        };
        if !draft.after(alloc, line)? {
            return Err(ReportError::Fault(ReportFault::BadReport(at as u64)));
        }
        at += line.len() + 1;
    }
    Ok(())
}

/// Returns the report that bytes are. Its harts' ticks together are below 2^64.
///
/// # Errors
///
/// Out of memory, or a fault: at the first byte of the first line that isn't as the report of any run has it there, at the
/// end where a line is missing, or at the second line where the ticks that it tells aren't those of the harts together.
pub fn read_report(alloc: Global, bytes: &[u8]) -> Result<Report, ReportError>
    ensures told { ReadsReport result (report_in bytes.now) }
    ensures ticks { IfOk result (λ report. sum_by (λ part. part.ticks) report.parts.harts < 2 ^ 64) }
{
    let mut draft = Draft::blank(alloc);
    take_lines(alloc, &mut draft, bytes)?;
    match draft.fault(bytes.len() as u64) {
        Some(fault) => Err(ReportError::Fault(fault)),
        None => Ok(draft.into_report()),
    }
}
