//! Reading the verdicts of a report.

ghost use Rattle.std.specs.Prelude.{◌≡◌, ◌++◌, IfOk, OnOk};
ghost use Rattle.std.specs.List.{All};
ghost use Rattle.std.specs.Option.{option_to_list};
ghost use Rattle.advice.specs.Advice.{HasTicks};
ghost use Rattle.advice.specs.Reading.{verdicts_of, ReadsAs};

use crate::due::Due;
use crate::fault::{ReportError, ReportFault};
use crate::verdict::Verdict;
use pn_types::NoMemory;
use std::alloc::Global;

/// Adds the verdict of a line that tells one.
fn add_told(verdicts: &mut Vec<Verdict>, told: Option<Verdict>) -> Result<(), NoMemory>
    ensures { OnOk result (verdicts.new.items ≡ verdicts.old.items ++ option_to_list told) }
{
    if let Some(verdict) = told {
        verdicts.push(verdict)?;
    }
    Ok(())
}

/// Returns the verdicts on the nodes of a report's search, in their order; none where it has no search.
///
/// # Errors
///
/// Out of memory, or a fault at the first byte of the first line that doesn't have the form that is due, or at the end
/// where a line is missing.
pub fn read_verdicts(alloc: Global, report: &[u8]) -> Result<Vec<Verdict>, ReportError>
    ensures told { ReadsAs result (verdicts_of report.now) }
    ensures ticks { IfOk result (λ verdicts. All HasTicks verdicts.items) }
{
    let mut verdicts = Vec::new(alloc);
    let mut due = Due::Title;
    let mut at = 0;
    'lines: while at < report.len() {
        let Some(line) = due.first_line(&report[at..]) else {
            return Err(ReportError::Fault(ReportFault::BadReport(at as u64)));
        };
        let Some(next) = due.after(line) else {
            return Err(ReportError::Fault(ReportFault::BadReport(at as u64)));
        };
        add_told(&mut verdicts, due.told_in(alloc, line)?)?;
        due = next;
        at += line.len() + 1;
    }
    if due.may_end() {
        Ok(verdicts)
    } else {
        Err(ReportError::Fault(ReportFault::BadReport(at as u64)))
    }
}
