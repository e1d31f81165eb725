//! The command `advise`.

ghost use Rattle.std.specs.Prelude.{◌≡◌};
ghost use Rattle.advice.specs.Reading.{verdicts_of};
ghost use Rattle.commands.specs.Advising.{advice_texts, IsAdviseDue};
ghost use Rattle.commands.specs.FileReadings.{reads, Looks};
ghost use Rattle.refusals.specs.Refusals.{Comes};

use crate::files::read_file;
use crate::texts::Texts;
use advice::{ReportError, ReportFault, read_verdicts};
use outside::Files;
use refusals::{Fault, Refusal};
use std::alloc::Global;

/// The greatest length of a report in bytes.
pub const REPORT_LIMIT: u64 = 33_554_432;

/// Returns what the bytes of a report advise.
fn advised(alloc: Global, report: &[u8]) -> Result<Texts, Refusal>
    ensures { Comes result (λ texts. texts ≡ advice_texts (verdicts_of report.now)) }
{
    match read_verdicts(alloc, report) {
        Ok(verdicts) => {
            let text = advice::advise(alloc, &verdicts)?;
            Ok(Texts::output(alloc, text))
        }
        Err(ReportError::Fault(ReportFault::BadReport(place))) => {
            Err(Refusal::Fault(Fault::BadReport(place)))
        }
        Err(ReportError::NoMemory) => Err(Refusal::NoMemory),
    }
}

/// Returns what is due for `advise`.
///
/// # Errors
///
/// `Refusal::NoMemory` where memory runs out, or the first fault that is due.
pub fn advise<F: Files>(alloc: Global, name: &str, files: &mut F) -> Result<Texts, Refusal>
    ensures due { Comes result (IsAdviseDue name.now (reads (F.holds files.old) (F.faults files.old) (F.faults files.new))) }
    ensures looks { Looks F.holds F.faults files.old files.new result }
{
    let too_long = Fault::BadReport(REPORT_LIMIT);
    let report = read_file(alloc, files, name, REPORT_LIMIT, too_long)?;
    advised(alloc, report.as_slice())
}
