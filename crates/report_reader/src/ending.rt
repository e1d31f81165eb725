//! The end of a report.

ghost use Rattle.std.specs.Prelude.{◌≡◌, ◌==◌, ◌<◌, ◌≤◌, ◌^◌, IsTrue, Ok, Err, length, sum_by, MatchOption};
ghost use Rattle.std.specs.Option.{option_map};
ghost use Rattle.report_reader.specs.Reading.{adds_up, report_at_end, draft_report, search_of};

use crate::draft::{Draft, SearchDraft};
use crate::whole_report::Report;
use advice::ReportFault;
use report::{HartPart, ReportParts, SearchPart};

/// The place of the second line.
const SECOND_LINE: u64 = 17;

/// The ticks of all harts together.
fn total_ticks(harts: &[HartPart]) -> u128
    requires { length harts.now ≤ 32 }
    ensures { result ≡ sum_by (λ part. part.ticks) harts.now }
{
    let mut total = 0;
    for part in harts {
        total += part.ticks as u128;
    }
    total
}

/// What was read of a search, as the report's part.
fn search_of(search: Option<SearchDraft>) -> Option<SearchPart>
    ensures { result ≡ option_map search_of search }
{
    let search = search?;
    Some(SearchPart {
        full: search.full,
        window: search.window.unwrap_or(0),
        nodes: search.nodes,
    })
}

impl Draft {
    /// Whether the ticks of the harts are those that the second line tells.
    fn adds_up(&self) -> bool
        requires { length self.now.harts ≤ 32 }
        ensures same { result ≡ adds_up self.now }
        ensures small { IsTrue result → sum_by (λ part. part.ticks) self.now.harts < 2 ^ 64 }
    {
        total_ticks(self.harts.as_slice()) == self.ticks as u128
    }

    /// What is wrong if the report ends at this place.
    pub(crate) fn fault(&self, at: u64) -> Option<ReportFault>
        requires { length self.now.harts ≤ 32 }
        ensures told { MatchOption result (report_at_end self.now at ≡ Ok (draft_report self.now)) (λ fault. report_at_end self.now at ≡ Err fault) }
        ensures ticks { MatchOption result (sum_by (λ part. part.ticks) self.now.harts < 2 ^ 64) (λ _. Unit {0}) }
    {
        if !self.due.may_end() {
            return Some(ReportFault::BadReport(at));
        }
        if !self.adds_up() {
            return Some(ReportFault::BadReport(SECOND_LINE));
        }
        None
    }

    /// The report of all that was read.
    pub(crate) fn into_report(self) -> Report
        ensures { result ≡ draft_report self }
    {
        Report {
            parts: ReportParts {
                harts: self.harts,
                samples: self.samples,
                output: self.output,
                refused: self.refused,
                shown: self.shown,
                search: search_of(self.search),
            },
            skipped: self.skipped,
        }
    }
}
