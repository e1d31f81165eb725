//! The lines of a report on wishes that were refused, and on histograms.

ghost use Rattle.std.specs.Prelude.{◌≡◌, ◌++◌, ◌∷◌, [], bytes_eq, length, IfOk, IfSome, IsTrue, OnOk};
ghost use Rattle.report.specs.ShownTexts.{bin_line};
ghost use Rattle.report_lines.specs.Lines.{bin_of_line};
ghost use Rattle.report_reader.specs.Drafts.{after_bin, after_histogram, after_refused, with_bin, with_histogram};
ghost use Rattle.report_reader.specs.Taking.{IsLineTaken};

use crate::bin_lines::numbered_bin;
use crate::draft::Draft;
use crate::due::Due;
use crate::written::{is_histogram, is_refused};
use pn_types::NoMemory;
use report::ShownPart;
use report_lines::{bins_of_line, histogram_of_line, refused_of_line};
use std::alloc::Global;

/// Takes the next bin of a histogram. Returns whether the line was right.
fn take_bin(part: &mut ShownPart, line: &[u8]) -> Result<bool, NoMemory>
    ensures right { IfOk result (λ right. right ≡ bytes_eq (line.now ++ 10 ∷ []) (bin_line (length part.old.bins) (bin_of_line line.now))) }
    ensures bin { IfOk result (λ right. IsTrue right → part.new ≡ with_bin part.old line.now) }
{
    let Some(bin) = numbered_bin(part.bins.as_slice().len(), line) else {
        return Ok(false);
    };
    part.bins.push(bin)?;
    Ok(true)
}

impl Draft {
    /// Takes a wish that was refused. Returns whether the line was right.
    pub(crate) fn after_refused(&mut self, alloc: Global, line: &[u8]) -> Result<bool, NoMemory>
        ensures { IfOk result (λ right. IsLineTaken right self.new (after_refused self.old line.now)) }
    {
        if !self.shown.as_slice().is_empty() {
            return Ok(false);
        }
        let part = refused_of_line(alloc, line)?;
        if !is_refused(alloc, &part, line)? {
            return Ok(false);
        }
        self.refused.push(part)?;
        Ok(true)
    }

    /// Says that so many bins are left of the histogram that was begun.
    fn leave_bins(&mut self, left: u64) -> Result<(), NoMemory>
        ensures { OnOk result (IfSome self.old.begun (λ part. self.new ≡ with_histogram self.old left part)) }
    {
        if left > 0 {
            self.due = Due::Bins(left);
            return Ok(());
        }
        if let Some(part) = self.begun.take() {
            self.shown.push(part)?;
        }
        self.due = Due::Shown;
        Ok(())
    }

    /// Takes the first line of a histogram. Returns whether the line was right.
    #[tactic(auto, using(crate::proofs::ShownRead::same_put))]
    pub(crate) fn after_histogram(&mut self, alloc: Global, line: &[u8]) -> Result<bool, NoMemory>
        ensures { IfOk result (λ right. IsLineTaken right self.new (after_histogram self.old line.now)) }
    {
        let bins = bins_of_line(line);
        let part = histogram_of_line(alloc, line)?;
        if !is_histogram(alloc, bins, &part, line)? {
            return Ok(false);
        }
        self.begun = Some(part);
        self.leave_bins(bins)?;
        Ok(true)
    }

    /// Takes a bin, after which so many are left. Returns whether the line was right.
    pub(crate) fn after_bin(&mut self, left: u64, line: &[u8]) -> Result<bool, NoMemory>
        ensures { IfOk result (λ right. IsLineTaken right self.new (after_bin self.old left line.now)) }
    {
        let Some(part) = &mut self.begun else {
            return Ok(false);
        };
        if !take_bin(part, line)? {
            return Ok(false);
        }
        self.leave_bins(left)?;
        Ok(true)
    }
}
