//! The lines of a report on the run.

ghost use Rattle.std.specs.Prelude.{◌≡◌, ◌+◌, ◌≤◌, Some, length, IfOk, OnOk};
ghost use Rattle.report_reader.specs.Drafts.{after_hart, after_length, after_numbers_line, after_output, after_title};
ghost use Rattle.report_reader.specs.Taking.{IsLineTaken};

use crate::draft::Draft;
use crate::due::Due;
use crate::written::{is_hart, is_length, is_numbers, is_same};
use advice::number_at;
use pn_types::{NoMemory, Text};
use report_lines::{hart_of_line, short_at};
use std::alloc::Global;

/// How many harts there may be.
const MOST_HARTS: u64 = 32;

impl Draft {
    /// Takes the name of the format. Returns whether the line was right.
    pub(crate) fn after_title(&mut self, line: &[u8]) -> bool
        ensures { IsLineTaken result self.new (after_title self.old line.now) }
    {
        if is_same(line, b"paradyn report 1") {
            self.due = Due::Numbers;
            return true;
        }
        false
    }

    /// Takes the numbers of the whole run. Returns whether the line was right.
    pub(crate) fn after_numbers_line(
        &mut self,
        alloc: Global,
        line: &[u8],
    ) -> Result<bool, NoMemory>
        ensures { IfOk result (λ right. IsLineTaken right self.new (after_numbers_line self.old line.now)) }
    {
        let harts = number_at(1, line);
        if harts > MOST_HARTS {
            return Ok(false);
        }
        let ticks = number_at(3, line);
        let samples = number_at(5, line);
        let skipped = short_at(7, line);
        if !is_numbers(alloc, harts, ticks, samples, skipped, line)? {
            return Ok(false);
        }
        self.due = Due::Harts(harts);
        self.ticks = ticks;
        self.samples = samples;
        self.skipped = skipped;
        Ok(true)
    }

    /// Takes a hart, after which so many are left. Returns whether the line was right.
    pub(crate) fn after_hart(
        &mut self,
        alloc: Global,
        left: u64,
        line: &[u8],
    ) -> Result<bool, NoMemory>
        requires { length self.old.harts ≤ 32 }
        ensures { IfOk result (λ right. IsLineTaken right self.new (after_hart self.old left line.now)) }
    {
        let part = hart_of_line(line);
        let number = self.harts.as_slice().len() as u32;
        if !is_hart(alloc, number, &part, line)? {
            return Ok(false);
        }
        self.harts.push(part)?;
        self.due = Due::Harts(left);
        Ok(true)
    }

    /// Takes the length of the output. Returns whether the line was right.
    pub(crate) fn after_length(&mut self, alloc: Global, line: &[u8]) -> Result<bool, NoMemory>
        ensures { IfOk result (λ right. IsLineTaken right self.new (after_length self.old line.now)) }
    {
        let count = number_at(1, line);
        if !is_length(alloc, count, line)? {
            return Ok(false);
        }
        self.due = Due::Output(count);
        Ok(true)
    }

    /// Takes the output.
    pub(crate) fn after_output(&mut self, alloc: Global, line: &[u8]) -> Result<(), NoMemory>
        ensures { OnOk result (after_output self.old line.now ≡ Some self.new) }
    {
        self.output = Text::from_vec(Vec::from_slice(alloc, line)?);
        self.due = Due::Shown;
        Ok(())
    }
}
