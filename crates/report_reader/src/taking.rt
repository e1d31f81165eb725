//! Taking the lines of a report one after another.

ghost use Rattle.std.specs.Prelude.{◌≡◌, IfOk};
ghost use Rattle.pn_text.specs.Bytes.{begins_with};
ghost use Rattle.report_reader.specs.Drafts.{after, after_shown};
ghost use Rattle.report_reader.specs.Taking.{HasFewHarts, IsLineTaken};

use crate::draft::Draft;
use crate::due::Due;
use pn_types::NoMemory;
use std::alloc::Global;

/// Whether the line begins with this text.
fn begins(line: &[u8], text: &[u8]) -> bool
    ensures { result ≡ begins_with text.now line.now }
{
    line.starts_with(text)
}

impl Draft {
    /// Takes what was refused or shown, or the first line of the search. Returns whether the line was right.
    fn after_shown(&mut self, alloc: Global, line: &[u8]) -> Result<bool, NoMemory>
        ensures { IfOk result (λ right. IsLineTaken right self.new (after_shown self.old line.now)) }
    {
        if begins(line, b"refused ") {
            self.after_refused(alloc, line)
        } else if begins(line, b"histogram ") {
            self.after_histogram(alloc, line)
        } else {
            self.after_search(alloc, line)
        }
    }

    /// Takes the next line. Returns whether it was right.
    pub(crate) fn after(&mut self, alloc: Global, line: &[u8]) -> Result<bool, NoMemory>
        requires { HasFewHarts self.old }
        ensures { IfOk result (λ right. IsLineTaken right self.new (after self.old line.now)) }
    {
        match self.due {
            Due::Title => Ok(self.after_title(line)),
            Due::Numbers => self.after_numbers_line(alloc, line),
            Due::Harts(0) => self.after_length(alloc, line),
            Due::Harts(left) => self.after_hart(alloc, left - 1, line),
            Due::Output(_) => {
                self.after_output(alloc, line)?;
                Ok(true)
            }
            Due::Shown => self.after_shown(alloc, line),
            Due::Bins(0) | Due::Nodes(0) => Ok(false),
            Due::Bins(left) => self.after_bin(left - 1, line),
            Due::Nodes(left) => self.after_node(alloc, left - 1, line),
        }
    }
}
