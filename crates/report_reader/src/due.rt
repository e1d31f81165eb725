//! What the next line of a report must be.

ghost use Rattle.std.specs.Prelude.{◌≡◌, ◌<◌, length, IfSome};
ghost use Rattle.std.specs.Option.{option_map};
ghost use Rattle.report_reader.specs.Reading.{first_due_line, may_end};

use advice::{to_lf, to_lf_at};

/// What the next line of a report must be.
#[derive(Clone, Copy, Drop)]
pub enum Due {
    /// The format's name.
    Title,
    /// The numbers of harts, ticks, samples, and symbols that were skipped.
    Numbers,
    /// This many lines of harts, and then the length of the output.
    Harts(u64),
    /// This many bytes of output.
    Output(u64),
    /// What was refused or shown, then the search or the end.
    Shown,
    /// This many bins of the histogram that was begun.
    Bins(u64),
    /// This many nodes of the search, and then the end.
    Nodes(u64),
}

impl Due {
    /// The first line of the bytes, without its LF, or None where that is missing.
    pub(crate) fn first_due_line(self, bytes: &[u8]) -> Option<&[u8]>
        ensures line { option_map (λ line. line.now) result ≡ first_due_line self bytes.now }
        ensures within { IfSome result (λ line. length line.now < length bytes.now) }
    {
        match self {
            Due::Output(count) => to_lf_at(count, bytes),
            _ => to_lf(bytes),
        }
    }

    /// Whether a report may end where this is due.
    pub(crate) fn may_end(self) -> bool
        ensures { result ≡ may_end self }
    {
        matches!(self, Due::Shown | Due::Nodes(0))
    }
}
