//! The lines of a report: which may follow which.

ghost use Rattle.std.specs.Prelude.{◌≡◌, ◌<◌, length, position, IfOk, IfSome};
ghost use Rattle.std.specs.Option.{option_map};
ghost use Rattle.pn_text.specs.Bytes.{begins_with};
ghost use Rattle.pn_text.specs.Lines.{is_lf};
ghost use Rattle.advice.specs.Advice.{HasTicks};
ghost use Rattle.advice.specs.Lines.{due_after, due_if, first_line, is_false, is_node, is_search, is_shown, is_true, is_untold, may_end, to_lf, to_lf_at, verdict_of_line, told_in, verdict_of};

use crate::verdict::Verdict;
use crate::words::{has_form, number_at, says, word_at};
use pn_types::{NoMemory, Text};
use std::alloc::Global;

/// What the next line of a report must be.
#[derive(Clone, Copy, Drop)]
pub enum Due {
    /// The format's name.
    Title,
    /// The numbers of harts, ticks, samples, and symbols that were skipped.
    Counts,
    /// This many lines of harts, and then the length of the output.
    Harts(u64),
    /// This many bytes of output.
    Output(u64),
    /// What was refused or shown, then the search or the end.
    Shown,
    /// This many nodes of the search, and then the end.
    Nodes(u64),
}

/// Whether the line begins with this text.
fn begins(line: &[u8], text: &[u8]) -> bool
    ensures { result ≡ begins_with text.now line.now }
{
    line.starts_with(text)
}

/// Whether the line tells of something that was refused or shown.
fn is_shown(line: &[u8]) -> bool
    ensures { result ≡ is_shown line.now }
{
    begins(line, b"refused ") || begins(line, b"histogram ") || begins(line, b"bin ")
}

/// Whether the line tells the number of nodes.
fn is_search(line: &[u8]) -> bool
    ensures { result ≡ is_search line.now }
{
    has_form(b"search nodes NUMBER", line) || has_form(b"search nodes NUMBER full", line)
}

/// Whether the line is that of a node whose test was true.
fn is_true(line: &[u8]) -> bool
    ensures { result ≡ is_true line.now }
{
    has_form(
        b"node NUMBER phase NAME parent PARENT NAME FOCUS true value NUMBER ticks NUMBER from NUMBER to NUMBER",
        line,
    ) && number_at(12, line) > 0
}

/// Whether the line is that of a node whose test was false.
fn is_false(line: &[u8]) -> bool
    ensures { result ≡ is_false line.now }
{
    has_form(
        b"node NUMBER phase NAME parent PARENT NAME FOCUS false value NUMBER ticks NUMBER from NUMBER to NUMBER",
        line,
    )
}

/// Whether the line is that of a node without a verdict.
fn is_untold(line: &[u8]) -> bool
    ensures { result ≡ is_untold line.now }
{
    has_form(
        b"node NUMBER phase NAME parent PARENT NAME FOCUS waiting seen NUMBER of NUMBER",
        line,
    ) || has_form(
        b"node NUMBER phase NAME parent PARENT NAME FOCUS barred ANYTHING",
        line,
    )
}

/// Whether the line is that of a node.
fn is_node(line: &[u8]) -> bool
    ensures { result ≡ is_node line.now }
{
    is_true(line) || is_false(line) || is_untold(line)
}

/// The verdict in the line of a node that has one.
fn told(alloc: Global, holds: bool, line: &[u8]) -> Result<Verdict, NoMemory>
    ensures { IfOk result (λ verdict. verdict ≡ verdict_of_line holds line.now) }
{
    Ok(Verdict {
        hypothesis: Text::from_vec(Vec::from_slice(alloc, word_at(6, line))?),
        holds,
        value: number_at(10, line),
        ticks: number_at(12, line),
    })
}

/// The verdict in the line of a node.
fn verdict_of(alloc: Global, line: &[u8]) -> Result<Option<Verdict>, NoMemory>
    ensures told { IfOk result (λ verdict. verdict ≡ verdict_of line.now) }
    ensures ticks { IfOk result (λ verdict. IfSome verdict HasTicks) }
{
    if is_true(line) {
        Ok(Some(told(alloc, true, line)?))
    } else if is_false(line) {
        Ok(Some(told(alloc, false, line)?))
    } else {
        Ok(None)
    }
}

/// Where the first LF stands.
fn first_lf(bytes: &[u8]) -> Option<usize>
    ensures { result ≡ position is_lf bytes.now }
{
    bytes.iter().position(|byte| *byte == b'\n')
}

/// Returns the bytes up to the first LF, or None where there is none.
pub fn to_lf(bytes: &[u8]) -> Option<&[u8]>
    ensures line { option_map (λ line. line.now) result ≡ to_lf bytes.now }
    ensures within { IfSome result (λ line. length line.now < length bytes.now) }
{
    let end = first_lf(bytes)?;
    Some(&bytes[..end])
}

/// Returns the first `count` bytes, if an LF follows them.
pub fn to_lf_at(count: u64, bytes: &[u8]) -> Option<&[u8]>
    ensures line { option_map (λ line. line.now) result ≡ to_lf_at count bytes.now }
    ensures within { IfSome result (λ line. length line.now < length bytes.now) }
{
    let end = count as usize;
    if *bytes.get(end)? == b'\n' {
        Some(&bytes[..end])
    } else {
        None
    }
}

impl Due {
    /// This, if the line is one of the form.
    fn only_if(self, said: bool) -> Option<Due>
        ensures { result ≡ due_if said self }
    {
        if said { Some(self) } else { None }
    }

    /// Returns the first line of the bytes, without its LF, or None where that is missing.
    pub fn first_line(self, bytes: &[u8]) -> Option<&[u8]>
        ensures line { option_map (λ line. line.now) result ≡ first_line self bytes.now }
        ensures within { IfSome result (λ line. length line.now < length bytes.now) }
    {
        match self {
            Due::Output(count) => to_lf_at(count, bytes),
            _ => to_lf(bytes),
        }
    }

    /// Returns what is due after a line, or None where the line doesn't have the form that is due.
    pub fn after(self, line: &[u8]) -> Option<Due>
        ensures { result ≡ due_after self line.now }
    {
        match self {
            Due::Title => Due::Counts.only_if(says(line, b"paradyn report 1")),
            Due::Counts => Due::Harts(number_at(1, line)).only_if(has_form(
                b"harts NUMBER ticks NUMBER samples NUMBER skipped NUMBER",
                line,
            )),
            Due::Harts(0) => {
                Due::Output(number_at(1, line)).only_if(has_form(b"output NUMBER", line))
            }
            Due::Harts(left) => Due::Harts(left - 1).only_if(begins(line, b"hart ")),
            Due::Output(_) => Some(Due::Shown),
            Due::Shown if is_shown(line) => Some(Due::Shown),
            Due::Shown => Due::Nodes(number_at(2, line)).only_if(is_search(line)),
            Due::Nodes(0) => None,
            Due::Nodes(left) => Due::Nodes(left - 1).only_if(is_node(line)),
        }
    }

    /// Returns whether a report may end here.
    pub fn may_end(self) -> bool
        ensures { result ≡ may_end self }
    {
        matches!(self, Due::Shown | Due::Nodes(0))
    }

    /// Returns the verdict in a line that was due.
    ///
    /// # Errors
    ///
    /// `NoMemory` where memory runs out.
    pub fn told_in(self, alloc: Global, line: &[u8]) -> Result<Option<Verdict>, NoMemory>
        ensures told { IfOk result (λ verdict. verdict ≡ told_in self line.now) }
        ensures ticks { IfOk result (λ verdict. IfSome verdict HasTicks) }
    {
        match self {
            Due::Nodes(_) => verdict_of(alloc, line),
            _ => Ok(None),
        }
    }
}
