//! The lines of histograms, whose units may have spaces.

ghost use Rattle.std.specs.Prelude.{◌≡◌, ◌+◌, ◌-◌, ◌==◌, IfOk, count_by, length};
ghost use Rattle.report_lines.specs.Lines.{back_length, bins_of_line, histogram_of_line, last_at, units_in_line};

use crate::words::{bytes_behind, first_bytes, moment_of, number_of_word, text_of};
use advice::word_at;
use pn_types::{NoMemory, Seq};
use report::ShownPart;
use std::alloc::Global;

/// The length of `histogram `, of the space before the focus and of ` units ` together.
const FRONT_LEN: usize = 18;

/// The length of ` from `, ` bins ` and ` width ` together.
const BACK_LEN: usize = 19;

/// How many spaces a line has.
fn spaces(line: &[u8]) -> usize
    ensures { result ≡ count_by (λ byte. byte == 32) line.now }
{
    line.iter().filter(|byte| **byte == b' ').count()
}

/// The word with as many words behind it as this.
fn last_at(behind: usize, line: &[u8]) -> &[u8]
    ensures { result.now ≡ last_at (behind + 1) line.now }
{
    word_at(spaces(line).saturating_sub(behind), line)
}

/// The length of the units, behind a metric and a focus of these lengths.
fn units_len(metric: usize, focus: usize, line: &[u8]) -> usize
    ensures { result ≡ length line.now - back_length line.now - (metric + focus + 18) }
{
    line.len()
        .saturating_sub(last_at(4, line).len())
        .saturating_sub(last_at(2, line).len())
        .saturating_sub(last_at(0, line).len())
        .saturating_sub(BACK_LEN)
        .saturating_sub(metric)
        .saturating_sub(focus)
        .saturating_sub(FRONT_LEN)
}

/// The units of a histogram.
fn units_in_line(line: &[u8]) -> &[u8]
    ensures { result.now ≡ units_in_line line.now }
{
    let metric = word_at(1, line).len();
    let focus = word_at(2, line).len();
    let behind = bytes_behind(FRONT_LEN, bytes_behind(focus, bytes_behind(metric, line)));
    first_bytes(units_len(metric, focus, line), behind)
}

/// Returns the histogram that a line tells, which is without its LF, so far without bins. What the line doesn't say is
/// empty or 0.
///
/// # Errors
///
/// `NoMemory` where memory runs out.
pub fn histogram_of_line(alloc: Global, line: &[u8]) -> Result<ShownPart, NoMemory>
    ensures { IfOk result (λ part. part ≡ histogram_of_line line.now) }
{
    Ok(ShownPart {
        metric: text_of(alloc, word_at(1, line))?,
        focus: text_of(alloc, word_at(2, line))?,
        units: text_of(alloc, units_in_line(line))?,
        from: moment_of(last_at(4, line)),
        width: number_of_word(last_at(0, line)),
        bins: Seq::from_vec(Vec::new(alloc)),
    })
}

/// Returns how many bins the line of a histogram says that follow, or 0.
pub fn bins_of_line(line: &[u8]) -> u64
    ensures { result ≡ bins_of_line line.now }
{
    number_of_word(last_at(2, line))
}
