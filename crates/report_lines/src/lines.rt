//! The lines of harts, of refused wishes and of bins.

ghost use Rattle.std.specs.Prelude.{◌≡◌, IfOk};
ghost use Rattle.report_lines.specs.Lines.{bin_of_line, hart_of_line, refused_of_line};

use crate::addresses::address_at;
use crate::causes::{cause_at, stop_at, words_of_stop};
use crate::words::{number_before, says, text_of};
use advice::{number_at, word_at};
use fold_hist::Bin;
use pn_types::NoMemory;
use report::{HartPart, RefusedPart};
use std::alloc::Global;

/// Returns the hart that a line tells, which is without its LF: its ticks, how it ended and where. What the line doesn't
/// say is 0.
pub fn hart_of_line(line: &[u8]) -> HartPart
    ensures { result ≡ hart_of_line line.now }
{
    let stop = stop_at(4, line);
    HartPart {
        ticks: number_at(3, line),
        stop,
        pc: address_at(words_of_stop(stop) + 5, line),
    }
}

/// Returns the refused wish that a line tells, which is without its LF. What the line doesn't say is empty or 0.
///
/// # Errors
///
/// `NoMemory` where memory runs out.
pub fn refused_of_line(alloc: Global, line: &[u8]) -> Result<RefusedPart, NoMemory>
    ensures { IfOk result (λ part. part ≡ refused_of_line line.now) }
{
    Ok(RefusedPart {
        show: says(1, line, b"show"),
        metric: text_of(alloc, word_at(2, line))?,
        focus: text_of(alloc, word_at(3, line))?,
        at: number_before(word_at(5, line)),
        cause: cause_at(6, line),
    })
}

/// Returns the bin that a line tells, which is without its LF: its interval in ticks, and its sum. What the line doesn't
/// say is 0.
pub fn bin_of_line(line: &[u8]) -> Bin
    ensures { result ≡ bin_of_line line.now }
{
    Bin {
        from: number_at(3, line),
        to: number_at(5, line),
        sum: number_at(7, line),
    }
}
