//! The axis of time that all histograms share.

ghost use Rattle.std.specs.Prelude.{◌≡◌, ◌++◌, ◌*◌, ◌≤◌, OnOk, flat_map};
ghost use Rattle.report_picture.specs.Axis.{end_of_bins, end_of_shown, first_reaching, mark, mark_line, mark_step, mark_text, mark_within, marks, place};

use crate::labels::add_number;
use fold_hist::Bin;
use pn_types::NoMemory;
use report::ShownPart;
use std::alloc::Global;

/// How many ticks may stand between marks: 1, 2, 5, 10, 20, 50 and so on, until ten of them reach beyond all ticks.
pub(crate) const MARK_STEPS: [u64; 56] = [
    1,
    2,
    5,
    10,
    20,
    50,
    100,
    200,
    500,
    1_000,
    2_000,
    5_000,
    10_000,
    20_000,
    50_000,
    100_000,
    200_000,
    500_000,
    1_000_000,
    2_000_000,
    5_000_000,
    10_000_000,
    20_000_000,
    50_000_000,
    100_000_000,
    200_000_000,
    500_000_000,
    1_000_000_000,
    2_000_000_000,
    5_000_000_000,
    10_000_000_000,
    20_000_000_000,
    50_000_000_000,
    100_000_000_000,
    200_000_000_000,
    500_000_000_000,
    1_000_000_000_000,
    2_000_000_000_000,
    5_000_000_000_000,
    10_000_000_000_000,
    20_000_000_000_000,
    50_000_000_000_000,
    100_000_000_000_000,
    200_000_000_000_000,
    500_000_000_000_000,
    1_000_000_000_000_000,
    2_000_000_000_000_000,
    5_000_000_000_000_000,
    10_000_000_000_000_000,
    20_000_000_000_000_000,
    50_000_000_000_000_000,
    100_000_000_000_000_000,
    200_000_000_000_000_000,
    500_000_000_000_000_000,
    1_000_000_000_000_000_000,
    2_000_000_000_000_000_000,
];

/// Returns the last tick at which a bin ends, or 0.
fn end_of_bins(bins: &[Bin]) -> u64
    ensures { result ≡ end_of_bins bins.now }
{
    let mut end = 0;
    for bin in bins {
        end = bin.to.max(end);
    }
    end
}

/// Returns the last tick at which a bin of some histograms ends, or 0.
pub fn end_of_shown(parts: &[ShownPart]) -> u64
    ensures { result ≡ end_of_shown parts.now }
{
    let mut end = 0;
    for part in parts {
        end = end_of_bins(part.bins.as_slice()).max(end);
    }
    end
}

/// Returns where a tick stands on an axis up to an end, in tenths of a pixel.
#[tactic(auto, unfolding(crate::specs::Axis::place))]
pub fn place(end: u64, tick: u64) -> u128
    ensures { result ≡ place end tick }
{
    if end == 0 {
        0
    } else {
        tick as u128 * 9400 / end as u128
    }
}

/// Returns the first of some steps of which ten reach the end, or 0.
fn first_reaching(end: u64, steps: &[u64]) -> u64
    ensures { result ≡ first_reaching end steps.now }
{
    for step in steps {
        if end as u128 <= *step as u128 * 10 {
            return *step;
        }
    }
    0
}

/// Returns how many ticks stand between marks.
#[tactic(auto, unfolding(crate::specs::Axis::mark_step))]
fn mark_step(end: u64) -> u64
    ensures { result ≡ mark_step end }
{
    first_reaching(end, &MARK_STEPS)
}

/// Adds the line of a mark at so many pixels.
#[tactic(auto, unfolding(crate::specs::Axis::mark_line))]
fn add_mark_line(alloc: Global, out: &mut Vec<u8>, height: u128, x: u128) -> Result<(), NoMemory>
    ensures { OnOk result (out.new.items ≡ out.old.items ++ mark_line height x) }
{
    add_number(alloc, out, b"<path d=\"M", x)?;
    add_number(alloc, out, b" 34V", height)?;
    out.extend_from_slice(b"\" stroke=\"#ddd\"/>\n")
}

/// Adds the tick of a mark at so many pixels.
#[tactic(auto, unfolding(crate::specs::Axis::mark_text))]
fn add_mark_text(alloc: Global, out: &mut Vec<u8>, x: u128, tick: u64) -> Result<(), NoMemory>
    ensures { OnOk result (out.new.items ≡ out.old.items ++ mark_text x tick) }
{
    add_number(alloc, out, b"<text x=\"", x)?;
    let label = b"\" y=\"30\" text-anchor=\"middle\" fill=\"#555\">";
    add_number(alloc, out, label, tick as u128)?;
    out.extend_from_slice(b"</text>\n")
}

/// Adds the mark of a tick.
fn add_mark(
    alloc: Global,
    out: &mut Vec<u8>,
    height: u128,
    end: u64,
    tick: u64,
) -> Result<(), NoMemory>
    ensures { OnOk result (out.new.items ≡ out.old.items ++ mark height end tick) }
{
    let x = 20 + place(end, tick) / 10;
    add_mark_line(alloc, out, height, x)?;
    add_mark_text(alloc, out, x, tick)
}

/// Returns a product.
fn product(step: u64, count: u64) -> u128
    ensures { result ≡ step * count }
{
    step as u128 * count as u128
}

/// Adds the mark of so many steps, where it is within the axis.
fn add_mark_within(
    alloc: Global,
    out: &mut Vec<u8>,
    height: u128,
    end: u64,
    step: u64,
    count: u64,
) -> Result<(), NoMemory>
    ensures { OnOk result (out.new.items ≡ out.old.items ++ mark_within height end step count) }
{
    let tick = product(step, count);
    if tick > end as u128 {
        return Ok(());
    }
    add_mark(alloc, out, height, end, tick as u64)
}

/// Adds the marks of some counts of steps.
fn add_marks_at(
    alloc: Global,
    out: &mut Vec<u8>,
    height: u128,
    end: u64,
    step: u64,
    counts: &[u64],
) -> Result<(), NoMemory>
    ensures { OnOk result (out.new.items ≡ out.old.items ++ flat_map (mark_within height end step) counts.now) }
{
    for count in counts {
        add_mark_within(alloc, out, height, end, step, *count)?;
    }
    Ok(())
}

/// Adds the marks of an axis up to an end, down to some height.
///
/// # Errors
///
/// `NoMemory` where memory runs out.
#[tactic(auto, unfolding(crate::specs::Axis::marks))]
pub fn add_marks(alloc: Global, out: &mut Vec<u8>, height: u128, end: u64) -> Result<(), NoMemory>
    ensures { OnOk result (out.new.items ≡ out.old.items ++ marks height end) }
{
    let counts = [0, 1, 2, 3, 4, 5, 6, 7, 8, 9, 10];
    add_marks_at(alloc, out, height, end, mark_step(end), &counts)
}
