//! The lines of a profile's run and of its harts.

ghost use Rattle.std.specs.Prelude.{◌≡◌, ◌++◌, ◌≤◌, ◌<◌, ◌^◌, IfOk, OnOk, is_none, length};
ghost use Rattle.block_count.specs.Texts.{parts_of};
ghost use Rattle.rv_mem.specs.Start.{program_of};
ghost use Rattle.report.specs.Text.{hart_lines};
ghost use Rattle.rv_word.specs.Plain.{program_word};
ghost use Rattle.word_counts.specs.Stops.{is_stopped};
ghost use Rattle.profile_text.specs.Lines.{profile_line, run_ticks, run_untold};
ghost use Rattle.profile_text.specs.ProfiledTexts.{IsProfiledText};
ghost use Rattle.profile_text.specs.Totals.{stopped_outside, ticks_of, ticks_outside};

use crate::pieces::add_number;
use crate::profiled_text::ProfiledText;
use block_count::{Counts, HartStop};
use pn_types::{Image, NoMemory, StopText};
use report::{HartPart, add_harts};
use std::alloc::Global;
use word_counts::Profile;

/// Returns the ticks of all harts.
pub fn ticks_of(profile: &Profile) -> u64
    requires { ticks_of profile.now < 2 ^ 64 }
    ensures { result ≡ ticks_of profile.now }
{
    profile.counts.ticks.as_slice().iter().sum()
}

/// Returns whether a hart stopped: its run wasn't cut, and its budget isn't spent.
fn is_stopped(stop: StopText) -> bool
    ensures { result ≡ is_stopped stop }
{
    !matches!(stop, StopText::Cut | StopText::Budget)
}

/// Returns whether a text of so many words has no word at an address.
fn is_outside(image: &Image, words: usize, pc: u64) -> bool
    requires { words ≡ length (program_of image.now).words }
    ensures { result ≡ is_none (program_word (program_of image.now) pc) }
{
    if pc < image.text_at {
        return true;
    }
    let place = pc - image.text_at;
    if place % 4 != 0 {
        return true;
    }
    place / 4 >= words as u64
}

/// Returns whether a hart stopped where the text has no word.
fn stopped_outside(image: &Image, words: usize, stop: &HartStop) -> bool
    requires { words ≡ length (program_of image.now).words }
    ensures { result ≡ stopped_outside image.now stop.now }
{
    is_stopped(stop.stop) && is_outside(image, words, stop.pc)
}

/// Returns how many harts stopped where the text has no word, which is how many ticks were outside of the text.
pub fn ticks_outside(text: &ProfiledText<'_>) -> usize
    requires { IsProfiledText text.now }
    ensures { result ≡ ticks_outside text.now.image.now text.now.profile.now }
{
    let words = text.words.len();
    let mut count = 0;
    for stop in text.profile.counts.stops.as_slice() {
        if stopped_outside(text.image, words, stop) {
            count += 1;
        }
    }
    count
}

/// Adds how many harts there are, and their ticks together.
///
/// # Errors
///
/// `NoMemory` where memory runs out.
pub fn add_run_ticks(
    alloc: Global,
    out: &mut Vec<u8>,
    harts: usize,
    ticks: u64,
) -> Result<(), NoMemory>
    ensures { OnOk result (out.new.items ≡ out.old.items ++ run_ticks harts ticks) }
{
    add_number(alloc, out, b"profile harts ", harts as u64)?;
    add_number(alloc, out, b" ticks ", ticks)
}

/// Adds how many of the ticks no number tells, and how many were outside of the text.
///
/// # Errors
///
/// `NoMemory` where memory runs out.
pub fn add_run_untold(
    alloc: Global,
    out: &mut Vec<u8>,
    untold: u64,
    outside: usize,
) -> Result<(), NoMemory>
    ensures { OnOk result (out.new.items ≡ out.old.items ++ run_untold untold outside) }
{
    add_number(alloc, out, b" untold ", untold)?;
    add_number(alloc, out, b" outside ", outside as u64)?;
    out.extend_from_slice(b"\n")
}

/// Returns what a report says of each hart.
fn hart_parts(alloc: Global, counts: &Counts) -> Result<Vec<HartPart>, NoMemory>
    ensures parts { IfOk result (λ parts. parts.items ≡ parts_of counts.now) }
    ensures few { IfOk result (λ parts. length parts.items ≤ length counts.now.ticks) }
{
    let mut parts = Vec::new(alloc);
    let ends = counts.ticks.as_slice().iter().zip(counts.stops.as_slice());
    for (ticks, end) in ends {
        parts.push(HartPart {
            ticks: *ticks,
            stop: end.stop,
            pc: end.pc,
        })?;
    }
    Ok(parts)
}

/// Adds the line of the run and a line for each hart.
///
/// # Errors
///
/// `NoMemory` where memory runs out.
pub fn add_run_and_harts(
    alloc: Global,
    out: &mut Vec<u8>,
    text: &ProfiledText<'_>,
) -> Result<(), NoMemory>
    requires { IsProfiledText text.now }
    ensures { OnOk result (out.new.items
        ≡ out.old.items ++ (profile_line text.now.image.now text.now.profile.now ++ hart_lines 0 (parts_of text.now.profile.now.counts))) }
{
    let counts = &text.profile.counts;
    let harts = counts.ticks.as_slice().len();
    add_run_ticks(alloc, out, harts, ticks_of(text.profile))?;
    add_run_untold(alloc, out, text.profile.untold, ticks_outside(text))?;
    let parts = hart_parts(alloc, counts)?;
    add_harts(alloc, out, &parts)
}
