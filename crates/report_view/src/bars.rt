//! Bars, one for each of some values.

ghost use Rattle.std.specs.Prelude.{◌≡◌, ◌++◌, ◌≤◌, ◌^◌, false, IfOk, OnOk, length, take};
ghost use Rattle.fold_hist.specs.Bins.{hist_of};
ghost use Rattle.report_view.specs.Bars.{bar, bars, bars_in, block, glyph, height, positive, sign, bin_values};
ghost use Rattle.report_view.specs.Signed.{is_negative};

use crate::signed::{greatest, is_negative};
use fold_hist::{Bin, Hist};
use pn_types::NoMemory;
use std::alloc::Global;

/// Returns the height of a value: how many eighths of the greatest value there are in it.
fn height(most: u64, value: u64) -> u8
    requires { value ≤ most }
    ensures value { result ≡ height most value }
    ensures bound { result ≤ 8 }
{
    if most == 0 {
        0
    } else {
        (value as u128 * 8 / most as u128) as u8
    }
}

/// Adds a block of Unicode that is so many eighths high, or a space.
fn add_block(out: &mut Vec<u8>, eighths: u8) -> Result<(), NoMemory>
    requires { eighths ≤ 8 }
    ensures { OnOk result (out.new.items ≡ out.old.items ++ block eighths) }
{
    if eighths == 0 {
        return out.extend_from_slice(b" ");
    }
    out.extend_from_slice(&[226, 150, 128 + eighths])
}

/// Adds an ASCII sign that is as dark as so many eighths.
fn add_sign(out: &mut Vec<u8>, eighths: u8) -> Result<(), NoMemory>
    requires { eighths ≤ 8 }
    ensures { OnOk result (out.new.items ≡ out.old.items ++ sign eighths) }
{
    let signs = b" .:;=+*#@";
    let place = eighths as usize;
    out.extend_from_slice(&signs[place..place + 1])
}

/// Adds a bar of so many eighths.
fn add_glyph(out: &mut Vec<u8>, ascii: bool, eighths: u8) -> Result<(), NoMemory>
    requires { eighths ≤ 8 }
    ensures { OnOk result (out.new.items ≡ out.old.items ++ glyph ascii eighths) }
{
    if ascii {
        add_sign(out, eighths)
    } else {
        add_block(out, eighths)
    }
}

/// Adds the bar of a value, where this is the greatest.
fn add_bar(out: &mut Vec<u8>, ascii: bool, most: u64, value: u64) -> Result<(), NoMemory>
    requires { is_negative value ≡ false → value ≤ most }
    ensures { OnOk result (out.new.items ≡ out.old.items ++ bar ascii most value) }
{
    if is_negative(value) {
        return out.extend_from_slice(b"-");
    }
    add_glyph(out, ascii, height(most, value))
}

/// Returns a value, or 0 in place of a negative one.
pub fn positive(value: u64) -> u64
    ensures { result ≡ positive value }
{
    if is_negative(value) { 0 } else { value }
}

/// Adds the bars of values.
fn add_bars(out: &mut Vec<u8>, ascii: bool, values: &[u64]) -> Result<(), NoMemory>
    ensures { OnOk result (out.new.items ≡ out.old.items ++ bars ascii values.now) }
{
    let most = positive(greatest(values));
    for value in values {
        add_bar(out, ascii, most, *value)?;
    }
    Ok(())
}

/// Returns the values of bins.
///
/// # Errors
///
/// `NoMemory` where memory runs out.
pub fn bin_values(alloc: Global, bins: &[Bin]) -> Result<Vec<u64>, NoMemory>
    ensures { IfOk result (λ values. values.items ≡ bin_values bins.now) }
{
    bins.iter().map(|bin| bin.sum).collect(alloc)
}

/// Returns the first so many of some bins.
fn first_bins(bins: &[Bin], most: usize) -> &[Bin]
    ensures items { result.now ≡ take most bins.now }
    ensures bound { length result.now ≤ most }
{
    bins.split_at(bins.len().min(most)).0
}

/// Returns bins, which are joined until there is room.
fn folded(alloc: Global, room: u32, bins: &[Bin]) -> Result<Hist, NoMemory>
    requires room { 1 ≤ room }
    requires bins { length bins.now ≤ 2 ^ 32 }
    ensures { IfOk result (λ hist. hist ≡ hist_of room bins.now) }
{
    let mut hist = Hist::new(alloc, room)?;
    for bin in bins {
        hist.push(bin.sum, bin.from, bin.to);
    }
    Ok(hist)
}

/// Adds bars of bins, which are joined, each two of them, each four, and so on, until there is room.
///
/// # Errors
///
/// `NoMemory` where memory runs out.
#[tactic(auto, unfolding(crate::specs::Bars::bars_in))]
pub fn add_bars_in(
    alloc: Global,
    out: &mut Vec<u8>,
    ascii: bool,
    room: u32,
    bins: &[Bin],
) -> Result<(), NoMemory>
    requires { 1 ≤ room }
    ensures { OnOk result (out.new.items ≡ out.old.items ++ bars_in ascii room bins.now) }
{
    let hist = folded(alloc, room, first_bins(bins, 4_294_967_296))?;
    let values = bin_values(alloc, hist.bins())?;
    add_bars(out, ascii, &values)
}
