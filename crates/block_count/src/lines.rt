//! The text of how often the blocks of a program were executed.

ghost use Rattle.std.specs.Prelude.{◌≡◌, ◌++◌, ◌≤◌, is_none, is_some, OnOk, IfOk, count_by, flat_map, length, sum, ◌<◌, ◌^◌};
ghost use Rattle.std.specs.List.{zip};
ghost use Rattle.block_count.specs.Texts.{block_line, blocks_text, count_text, covered_line, is_covered, numbers_line, parts_of};

use crate::{BlockHead, Counts};
use pn_types::NoMemory;
use report::{HartPart, add_harts};
use std::alloc::Global;

/// Returns all ticks together.
fn total(ticks: &[u64]) -> u128
    ensures { result ≡ sum ticks.now }
{
    let mut total = 0;
    for count in ticks {
        total += *count as u128;
    }
    total
}

/// Returns how many blocks aren't counted.
fn unmovable(counts: &[Option<u64>]) -> usize
    ensures { result ≡ count_by is_none counts.now }
{
    counts.iter().filter(|count| count.is_none()).count()
}

/// Returns how many blocks are counted.
fn movable(counts: &[Option<u64>]) -> usize
    ensures { result ≡ count_by is_some counts.now }
{
    counts.iter().filter(|count| count.is_some()).count()
}

/// Returns how many blocks were executed.
fn covered(counts: &[Option<u64>]) -> usize
    ensures { result ≡ count_by is_covered counts.now }
{
    counts
        .iter()
        .filter(|count| matches!(count, Some(passes) if *passes != 0))
        .count()
}

fn add_numbers(
    alloc: Global,
    out: &mut Vec<u8>,
    blocks: usize,
    harts: usize,
    ticks: u128,
    unmovable: usize,
) -> Result<(), NoMemory>
    ensures { OnOk result (out.new.items ≡ out.old.items ++ numbers_line blocks harts ticks unmovable) }
{
    out.extend_from_slice(format!(in alloc; "blocks {blocks} harts {harts}")?.as_bytes())?;
    out.extend_from_slice(format!(in alloc; " ticks {ticks}")?.as_bytes())?;
    out.extend_from_slice(format!(in alloc; " unmovable {unmovable}\n")?.as_bytes())
}

/// Returns what a report says of each hart.
fn hart_parts(alloc: Global, counts: &Counts) -> Result<Vec<HartPart>, NoMemory>
    ensures parts { IfOk result (λ parts. parts.items ≡ parts_of counts.now) }
    ensures few { IfOk result (λ parts. length parts.items ≤ length counts.now.ticks) }
{
    let mut parts = Vec::new(alloc);
    let ends = counts.ticks.as_slice().iter().zip(counts.stops.as_slice());
    for (ticks, end) in ends {
        parts.push(HartPart {
            ticks: *ticks,
            stop: end.stop,
            pc: end.pc,
        })?;
    }
    Ok(parts)
}

fn add_count(alloc: Global, out: &mut Vec<u8>, count: Option<u64>) -> Result<(), NoMemory>
    ensures { OnOk result (out.new.items ≡ out.old.items ++ count_text count) }
{
    match count {
        Some(count) => out.extend_from_slice(format!(in alloc; " count {count}\n")?.as_bytes()),
        None => out.extend_from_slice(b" unmovable\n"),
    }
}

fn add_block(
    alloc: Global,
    out: &mut Vec<u8>,
    head: &BlockHead,
    count: Option<u64>,
) -> Result<(), NoMemory>
    ensures { OnOk result (out.new.items ≡ out.old.items ++ block_line (head.now, count)) }
{
    let at = head.at;
    let words = head.words;
    let line = format!(in alloc; "block 0x{at:x} words {words}")?;
    out.extend_from_slice(line.as_bytes())?;
    add_count(alloc, out, count)
}

fn add_blocks(
    alloc: Global,
    out: &mut Vec<u8>,
    heads: &[BlockHead],
    counts: &[Option<u64>],
) -> Result<(), NoMemory>
    ensures { OnOk result (out.new.items ≡ out.old.items ++ flat_map block_line (zip heads.now counts.now)) }
{
    for (head, count) in heads.iter().zip(counts) {
        add_block(alloc, out, head, *count)?;
    }
    Ok(())
}

fn add_covered(alloc: Global, out: &mut Vec<u8>, counts: &[Option<u64>]) -> Result<(), NoMemory>
    ensures { OnOk result (out.new.items ≡ out.old.items ++ covered_line counts.now) }
{
    let covered = covered(counts);
    let movable = movable(counts);
    let line = format!(in alloc; "covered {covered} of {movable}\n")?;
    out.extend_from_slice(line.as_bytes())
}

/// Returns the text that says how often the blocks that begin at these heads were executed: a line `blocks N harts H ticks T
/// unmovable U`, a line for each hart as in the report of a run, a line for each block, which is `block ADDRESS words W count C` or
/// `block ADDRESS words W unmovable`, and `covered A of M`: A of the M blocks whose first word can be moved were executed.
///
/// # Errors
///
/// `NoMemory` where memory runs out.
pub fn blocks_text(alloc: Global, heads: &[BlockHead], counts: &Counts) -> Result<Vec<u8>, NoMemory>
    requires { length counts.now.ticks < 2 ^ 32 }
    ensures { IfOk result (λ text. text.items ≡ blocks_text heads.now counts.now) }
{
    let mut out = Vec::new(alloc);
    let ticks = counts.ticks.as_slice();
    let passes = counts.counts.as_slice();
    add_numbers(
        alloc,
        &mut out,
        heads.len(),
        ticks.len(),
        total(ticks),
        unmovable(passes),
    )?;
    let parts = hart_parts(alloc, counts)?;
    add_harts(alloc, &mut out, &parts)?;
    add_blocks(alloc, &mut out, heads, passes)?;
    add_covered(alloc, &mut out, passes)?;
    Ok(out)
}
