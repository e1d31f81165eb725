//! The lines of direct calls and of loops.

ghost use Rattle.std.specs.Prelude.{◌≡◌, ◌++◌, ◌%◌, true, OnOk, flat_map};
ghost use Rattle.code_points.specs.Procedures.{IsProcOf};
ghost use Rattle.rv_word.specs.Memory.{in_range};
ghost use Rattle.profile_text.specs.Finding.{DoAscend};
ghost use Rattle.profile_text.specs.Jumps.{call_target, is_back_edge, jump_target};
ghost use Rattle.profile_text.specs.Lines.{call_line, call_lines, loop_line, loop_lines, loop_numbers, loop_range};
ghost use Rattle.profile_text.specs.ProfiledTexts.{IsProfiledText};

use crate::finding::procedure_at;
use crate::names::{add_owner, add_path, add_target};
use crate::numbered_word::NumberedWord;
use crate::pieces::{add_address, add_number};
use crate::profiled_text::ProfiledText;
use crate::reading::{number_at, ticks_between};
use pn_types::{NoMemory, Proc};
use rv_word::{is_call, jump_target};
use std::alloc::Global;

/// Returns where a word calls directly.
fn target_of_call(word: &NumberedWord) -> Option<u64>
    ensures { result ≡ call_target word.now }
{
    if is_call(word.word) {
        jump_target(word.word, word.at)
    } else {
        None
    }
}

/// Returns where a word jumps or branches without a link.
fn target_of_jump(word: &NumberedWord) -> Option<u64>
    ensures { result ≡ jump_target word.now }
{
    if is_call(word.word) {
        None
    } else {
        jump_target(word.word, word.at)
    }
}

/// Adds the line of a direct call.
fn add_call(
    alloc: Global,
    out: &mut Vec<u8>,
    procs: &[Proc],
    word: &NumberedWord,
    target: u64,
) -> Result<(), NoMemory>
    requires { DoAscend procs.now }
    ensures { OnOk result (out.new.items ≡ out.old.items ++ call_line procs.now word.now target) }
{
    out.extend_from_slice(b"call ")?;
    add_owner(out, procs, word.at)?;
    add_address(alloc, out, b" ", word.at)?;
    out.extend_from_slice(b" ")?;
    add_target(alloc, out, procs, target)?;
    add_number(alloc, out, b" ", word.number)?;
    out.extend_from_slice(b"\n")
}

/// Adds the line of a word, where it is a direct call that was executed.
fn add_call_of(
    alloc: Global,
    out: &mut Vec<u8>,
    procs: &[Proc],
    word: &NumberedWord,
) -> Result<(), NoMemory>
    requires { DoAscend procs.now }
    ensures { OnOk result (out.new.items ≡ out.old.items ++ call_lines procs.now word.now) }
{
    if word.number == 0 {
        return Ok(());
    }
    match target_of_call(word) {
        Some(target) => add_call(alloc, out, procs, word, target),
        None => Ok(()),
    }
}

/// Adds the lines of the direct calls that were executed.
///
/// # Errors
///
/// `NoMemory` where memory runs out.
pub fn add_calls(alloc: Global, out: &mut Vec<u8>, text: &ProfiledText<'_>) -> Result<(), NoMemory>
    requires { IsProfiledText text.now }
    ensures { OnOk result (out.new.items ≡ out.old.items ++ flat_map (call_lines text.now.procs.now) text.now.words.items) }
{
    for word in &text.words {
        add_call_of(alloc, out, text.procs, word)?;
    }
    Ok(())
}

/// Returns whether a word of a procedure was executed and leads back to a word of it, or to itself.
fn is_back_edge(proc: &Proc, target: u64, word: &NumberedWord) -> bool
    ensures { result ≡ is_back_edge proc.now target word.now }
{
    target <= word.at
        && proc.start <= target
        && target - proc.start < proc.len
        && target % 4 == 0
        && word.number != 0
}

/// Adds where a loop lies.
fn add_loop_range(
    alloc: Global,
    out: &mut Vec<u8>,
    proc: &Proc,
    first: u64,
    last: u64,
) -> Result<(), NoMemory>
    ensures { OnOk result (out.new.items ≡ out.old.items ++ loop_range proc.now first last) }
{
    out.extend_from_slice(b"loop ")?;
    add_path(out, proc)?;
    add_address(alloc, out, b" ", first)?;
    add_address(alloc, out, b" to ", last)
}

/// Adds the numbers of a loop.
fn add_loop_numbers(
    alloc: Global,
    out: &mut Vec<u8>,
    first: u64,
    last: u64,
    ticks: u64,
) -> Result<(), NoMemory>
    ensures { OnOk result (out.new.items ≡ out.old.items ++ loop_numbers first last ticks) }
{
    add_number(alloc, out, b" first ", first)?;
    add_number(alloc, out, b" last ", last)?;
    add_number(alloc, out, b" ticks ", ticks)?;
    out.extend_from_slice(b"\n")
}

/// Adds the line of a loop from an address of a procedure to a word of it.
fn add_loop(
    alloc: Global,
    out: &mut Vec<u8>,
    text: &ProfiledText<'_>,
    proc: &Proc,
    first: u64,
    word: &NumberedWord,
) -> Result<(), NoMemory>
    requires text { IsProfiledText text.now }
    requires proc { IsProcOf text.now.image.now proc.now }
    requires back { is_back_edge proc.now first word.now ≡ true }
    requires has { in_range proc.now.start proc.now.len word.now.at ≡ true }
    requires at { word.now.at % 4 ≡ 0 }
    ensures { OnOk result (out.new.items ≡ out.old.items ++ loop_line text.now.image.now text.now.profile.now proc.now first word.now) }
{
    let number = number_at(text, first);
    let ticks = ticks_between(text, first, word.at + 4);
    add_loop_range(alloc, out, proc, first, word.at)?;
    add_loop_numbers(alloc, out, number, word.number, ticks)
}

/// Adds the line of a word, where a loop ends with it.
fn add_loop_of(
    alloc: Global,
    out: &mut Vec<u8>,
    text: &ProfiledText<'_>,
    word: &NumberedWord,
) -> Result<(), NoMemory>
    requires text { IsProfiledText text.now }
    requires at { word.now.at % 4 ≡ 0 }
    ensures { OnOk result (out.new.items
        ≡ out.old.items ++ loop_lines text.now.image.now text.now.procs.now text.now.profile.now word.now) }
{
    let Some(proc) = procedure_at(text.procs, word.at) else {
        return Ok(());
    };
    let Some(first) = target_of_jump(word) else {
        return Ok(());
    };
    if is_back_edge(proc, first, word) {
        add_loop(alloc, out, text, proc, first, word)
    } else {
        Ok(())
    }
}

/// Adds the lines of the loops that were executed.
///
/// # Errors
///
/// `NoMemory` where memory runs out.
pub fn add_loops(alloc: Global, out: &mut Vec<u8>, text: &ProfiledText<'_>) -> Result<(), NoMemory>
    requires { IsProfiledText text.now }
    ensures { OnOk result (out.new.items
        ≡ out.old.items ++ flat_map (loop_lines text.now.image.now text.now.procs.now text.now.profile.now) text.now.words.items) }
{
    for word in &text.words {
        add_loop_of(alloc, out, text, word)?;
    }
    Ok(())
}
