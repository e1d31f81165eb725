//! The lines of procedures, and of what no procedure has.

ghost use Rattle.std.specs.Prelude.{◌≡◌, ◌++◌, ◌<◌, ◌^◌, OnOk, flat_map, sum_by};
ghost use Rattle.profile_text.specs.Lines.{procedure_line, rest_line};
ghost use Rattle.profile_text.specs.NumberedWords.{words_of_none};
ghost use Rattle.profile_text.specs.ProcedureRows.{row_of, rows_in};
ghost use Rattle.profile_text.specs.ProfiledTexts.{IsProfiledText};
ghost use Rattle.profile_text.specs.Totals.{ticks_of_none};

use crate::names::add_path;
use crate::numbered_word::NumberedWord;
use crate::pieces::{add_address, add_number};
use crate::procedure_row::ProcedureRow;
use crate::profiled_text::ProfiledText;
use pn_types::NoMemory;
use std::alloc::Global;

/// Adds the line of a procedure.
///
/// # Errors
///
/// `NoMemory` where memory runs out.
pub fn add_row(alloc: Global, out: &mut Vec<u8>, row: &ProcedureRow<'_>) -> Result<(), NoMemory>
    ensures { OnOk result (out.new.items ≡ out.old.items ++ procedure_line (row_of row.now)) }
{
    out.extend_from_slice(b"procedure ")?;
    add_path(out, row.proc)?;
    add_address(alloc, out, b" at ", row.proc.start)?;
    add_number(alloc, out, b" words ", row.proc.len / 4)?;
    add_number(alloc, out, b" entered ", row.entered)?;
    add_number(alloc, out, b" ticks ", row.ticks)?;
    out.extend_from_slice(b"\n")
}

/// Adds the lines of procedures.
pub fn add_rows(alloc: Global, out: &mut Vec<u8>, rows: &[ProcedureRow<'_>]) -> Result<(), NoMemory>
    ensures { OnOk result (out.new.items ≡ out.old.items ++ flat_map procedure_line (rows_in rows.now)) }
{
    for row in rows {
        add_row(alloc, out, row)?;
    }
    Ok(())
}

/// Returns the sum of the numbers of words.
fn total(words: &[NumberedWord]) -> u64
    requires { sum_by (λ x. x.number) words.now < 2 ^ 64 }
    ensures { result ≡ sum_by (λ x. x.number) words.now }
{
    let mut total = 0;
    for word in words {
        total += word.number;
    }
    total
}

/// Returns the ticks at the words that no procedure has.
pub fn ticks_of_none(text: &ProfiledText<'_>, words: &[NumberedWord]) -> u64
    requires text { IsProfiledText text.now }
    requires words { words.now ≡ words_of_none text.now.image.now text.now.procs.now text.now.profile.now }
    ensures { result ≡ ticks_of_none text.now.image.now text.now.procs.now text.now.profile.now }
{
    total(words)
}

/// Adds the line of the words that no procedure has: how many there are, and their ticks.
///
/// # Errors
///
/// `NoMemory` where memory runs out.
pub fn add_rest(alloc: Global, out: &mut Vec<u8>, words: usize, ticks: u64) -> Result<(), NoMemory>
    ensures { OnOk result (out.new.items ≡ out.old.items ++ rest_line words ticks) }
{
    add_number(alloc, out, b"rest words ", words as u64)?;
    add_number(alloc, out, b" ticks ", ticks)?;
    out.extend_from_slice(b"\n")
}
