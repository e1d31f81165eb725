//! The table of a profile for a person.

ghost use Rattle.std.specs.Prelude.{◌≡◌, ◌++◌, ◌<◌, ◌^◌, IfOk, OnOk, flat_map, sum_by};
ghost use Rattle.code_points.specs.Procedures.{AreProcsOf};
ghost use Rattle.pn_types.specs.Images.{IsImage};
ghost use Rattle.profile_text.specs.NumberedWords.{words_of_none};
ghost use Rattle.profile_text.specs.ProcedureRows.{row_of, rows_in};
ghost use Rattle.profile_text.specs.ProfiledTexts.{IsProfiledText};
ghost use Rattle.profile_text.specs.Rows.{rows_of};
ghost use Rattle.profile_text.specs.Table.{harts_text, heading, more_line, more_row, more_text, other_line, profile_table, row_line, table_rows, told_text, total_line, untold_bound, untold_count, untold_meaning, untold_text};
ghost use Rattle.profile_text.specs.Totals.{Fits};

use crate::columns::{add_columns, add_ticks_columns, number_text};
use crate::names::add_path;
use crate::numbered_word::NumberedWord;
use crate::ordering::rows_by_ticks;
use crate::pieces::add_number;
use crate::procedure_row::ProcedureRow;
use crate::profiled_text::ProfiledText;
use crate::reading::{profiled_text, words_of_none};
use crate::row_lines::ticks_of_none;
use crate::run_lines::{ticks_of, ticks_outside};
use pn_types::{Image, NoMemory, Proc};
use std::alloc::Global;
use word_counts::Profile;

/// Adds how many harts there are.
fn add_hart_count(alloc: Global, out: &mut Vec<u8>, harts: usize) -> Result<(), NoMemory>
    ensures { OnOk result (out.new.items ≡ out.old.items ++ harts_text harts) }
{
    if harts == 1 {
        return out.extend_from_slice(b"1 hart");
    }
    add_number(alloc, out, b"", harts as u64)?;
    out.extend_from_slice(b" harts")
}

/// Adds how many ticks are untold.
fn add_untold_count(alloc: Global, out: &mut Vec<u8>, untold: u64) -> Result<(), NoMemory>
    ensures { OnOk result (out.new.items ≡ out.old.items ++ untold_count untold) }
{
    add_number(alloc, out, b", ", untold)?;
    out.extend_from_slice(b" untold")
}

/// Adds what untold ticks say of the numbers.
fn add_untold_meaning(out: &mut Vec<u8>) -> Result<(), NoMemory>
    ensures { OnOk result (out.new.items ≡ out.old.items ++ untold_meaning) }
{
    out.extend_from_slice(b": each number is that or more, together at most ")
}

/// Adds by how much the numbers can be too small.
fn add_untold_bound(alloc: Global, out: &mut Vec<u8>, untold: u64) -> Result<(), NoMemory>
    ensures { OnOk result (out.new.items ≡ out.old.items ++ untold_bound untold) }
{
    add_number(alloc, out, b"", untold)?;
    out.extend_from_slice(b" more\n")
}

/// Adds how many ticks are untold, and what that says of the numbers.
fn add_untold(alloc: Global, out: &mut Vec<u8>, untold: u64) -> Result<(), NoMemory>
    ensures { OnOk result (out.new.items ≡ out.old.items ++ untold_text untold) }
{
    add_untold_count(alloc, out, untold)?;
    add_untold_meaning(out)?;
    add_untold_bound(alloc, out, untold)?;
    Ok(())
}

/// Adds whether all ticks are told, and what that says of the numbers.
fn add_told(alloc: Global, out: &mut Vec<u8>, untold: u64) -> Result<(), NoMemory>
    ensures { OnOk result (out.new.items ≡ out.old.items ++ told_text untold) }
{
    if untold == 0 {
        return out.extend_from_slice(b", all told: each number is exact\n");
    }
    add_untold(alloc, out, untold)
}

/// Adds the line of the whole run.
fn add_total(
    alloc: Global,
    out: &mut Vec<u8>,
    ticks: u64,
    harts: usize,
    untold: u64,
) -> Result<(), NoMemory>
    ensures { OnOk result (out.new.items ≡ out.old.items ++ total_line ticks harts untold) }
{
    add_number(alloc, out, b"ticks ", ticks)?;
    out.extend_from_slice(b" on ")?;
    add_hart_count(alloc, out, harts)?;
    add_told(alloc, out, untold)
}

/// Adds the names of the columns.
fn add_heading(out: &mut Vec<u8>) -> Result<(), NoMemory>
    ensures { OnOk result (out.new.items ≡ out.old.items ++ heading) }
{
    add_columns(out, b"share", b"ticks", b"entered")?;
    out.extend_from_slice(b"procedure\n")
}

/// Adds the line of a procedure.
fn add_row(
    alloc: Global,
    out: &mut Vec<u8>,
    all: u64,
    row: &ProcedureRow<'_>,
) -> Result<(), NoMemory>
    ensures { OnOk result (out.new.items ≡ out.old.items ++ row_line all (row_of row.now)) }
{
    let entered = number_text(alloc, row.entered)?;
    add_ticks_columns(alloc, out, all, row.ticks, &entered)?;
    add_path(out, row.proc)?;
    out.extend_from_slice(b"\n")
}

/// Adds the lines of procedures.
fn add_shown(
    alloc: Global,
    out: &mut Vec<u8>,
    all: u64,
    rows: &[ProcedureRow<'_>],
) -> Result<(), NoMemory>
    ensures { OnOk result (out.new.items ≡ out.old.items ++ flat_map (row_line all) (rows_in rows.now)) }
{
    for row in rows {
        add_row(alloc, out, all, row)?;
    }
    Ok(())
}

/// Returns the ticks of procedures together.
fn total(rows: &[ProcedureRow<'_>]) -> u64
    requires { sum_by (λ x. x.ticks) (rows_in rows.now) < 2 ^ 64 }
    ensures { result ≡ sum_by (λ x. x.ticks) (rows_in rows.now) }
{
    let mut total = 0;
    for row in rows {
        total += row.ticks;
    }
    total
}

/// Adds how many procedures aren't shown.
fn add_more_count(alloc: Global, out: &mut Vec<u8>, count: usize) -> Result<(), NoMemory>
    ensures { OnOk result (out.new.items ≡ out.old.items ++ more_text count) }
{
    if count == 1 {
        return out.extend_from_slice(b"and 1 more procedure\n");
    }
    add_number(alloc, out, b"and ", count as u64)?;
    out.extend_from_slice(b" more procedures\n")
}

/// Adds the line of so many procedures that aren't shown.
fn add_more_row(
    alloc: Global,
    out: &mut Vec<u8>,
    all: u64,
    ticks: u64,
    count: usize,
) -> Result<(), NoMemory>
    ensures { OnOk result (out.new.items ≡ out.old.items ++ more_row all ticks count) }
{
    add_ticks_columns(alloc, out, all, ticks, b"")?;
    add_more_count(alloc, out, count)
}

/// Adds the line of the procedures that aren't shown, where there are any.
fn add_more(
    alloc: Global,
    out: &mut Vec<u8>,
    all: u64,
    rows: &[ProcedureRow<'_>],
) -> Result<(), NoMemory>
    requires { sum_by (λ x. x.ticks) (rows_in rows.now) < 2 ^ 64 }
    ensures { OnOk result (out.new.items ≡ out.old.items ++ more_line all (rows_in rows.now)) }
{
    if rows.is_empty() {
        return Ok(());
    }
    add_more_row(alloc, out, all, total(rows), rows.len())?;
    Ok(())
}

/// Adds the lines of the first procedures, and of how many more there are.
fn add_rows(
    alloc: Global,
    out: &mut Vec<u8>,
    all: u64,
    top: u32,
    rows: &[ProcedureRow<'_>],
) -> Result<(), NoMemory>
    requires { sum_by (λ x. x.ticks) (rows_in rows.now) < 2 ^ 64 }
    ensures { OnOk result (out.new.items ≡ out.old.items ++ table_rows all top (rows_in rows.now)) }
{
    let (shown, more) = rows.split_at(rows.len().min(top as usize));
    add_shown(alloc, out, all, shown)?;
    add_more(alloc, out, all, more)
}

/// Adds the line of ticks that no procedure has, where there are any.
fn add_other(
    alloc: Global,
    out: &mut Vec<u8>,
    all: u64,
    ticks: u64,
    name: &[u8],
) -> Result<(), NoMemory>
    ensures { OnOk result (out.new.items ≡ out.old.items ++ other_line all ticks name.now) }
{
    if ticks == 0 {
        return Ok(());
    }
    add_ticks_columns(alloc, out, all, ticks, b"")?;
    out.extend_from_slice(name)?;
    out.extend_from_slice(b"\n")
}

/// Adds the table of a profile, whose rows and words that no procedure has are these.
fn add_table(
    alloc: Global,
    out: &mut Vec<u8>,
    text: &ProfiledText<'_>,
    rows: &[ProcedureRow<'_>],
    rest: &[NumberedWord],
    top: u32,
) -> Result<(), NoMemory>
    requires text { IsProfiledText text.now }
    requires rows { rows_in rows.now ≡ rows_of text.now.image.now text.now.procs.now text.now.profile.now }
    requires rest { rest.now ≡ words_of_none text.now.image.now text.now.procs.now text.now.profile.now }
    ensures { OnOk result (out.new.items
        ≡ out.old.items ++ profile_table text.now.image.now text.now.procs.now text.now.profile.now top) }
{
    let harts = text.profile.counts.ticks.as_slice().len();
    let untold = text.profile.untold;
    let all = ticks_of(text.profile);
    add_total(alloc, out, all, harts, untold)?;
    add_heading(out)?;
    add_rows(alloc, out, all, top, rows)?;
    add_other(
        alloc,
        out,
        all,
        ticks_of_none(text, rest),
        b"in no procedure",
    )?;
    add_other(
        alloc,
        out,
        all,
        ticks_outside(text) as u64,
        b"outside of the text",
    )?;
    add_other(alloc, out, all, untold, b"untold")?;
    Ok(())
}

/// Returns the table of a profile for a person: a line that says whether the numbers are exact, then for the first `top` procedures, by
/// descending ticks, their share of all ticks, their ticks, how often their first words were executed and their names, then how many
/// more procedures there are, and the ticks that no procedure has.
///
/// # Errors
///
/// `NoMemory` where memory runs out.
pub fn profile_table(
    alloc: Global,
    image: &Image,
    procs: &[Proc],
    profile: &Profile,
    top: u32,
) -> Result<Vec<u8>, NoMemory>
    requires image { IsImage image.now }
    requires procs { AreProcsOf image.now procs.now }
    requires fits { Fits image.now profile.now }
    ensures { IfOk result (λ text. text.items ≡ profile_table image.now procs.now profile.now top) }
{
    let text = profiled_text(alloc, image, procs, profile)?;
    let rows = rows_by_ticks(alloc, &text)?;
    let rest = words_of_none(alloc, &text)?;
    let mut out = Vec::new(alloc);
    add_table(alloc, &mut out, &text, &rows, &rest, top)?;
    Ok(out)
}
