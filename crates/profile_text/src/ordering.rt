//! The procedures of a program, by their ticks.

ghost use Rattle.std.specs.Prelude.{◌≡◌, IfOk, map};
ghost use Rattle.std.specs.List.{All};
ghost use Rattle.code_points.specs.Procedures.{IsProcOf};
ghost use Rattle.profile_text.specs.ProcedureRows.{row_of, rows_in};
ghost use Rattle.profile_text.specs.ProfiledTexts.{IsProfiledText};
ghost use Rattle.profile_text.specs.Rows.{procedure_row, rows_of};

use crate::procedure_row::ProcedureRow;
use crate::profiled_text::ProfiledText;
use crate::reading::{number_at, ticks_between};
use pn_types::{NoMemory, Proc};
use std::alloc::Global;

/// Returns the row of a procedure.
fn procedure_row<'a>(text: &ProfiledText<'_>, proc: &'a Proc) -> ProcedureRow<'a>
    requires text { IsProfiledText text.now }
    requires proc { IsProcOf text.now.image.now proc.now }
    ensures { row_of result ≡ procedure_row text.now.image.now text.now.profile.now proc.now }
{
    ProcedureRow {
        proc,
        entered: number_at(text, proc.start),
        ticks: ticks_between(text, proc.start, proc.start + proc.len),
    }
}

/// Returns the rows of the procedures, in their order.
fn procedure_rows<'a>(
    alloc: Global,
    text: &ProfiledText<'a>,
) -> Result<Vec<ProcedureRow<'a>>, NoMemory>
    requires { IsProfiledText text.now }
    ensures rows { IfOk result (λ rows. rows_in rows.items ≡ map (procedure_row text.now.image.now text.now.profile.now) text.now.procs.now) }
    ensures procs { IfOk result (λ rows. All (λ x. IsProcOf text.now.image.now x.proc.now) rows.items) }
{
    let mut rows = Vec::with_capacity(alloc, text.procs.len())?;
    for proc in text.procs {
        rows.push(procedure_row(text, proc))?;
    }
    Ok(rows)
}

/// Returns the rows of the procedures by descending ticks, ties by ascending address.
///
/// # Errors
///
/// `NoMemory` where memory runs out.
pub fn rows_by_ticks<'a>(
    alloc: Global,
    text: &ProfiledText<'a>,
) -> Result<Vec<ProcedureRow<'a>>, NoMemory>
    requires { IsProfiledText text.now }
    ensures rows { IfOk result (λ rows. rows_in rows.items ≡ rows_of text.now.image.now text.now.procs.now text.now.profile.now) }
    ensures procs { IfOk result (λ rows. All (λ x. IsProcOf text.now.image.now x.proc.now) rows.items) }
{
    let mut rows = procedure_rows(alloc, text)?;
    rows.sort_by(|one, other| other.ticks.cmp(&one.ticks))?;
    Ok(rows)
}
