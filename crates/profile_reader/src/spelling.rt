//! The text of a profile that was read.

ghost use Rattle.std.specs.Prelude.{◌≡◌, ◌++◌, ◌≤◌, IfOk, OnOk, flat_map, length};
ghost use Rattle.profile_reader.specs.Reading.{profile_spelling, read_run_line, row_of};
ghost use Rattle.profile_text.specs.Lines.{procedure_line};

use crate::profile::{ReadProcedure, ReadProfile};
use pn_types::NoMemory;
use profile_text::{ProcedureRow, add_rest, add_row, add_run_ticks, add_run_untold};
use report::add_harts;
use std::alloc::Global;

/// Adds the first line.
fn add_run_line(alloc: Global, out: &mut Vec<u8>, profile: &ReadProfile) -> Result<(), NoMemory>
    ensures { OnOk result (out.new.items ≡ out.old.items ++ read_run_line profile.now) }
{
    add_run_ticks(alloc, out, profile.harts.as_slice().len(), profile.ticks)?;
    add_run_untold(alloc, out, profile.untold, profile.outside as usize)
}

/// Adds the line of a procedure.
fn add_procedure(
    alloc: Global,
    out: &mut Vec<u8>,
    procedure: &ReadProcedure,
) -> Result<(), NoMemory>
    ensures { OnOk result (out.new.items ≡ out.old.items ++ procedure_line (row_of procedure.now)) }
{
    let row = ProcedureRow {
        proc: &procedure.proc,
        entered: procedure.entered,
        ticks: procedure.ticks,
    };
    add_row(alloc, out, &row)
}

/// Adds the lines of procedures.
fn add_procedures(
    alloc: Global,
    out: &mut Vec<u8>,
    procedures: &[ReadProcedure],
) -> Result<(), NoMemory>
    ensures { OnOk result (out.new.items ≡ out.old.items ++ flat_map (λ x. procedure_line (row_of x)) procedures.now) }
{
    for procedure in procedures {
        add_procedure(alloc, out, procedure)?;
    }
    Ok(())
}

/// Returns the text of a profile.
#[tactic(auto, unfolding(crate::specs::Reading::profile_spelling))]
pub(crate) fn spelling(alloc: Global, profile: &ReadProfile) -> Result<Vec<u8>, NoMemory>
    requires { length profile.now.harts ≤ 32 }
    ensures { IfOk result (λ text. text.items ≡ profile_spelling profile.now) }
{
    let mut out = Vec::new(alloc);
    add_run_line(alloc, &mut out, profile)?;
    add_harts(alloc, &mut out, profile.harts.as_slice())?;
    add_procedures(alloc, &mut out, profile.procedures.as_slice())?;
    add_rest(
        alloc,
        &mut out,
        profile.rest_words as usize,
        profile.rest_ticks,
    )?;
    out.extend_from_slice(profile.others.bytes())?;
    Ok(out)
}
