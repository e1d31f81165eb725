//! The profile of a program by lines of its source.

ghost use Rattle.std.specs.Prelude.{◌≡◌, ◌==◌, ◌++◌, IfOk, OnOk, flat_map, nat_lt, option_and_then, option_map};
ghost use Rattle.std.specs.List.{All, find};
ghost use Rattle.code_points.specs.Procedures.{AreProcsOf, IsProcOf};
ghost use Rattle.line_table.specs.Meaning.{file_name};
ghost use Rattle.pn_types.specs.Images.{IsImage};
ghost use Rattle.profile_text.specs.ProcedureRows.{row_of, rows_in};
ghost use Rattle.profile_text.specs.ProfiledTexts.{IsProfiledText};
ghost use Rattle.profile_text.specs.Totals.{Fits};
ghost use Rattle.profile_text.specs.NumberedWords.{words_of_procedure};
ghost use Rattle.source_text.specs.Sources.{by_place};
ghost use Rattle.source_text.specs.Ticks.{source_ticks};
ghost use Rattle.source_text.specs.Text.{path_of, source_line, source_text, sourced_procedure, sourced_procedures, sourced_text};
ghost use Rattle.source_text.specs.TextsByLines.{AreTextLines};

use crate::files::{SourceLines, unit_at, units_by_place};
use crate::rows::rows_by_place;
use crate::source::{Source, SourceTicks};
use crate::text_lines::TextLines;
use crate::ticks::source_ticks;
use pn_types::{Image, NoMemory, Proc, Text};
use profile_text::{
    ProcedureRow, ProfiledText, add_break, add_number, add_numbers, add_row, rows_by_ticks,
    rows_named, text_with_profile, ticks_of, words_of,
};
use std::alloc::Global;
use word_counts::Profile;

/// Returns the name of a source's file, where its unit has one of that number.
fn name_of_file(
    alloc: Global,
    text: &TextLines<'_>,
    source: Source,
) -> Result<Option<Text>, NoMemory>
    requires { AreTextLines text.now }
    ensures { IfOk result (λ name. name
        ≡ option_and_then (λ u. file_name text.now.lines.now.elf.now u source.file) (find (λ u. source.unit == u.unit) text.now.lines.now.units.now)) }
{
    match unit_at(&text.units, source.unit) {
        Some(unit) => unit.file_name(alloc, text.lines.elf, source.file),
        None => Ok(None),
    }
}

/// Adds the name of a source's file.
fn add_path(
    alloc: Global,
    out: &mut Vec<u8>,
    text: &TextLines<'_>,
    source: Source,
) -> Result<(), NoMemory>
    requires { AreTextLines text.now }
    ensures { OnOk result (out.new.items ≡ out.old.items ++ path_of text.now.lines.now.elf.now text.now.lines.now.units.now source) }
{
    match name_of_file(alloc, text, source)? {
        Some(name) => out.extend_from_slice(name.bytes()),
        None => out.extend_from_slice(b"?"),
    }
}

/// Adds a source.
fn add_source(
    alloc: Global,
    out: &mut Vec<u8>,
    text: &TextLines<'_>,
    source: Option<Source>,
) -> Result<(), NoMemory>
    requires { AreTextLines text.now }
    ensures { OnOk result (out.new.items ≡ out.old.items ++ source_text text.now.lines.now.elf.now text.now.lines.now.units.now source) }
{
    let Some(source) = source else {
        return out.extend_from_slice(b"?");
    };
    add_path(alloc, out, text, source)?;
    add_number(alloc, out, b":", source.line as u64)
}

/// Adds the ticks at a source.
fn add_line(
    alloc: Global,
    out: &mut Vec<u8>,
    text: &TextLines<'_>,
    part: &SourceTicks,
) -> Result<(), NoMemory>
    requires { AreTextLines text.now }
    ensures { OnOk result (out.new.items
        ≡ out.old.items ++ source_line text.now.lines.now.elf.now text.now.lines.now.units.now text.now.all part.now) }
{
    add_numbers(alloc, out, part.ticks, text.all)?;
    add_source(alloc, out, text, part.source)?;
    out.extend_from_slice(b"\n")
}

/// Adds the ticks at sources.
fn add_lines(
    alloc: Global,
    out: &mut Vec<u8>,
    text: &TextLines<'_>,
    parts: &[SourceTicks],
) -> Result<(), NoMemory>
    requires { AreTextLines text.now }
    ensures { OnOk result (out.new.items
        ≡ out.old.items ++ flat_map (source_line text.now.lines.now.elf.now text.now.lines.now.units.now text.now.all) parts.now) }
{
    for part in parts {
        add_line(alloc, out, text, part)?;
    }
    Ok(())
}

/// Returns the ticks of a procedure's words at each of their sources.
fn ticks_of_procedure(
    alloc: Global,
    text: &TextLines<'_>,
    proc: &Proc,
) -> Result<Vec<SourceTicks>, NoMemory>
    requires text { AreTextLines text.now }
    requires proc { IsProcOf text.now.text.now.image.now proc.now }
    ensures { IfOk result (λ parts. parts.items
        ≡ source_ticks text.now.rows.items (words_of_procedure text.now.text.now.image.now text.now.text.now.profile.now proc.now)) }
{
    source_ticks(alloc, &text.rows, words_of(text.text, proc))
}

/// Adds a procedure.
fn add_procedure(
    alloc: Global,
    out: &mut Vec<u8>,
    text: &TextLines<'_>,
    row: &ProcedureRow<'_>,
) -> Result<(), NoMemory>
    requires text { AreTextLines text.now }
    requires proc { IsProcOf text.now.text.now.image.now row.now.proc.now }
    ensures { OnOk result (out.new.items ≡ out.old.items
        ++ sourced_procedure text.now.lines.now.elf.now text.now.lines.now.units.now text.now.rows.items text.now.text.now.image.now
        text.now.text.now.profile.now (row_of row.now)) }
{
    add_row(alloc, out, row)?;
    out.extend_from_slice(b"\n")?;
    let parts = ticks_of_procedure(alloc, text, row.proc)?;
    add_lines(alloc, out, text, &parts)?;
    Ok(())
}

/// Adds procedures, with an empty line between any two.
fn add_procedures(
    alloc: Global,
    out: &mut Vec<u8>,
    text: &TextLines<'_>,
    rows: &[ProcedureRow<'_>],
) -> Result<(), NoMemory>
    requires text { AreTextLines text.now }
    requires procs { All (λ x. IsProcOf text.now.text.now.image.now x.proc.now) rows.now }
    ensures { OnOk result (out.new.items ≡ out.old.items
        ++ sourced_procedures text.now.lines.now.elf.now text.now.lines.now.units.now text.now.rows.items text.now.text.now.image.now
        text.now.text.now.profile.now 0 (rows_in rows.now)) }
{
    for place in 0..rows.len() {
        add_break(out, place > 0)?;
        add_procedure(alloc, out, text, &rows[place])?;
    }
    Ok(())
}

/// Prepares the source lines of a text.
fn text_lines<'a>(
    alloc: Global,
    text: &'a ProfiledText<'a>,
    lines: &'a SourceLines<'a>,
) -> Result<TextLines<'a>, NoMemory>
    requires { IsProfiledText text.now }
    ensures is { IfOk result AreTextLines }
    ensures text { IfOk result (λ it. it.text.now ≡ text.now) }
    ensures lines { IfOk result (λ it. it.lines.now ≡ lines.now) }
{
    let units = units_by_place(alloc, lines.units)?;
    let rows = rows_by_place(alloc, lines.table)?;
    let all = ticks_of(text.profile);
    Ok(TextLines {
        text,
        lines,
        units,
        rows,
        all,
    })
}

/// Adds the procedures that are chosen.
fn add_text(
    alloc: Global,
    out: &mut Vec<u8>,
    text: &ProfiledText<'_>,
    lines: &SourceLines<'_>,
    rows: &[ProcedureRow<'_>],
) -> Result<(), NoMemory>
    requires text { IsProfiledText text.now }
    requires procs { All (λ x. IsProcOf text.now.image.now x.proc.now) rows.now }
    ensures { OnOk result (out.new.items ≡ out.old.items
        ++ sourced_procedures lines.now.elf.now lines.now.units.now (by_place lines.now.table.now.rows) text.now.image.now
        text.now.profile.now 0 (rows_in rows.now)) }
{
    let prepared = text_lines(alloc, text, lines)?;
    add_procedures(alloc, out, &prepared, rows)?;
    Ok(())
}

/// Returns the profile of a program by lines of its source: for each procedure, or for those that a text names, by descending ticks, its
/// line as in the profile's lines, an empty line, and for each source line that its words come from, by ascending unit, file and line,
/// the ticks of these words, their share of all ticks, ` * ` where that is a twentieth or more, and `PATH:LINE`, or `?` for words of no
/// known source. An empty line stands between procedures.
///
/// # Errors
///
/// `NoMemory` where memory runs out.
pub fn sourced_text(
    alloc: Global,
    image: &Image,
    procs: &[Proc],
    profile: &Profile,
    lines: &SourceLines<'_>,
    name: Option<&str>,
) -> Result<Vec<u8>, NoMemory>
    requires image { IsImage image.now }
    requires procs { AreProcsOf image.now procs.now }
    requires fits { Fits image.now profile.now }
    ensures { IfOk result (λ text. text.items
        ≡ sourced_text lines.now.elf.now lines.now.units.now lines.now.table.now.rows image.now procs.now profile.now
        (option_map (λ s. s.now) name.entry)) }
{
    let text = text_with_profile(alloc, image, procs, profile)?;
    let rows = rows_by_ticks(alloc, &text)?;
    let chosen = rows_named(alloc, text.image, &rows, name)?;
    let mut out = Vec::new(alloc);
    add_text(alloc, &mut out, &text, lines, &chosen)?;
    Ok(out)
}
