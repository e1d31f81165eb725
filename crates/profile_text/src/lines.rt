//! The lines of a profile.

ghost use Rattle.std.specs.Prelude.{◌≡◌, ◌++◌, IfOk, OnOk};
ghost use Rattle.std.specs.List.{All};
ghost use Rattle.code_points.specs.Procedures.{AreProcsOf, IsProcOf};
ghost use Rattle.pn_types.specs.Images.{IsImage};
ghost use Rattle.profile_text.specs.Lines.{profile_lines};
ghost use Rattle.profile_text.specs.NumberedWords.{words_of_none};
ghost use Rattle.profile_text.specs.ProcedureRows.{rows_in};
ghost use Rattle.profile_text.specs.ProfiledTexts.{IsProfiledText};
ghost use Rattle.profile_text.specs.Rows.{rows_of};
ghost use Rattle.profile_text.specs.Totals.{Fits};

use crate::jump_lines::{add_calls, add_loops};
use crate::numbered_word::NumberedWord;
use crate::ordering::rows_by_ticks;
use crate::procedure_row::ProcedureRow;
use crate::profiled_text::ProfiledText;
use crate::reading::{profiled_text, words_of_none};
use crate::row_lines::{add_rest, add_rows, ticks_of_none};
use crate::run_lines::add_run_and_harts;
use crate::word_lines::add_words_if;
use pn_types::{Image, NoMemory, Proc};
use std::alloc::Global;
use word_counts::Profile;

/// Adds the lines of a profile, whose rows and words that no procedure has are these.
fn add_lines(
    alloc: Global,
    out: &mut Vec<u8>,
    text: &ProfiledText<'_>,
    rows: &[ProcedureRow<'_>],
    rest: &[NumberedWord],
    has_words: bool,
) -> Result<(), NoMemory>
    requires text { IsProfiledText text.now }
    requires procs { All (λ x. IsProcOf text.now.image.now x.proc.now) rows.now }
    requires rows { rows_in rows.now ≡ rows_of text.now.image.now text.now.procs.now text.now.profile.now }
    requires rest { rest.now ≡ words_of_none text.now.image.now text.now.procs.now text.now.profile.now }
    ensures { OnOk result (out.new.items
        ≡ out.old.items ++ profile_lines text.now.image.now text.now.procs.now text.now.profile.now has_words) }
{
    add_run_and_harts(alloc, out, text)?;
    add_rows(alloc, out, rows)?;
    add_rest(alloc, out, rest.len(), ticks_of_none(text, rest))?;
    add_calls(alloc, out, text)?;
    add_loops(alloc, out, text)?;
    add_words_if(alloc, out, has_words, text, rows, rest)?;
    Ok(())
}

/// Returns the lines of a profile, one record a line: `profile harts H ticks T untold U outside O`, a line for each hart as in the report
/// of a run, then for each procedure, by descending ticks, `procedure MODULE/NAME at ADDRESS words W entered E ticks N`, then `rest
/// words W ticks N` for the words that no procedure has. Each direct call that was executed has a line `call FROM ADDRESS TO N`, and
/// each word that leads back to a word of its procedure a line `loop MODULE/NAME FIRST to LAST first N last N ticks N`, both by
/// ascending address. Where words are asked for, each has a line `word ADDRESS N INSTRUCTION`.
///
/// # Errors
///
/// `NoMemory` where memory runs out.
pub fn profile_lines(
    alloc: Global,
    image: &Image,
    procs: &[Proc],
    profile: &Profile,
    has_words: bool,
) -> Result<Vec<u8>, NoMemory>
    requires image { IsImage image.now }
    requires procs { AreProcsOf image.now procs.now }
    requires fits { Fits image.now profile.now }
    ensures { IfOk result (λ text. text.items ≡ profile_lines image.now procs.now profile.now has_words) }
{
    let text = profiled_text(alloc, image, procs, profile)?;
    let rows = rows_by_ticks(alloc, &text)?;
    let rest = words_of_none(alloc, &text)?;
    let mut out = Vec::new(alloc);
    add_lines(alloc, &mut out, &text, &rows, &rest, has_words)?;
    Ok(out)
}
