//! The lines of words.

ghost use Rattle.std.specs.Prelude.{◌≡◌, ◌++◌, if◌then◌else◌, [], OnOk, flat_map};
ghost use Rattle.std.specs.List.{All};
ghost use Rattle.code_points.specs.Procedures.{IsProcOf};
ghost use Rattle.profile_text.specs.Lines.{word_line, word_lines};
ghost use Rattle.profile_text.specs.NumberedWords.{words_of_none, words_of_procedure};
ghost use Rattle.profile_text.specs.ProcedureRows.{rows_in};
ghost use Rattle.profile_text.specs.ProfiledTexts.{IsProfiledText};
ghost use Rattle.profile_text.specs.Rows.{rows_of};

use crate::numbered_word::NumberedWord;
use crate::pieces::{add_address, add_number};
use crate::procedure_row::ProcedureRow;
use crate::profiled_text::ProfiledText;
use crate::reading::words_of;
use disassembler::add_word_text;
use pn_types::NoMemory;
use std::alloc::Global;

/// Adds the line of a word.
fn add_word(alloc: Global, out: &mut Vec<u8>, word: &NumberedWord) -> Result<(), NoMemory>
    ensures { OnOk result (out.new.items ≡ out.old.items ++ word_line word.now) }
{
    add_address(alloc, out, b"word ", word.at)?;
    add_number(alloc, out, b" ", word.number)?;
    out.extend_from_slice(b" ")?;
    add_word_text(alloc, out, word.at, word.word)?;
    out.extend_from_slice(b"\n")
}

/// Adds the lines of words.
fn add_words(alloc: Global, out: &mut Vec<u8>, words: &[NumberedWord]) -> Result<(), NoMemory>
    ensures { OnOk result (out.new.items ≡ out.old.items ++ flat_map word_line words.now) }
{
    for word in words {
        add_word(alloc, out, word)?;
    }
    Ok(())
}

/// Adds the lines of the words of procedures.
fn add_words_of_rows(
    alloc: Global,
    out: &mut Vec<u8>,
    text: &ProfiledText<'_>,
    rows: &[ProcedureRow<'_>],
) -> Result<(), NoMemory>
    requires text { IsProfiledText text.now }
    requires procs { All (λ x. IsProcOf text.now.image.now x.proc.now) rows.now }
    ensures { OnOk result (out.new.items ≡ out.old.items
        ++ flat_map (λ x. flat_map word_line (words_of_procedure text.now.image.now text.now.profile.now x.proc)) (rows_in rows.now)) }
{
    for row in rows {
        add_words(alloc, out, words_of(text, row.proc))?;
    }
    Ok(())
}

/// Adds the lines of all words, where they are wanted: those of the procedures in the order of their rows, and then the rest.
///
/// # Errors
///
/// `NoMemory` where memory runs out.
pub fn add_words_if(
    alloc: Global,
    out: &mut Vec<u8>,
    wanted: bool,
    text: &ProfiledText<'_>,
    rows: &[ProcedureRow<'_>],
    rest: &[NumberedWord],
) -> Result<(), NoMemory>
    requires text { IsProfiledText text.now }
    requires procs { All (λ x. IsProcOf text.now.image.now x.proc.now) rows.now }
    requires rows { rows_in rows.now ≡ rows_of text.now.image.now text.now.procs.now text.now.profile.now }
    requires rest { rest.now ≡ words_of_none text.now.image.now text.now.procs.now text.now.profile.now }
    ensures { OnOk result (out.new.items ≡ out.old.items
        ++ (if wanted then word_lines text.now.image.now text.now.procs.now text.now.profile.now else [])) }
{
    if !wanted {
        return Ok(());
    }
    add_words_of_rows(alloc, out, text, rows)?;
    add_words(alloc, out, rest)
}
