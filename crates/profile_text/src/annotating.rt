//! The instructions of procedures with the numbers of a profile.

ghost use Rattle.std.specs.Prelude.{◌≡◌, ◌++◌, IfOk, OnOk, flat_map, option_and_then, option_map};
ghost use Rattle.std.specs.HashSet.{contains};
ghost use Rattle.std.specs.List.{All};
ghost use Rattle.std.specs.Prelude.{nat_eq, ℕ};
ghost use Rattle.code_points.specs.Procedures.{AreProcsOf, IsProcOf};
ghost use Rattle.pn_types.specs.Images.{IsImage};
ghost use Rattle.rv_word.specs.Names.{jump_of};
ghost use Rattle.rv_word.specs.Table.{decode_of};
ghost use Rattle.profile_text.specs.Names.{procedure_from};
ghost use Rattle.profile_text.specs.Annotated.{annotated_procedure, annotated_rows, annotated_text, annotated_word, break_text, hot_text, instruction_line, is_head, is_hot, number_columns, target_comment};
ghost use Rattle.profile_text.specs.Annotating.{AreAnnotations};
ghost use Rattle.profile_text.specs.Finding.{DoAscend};
ghost use Rattle.profile_text.specs.ProcedureRows.{row_of, rows_in};
ghost use Rattle.profile_text.specs.ProfiledTexts.{IsProfiledText};
ghost use Rattle.profile_text.specs.Rows.{is_chosen, rows_named};
ghost use Rattle.profile_text.specs.Totals.{Fits, ticks_of};

use crate::annotations::Annotations;
use crate::columns::{add_padded, number_text, share_text};
use crate::finding::procedure_from;
use crate::names::{add_path, is_named};
use crate::numbered_word::NumberedWord;
use crate::ordering::rows_by_ticks;
use crate::pieces::add_address;
use crate::procedure_row::ProcedureRow;
use crate::profiled_text::ProfiledText;
use crate::reading::{profiled_text, words_of};
use crate::row_lines::add_row;
use crate::run_lines::ticks_of;
use block_count::BlockHead;
use disassembler::add_word_text;
use pn_types::{Image, NoMemory, Proc};
use rv_word::jump_target;
use std::alloc::Global;
use std::collections::HashSet;
use word_counts::Profile;

/// Returns the addresses at which blocks begin.
fn head_addresses(alloc: Global, heads: &[BlockHead]) -> Result<HashSet<u64>, NoMemory>
    ensures { IfOk result (λ found. (a : ℕ) → contains nat_eq found a ≡ is_head heads.now a) }
{
    let mut found = HashSet::new(alloc);
    for head in heads {
        found.insert(head.at)?;
    }
    Ok(found)
}

/// Returns whether a text names the procedure, where there is one.
fn is_chosen(proc: &Proc, name: Option<&str>) -> bool
    ensures { result ≡ is_chosen (option_map (λ s. s.now) name.entry) proc.now }
{
    match name {
        Some(name) => is_named(proc, name),
        None => true,
    }
}

/// Returns the rows of the procedures that are chosen.
pub fn rows_named<'a>(
    alloc: Global,
    image: &Image,
    rows: &[ProcedureRow<'a>],
    name: Option<&str>,
) -> Result<Vec<ProcedureRow<'a>>, NoMemory>
    requires procs { All (λ x. IsProcOf image.now x.proc.now) rows.now }
    ensures rows { IfOk result (λ found. rows_in found.items ≡ rows_named (option_map (λ s. s.now) name.entry) (rows_in rows.now)) }
    ensures procs { IfOk result (λ found. All (λ x. IsProcOf image.now x.proc.now) found.items) }
{
    let mut found = Vec::new(alloc);
    for row in rows {
        if is_chosen(row.proc, name) {
            found.push(*row)?;
        }
    }
    Ok(found)
}

/// Adds an empty line, where one is wanted.
pub fn add_break(out: &mut Vec<u8>, wanted: bool) -> Result<(), NoMemory>
    ensures { OnOk result (out.new.items ≡ out.old.items ++ break_text wanted) }
{
    if wanted {
        return out.extend_from_slice(b"\n");
    }
    Ok(())
}

/// Returns whether at least one of 20 ticks is at a word.
fn is_hot(number: u64, all: u64) -> bool
    ensures { result ≡ is_hot number all }
{
    number != 0 && all as u128 <= number as u128 * 20
}

/// Adds whether a word is hot.
fn add_hot(out: &mut Vec<u8>, hot: bool) -> Result<(), NoMemory>
    ensures { OnOk result (out.new.items ≡ out.old.items ++ hot_text hot) }
{
    if hot {
        return out.extend_from_slice(b" * ");
    }
    out.extend_from_slice(b"   ")
}

/// Adds how often a word was executed, its share of all ticks, and whether it is hot.
pub fn add_numbers(alloc: Global, out: &mut Vec<u8>, number: u64, all: u64) -> Result<(), NoMemory>
    ensures { OnOk result (out.new.items ≡ out.old.items ++ number_columns number all) }
{
    let text = number_text(alloc, number)?;
    let share = share_text(alloc, number, all)?;
    add_padded(out, 12, &text)?;
    add_padded(out, 8, &share)?;
    add_hot(out, is_hot(number, all))
}

/// Returns the procedure to whose start a word leads.
fn target_procedure<'a>(procs: &'a [Proc], word: &NumberedWord) -> Option<&'a Proc>
    requires { DoAscend procs.now }
    ensures { option_map (λ p. p.now) result ≡ option_and_then (procedure_from procs.now) (jump_of (decode_of word.now.word) word.now.at) }
{
    let target = jump_target(word.word, word.at)?;
    procedure_from(procs, target)
}

/// Adds the name of the procedure to whose start a word leads, as a comment.
fn add_comment(out: &mut Vec<u8>, procs: &[Proc], word: &NumberedWord) -> Result<(), NoMemory>
    requires { DoAscend procs.now }
    ensures { OnOk result (out.new.items ≡ out.old.items ++ target_comment procs.now word.now) }
{
    match target_procedure(procs, word) {
        Some(proc) => {
            out.extend_from_slice(b"  # ")?;
            add_path(out, proc)
        }
        None => Ok(()),
    }
}

/// Adds a word's address and instruction.
fn add_instruction_line(
    alloc: Global,
    out: &mut Vec<u8>,
    procs: &[Proc],
    word: &NumberedWord,
) -> Result<(), NoMemory>
    requires { DoAscend procs.now }
    ensures { OnOk result (out.new.items ≡ out.old.items ++ instruction_line procs.now word.now) }
{
    add_address(alloc, out, b"", word.at)?;
    out.extend_from_slice(b"  ")?;
    add_word_text(alloc, out, word.at, word.word)?;
    add_comment(out, procs, word)?;
    out.extend_from_slice(b"\n")
}

/// Adds a word, after an empty line where a block begins with it.
fn add_word(
    alloc: Global,
    out: &mut Vec<u8>,
    procs: &[Proc],
    begins: bool,
    all: u64,
    word: &NumberedWord,
) -> Result<(), NoMemory>
    requires { DoAscend procs.now }
    ensures { OnOk result (out.new.items
        ≡ out.old.items ++ (break_text begins ++ number_columns word.now.number all ++ instruction_line procs.now word.now)) }
{
    add_break(out, begins)?;
    add_numbers(alloc, out, word.number, all)?;
    add_instruction_line(alloc, out, procs, word)?;
    Ok(())
}

/// Returns whether a block begins at an address.
fn begins_block(notes: &Annotations<'_>, at: u64) -> bool
    requires { AreAnnotations notes.now }
    ensures { result ≡ is_head notes.now.heads.now at }
{
    notes.addresses.contains(&at)
}

/// Adds words.
fn add_words(
    alloc: Global,
    out: &mut Vec<u8>,
    notes: &Annotations<'_>,
    words: &[NumberedWord],
) -> Result<(), NoMemory>
    requires { AreAnnotations notes.now }
    ensures { OnOk result (out.new.items
        ≡ out.old.items ++ flat_map (annotated_word notes.now.text.now.procs.now notes.now.heads.now notes.now.all) words.now) }
{
    for word in words {
        let begins = begins_block(notes, word.at);
        add_word(alloc, out, notes.text.procs, begins, notes.all, word)?;
    }
    Ok(())
}

/// Adds a procedure, and its words.
fn add_procedure(
    alloc: Global,
    out: &mut Vec<u8>,
    notes: &Annotations<'_>,
    row: &ProcedureRow<'_>,
) -> Result<(), NoMemory>
    requires notes { AreAnnotations notes.now }
    requires proc { IsProcOf notes.now.text.now.image.now row.now.proc.now }
    ensures { OnOk result (out.new.items ≡ out.old.items ++ annotated_procedure notes.now.text.now.image.now
        notes.now.text.now.procs.now notes.now.heads.now notes.now.text.now.profile.now (row_of row.now)) }
{
    add_row(alloc, out, row)?;
    add_words(alloc, out, notes, words_of(notes.text, row.proc))?;
    Ok(())
}

/// Adds procedures, with an empty line between any two.
fn add_procedures(
    alloc: Global,
    out: &mut Vec<u8>,
    notes: &Annotations<'_>,
    rows: &[ProcedureRow<'_>],
) -> Result<(), NoMemory>
    requires notes { AreAnnotations notes.now }
    requires procs { All (λ x. IsProcOf notes.now.text.now.image.now x.proc.now) rows.now }
    ensures { OnOk result (out.new.items ≡ out.old.items ++ annotated_rows notes.now.text.now.image.now
        notes.now.text.now.procs.now notes.now.heads.now notes.now.text.now.profile.now 0 (rows_in rows.now)) }
{
    for (place, row) in rows.iter().enumerate() {
        add_break(out, place > 0)?;
        add_procedure(alloc, out, notes, row)?;
    }
    Ok(())
}

/// Adds the annotated text of the procedures with these rows.
fn add_text(
    alloc: Global,
    out: &mut Vec<u8>,
    text: &ProfiledText<'_>,
    heads: &[BlockHead],
    rows: &[ProcedureRow<'_>],
) -> Result<(), NoMemory>
    requires text { IsProfiledText text.now }
    requires procs { All (λ x. IsProcOf text.now.image.now x.proc.now) rows.now }
    ensures { OnOk result (out.new.items ≡ out.old.items
        ++ annotated_rows text.now.image.now text.now.procs.now heads.now text.now.profile.now 0 (rows_in rows.now)) }
{
    let addresses = head_addresses(alloc, heads)?;
    let all = ticks_of(text.profile);
    let notes = Annotations {
        text,
        heads,
        addresses,
        all,
    };
    add_procedures(alloc, out, &notes, rows)
}

/// Returns the instructions of the procedures by descending ticks, or of those that a text names, with a line for each word: how often
/// it was executed, its share of all ticks, `*` where that is at least a twentieth, its address and its instruction, and behind a jump
/// to a procedure's start the name of that. An empty line stands where a basic block begins and between procedures.
///
/// # Errors
///
/// `NoMemory` where memory runs out.
pub fn annotated_text(
    alloc: Global,
    image: &Image,
    procs: &[Proc],
    heads: &[BlockHead],
    profile: &Profile,
    name: Option<&str>,
) -> Result<Vec<u8>, NoMemory>
    requires image { IsImage image.now }
    requires procs { AreProcsOf image.now procs.now }
    requires fits { Fits image.now profile.now }
    ensures { IfOk result (λ text. text.items
        ≡ annotated_text image.now procs.now heads.now profile.now (option_map (λ s. s.now) name.entry)) }
{
    let text = profiled_text(alloc, image, procs, profile)?;
    let rows = rows_by_ticks(alloc, &text)?;
    let chosen = rows_named(alloc, text.image, &rows, name)?;
    let mut out = Vec::new(alloc);
    add_text(alloc, &mut out, &text, heads, &chosen)?;
    Ok(out)
}
