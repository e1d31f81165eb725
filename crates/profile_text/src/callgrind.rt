//! A profile in callgrind's format.

ghost use Rattle.std.specs.Prelude.{◌≡◌, ◌++◌, IfOk, OnOk, flat_map};
ghost use Rattle.std.specs.List.{All};
ghost use Rattle.code_points.specs.Procedures.{AreProcsOf, IsProcOf};
ghost use Rattle.pn_types.specs.Images.{IsImage};
ghost use Rattle.profile_text.specs.Callgrind.{callgrind_form, callgrind_summary, callgrind_text, cost_line, executed, function_costs, function_names, procedure_costs};
ghost use Rattle.profile_text.specs.NumberedWords.{words_of_none};
ghost use Rattle.profile_text.specs.ProfiledTexts.{IsProfiledText};
ghost use Rattle.profile_text.specs.Totals.{Fits};

use crate::numbered_word::NumberedWord;
use crate::pieces::{add_address, add_number};
use crate::profiled_text::ProfiledText;
use crate::reading::{profiled_text, words_of, words_of_none};
use crate::run_lines::ticks_of;
use pn_types::{Image, NoMemory, Proc};
use std::alloc::Global;
use word_counts::Profile;

/// Adds the lines in front of the summary.
fn add_form(out: &mut Vec<u8>) -> Result<(), NoMemory>
    ensures { OnOk result (out.new.items ≡ out.old.items ++ callgrind_form) }
{
    out.extend_from_slice(
        b"# callgrind format\nversion: 1\ncreator: paradyn\ncmd: program\npositions: instr\nevents: Ticks\n",
    )
}

/// Adds the summary.
fn add_summary(alloc: Global, out: &mut Vec<u8>, ticks: u64) -> Result<(), NoMemory>
    ensures { OnOk result (out.new.items ≡ out.old.items ++ callgrind_summary ticks) }
{
    add_number(alloc, out, b"summary: ", ticks)?;
    out.extend_from_slice(b"\n\n")
}

/// Returns the executed ones of these words.
fn executed(alloc: Global, words: &[NumberedWord]) -> Result<Vec<NumberedWord>, NoMemory>
    ensures { IfOk result (λ found. found.items ≡ executed words.now) }
{
    let mut found = Vec::new(alloc);
    for word in words {
        if word.number != 0 {
            found.push(*word)?;
        }
    }
    Ok(found)
}

/// Adds the cost of a word.
fn add_cost(alloc: Global, out: &mut Vec<u8>, word: &NumberedWord) -> Result<(), NoMemory>
    ensures { OnOk result (out.new.items ≡ out.old.items ++ cost_line word.now) }
{
    add_address(alloc, out, b"", word.at)?;
    add_number(alloc, out, b" ", word.number)?;
    out.extend_from_slice(b"\n")
}

/// Adds the costs of words.
fn add_costs(alloc: Global, out: &mut Vec<u8>, words: &[NumberedWord]) -> Result<(), NoMemory>
    ensures { OnOk result (out.new.items ≡ out.old.items ++ flat_map cost_line words.now) }
{
    for word in words {
        add_cost(alloc, out, word)?;
    }
    Ok(())
}

/// Adds the names of a function's file and of the function.
fn add_names(out: &mut Vec<u8>, file: &[u8], name: &[u8]) -> Result<(), NoMemory>
    ensures { OnOk result (out.new.items ≡ out.old.items ++ function_names file.now name.now) }
{
    out.extend_from_slice(b"fl=")?;
    out.extend_from_slice(file)?;
    out.extend_from_slice(b"\nfn=")?;
    out.extend_from_slice(name)?;
    out.extend_from_slice(b"\n")
}

/// Adds the costs of a function whose executed words these are, and nothing where there are none.
fn add_function(
    alloc: Global,
    out: &mut Vec<u8>,
    file: &[u8],
    name: &[u8],
    words: &[NumberedWord],
) -> Result<(), NoMemory>
    ensures { OnOk result (out.new.items ≡ out.old.items ++ function_costs file.now name.now words.now) }
{
    if words.is_empty() {
        return Ok(());
    }
    add_names(out, file, name)?;
    add_costs(alloc, out, words)?;
    out.extend_from_slice(b"\n")
}

/// Adds the costs of a procedure.
fn add_procedure(
    alloc: Global,
    out: &mut Vec<u8>,
    text: &ProfiledText<'_>,
    proc: &Proc,
) -> Result<(), NoMemory>
    requires text { IsProfiledText text.now }
    requires proc { IsProcOf text.now.image.now proc.now }
    ensures { OnOk result (out.new.items ≡ out.old.items ++ procedure_costs text.now.image.now text.now.profile.now proc.now) }
{
    let words = executed(alloc, words_of(text, proc))?;
    add_function(alloc, out, proc.module.bytes(), proc.name.bytes(), &words)
}

/// Adds the costs of procedures.
fn add_procedures(
    alloc: Global,
    out: &mut Vec<u8>,
    text: &ProfiledText<'_>,
    procs: &[Proc],
) -> Result<(), NoMemory>
    requires text { IsProfiledText text.now }
    requires procs { All (IsProcOf text.now.image.now) procs.now }
    ensures { OnOk result (out.new.items
        ≡ out.old.items ++ flat_map (procedure_costs text.now.image.now text.now.profile.now) procs.now) }
{
    for proc in procs {
        add_procedure(alloc, out, text, proc)?;
    }
    Ok(())
}

/// Adds all costs behind the lines in front of them; the executed words that no procedure has are these.
fn add_text(
    alloc: Global,
    out: &mut Vec<u8>,
    text: &ProfiledText<'_>,
    rest: &[NumberedWord],
) -> Result<(), NoMemory>
    requires text { IsProfiledText text.now }
    requires rest { rest.now ≡ executed (words_of_none text.now.image.now text.now.procs.now text.now.profile.now) }
    ensures { OnOk result (out.new.items ≡ out.old.items ++ callgrind_text text.now.image.now text.now.procs.now text.now.profile.now) }
{
    add_form(out)?;
    add_summary(alloc, out, ticks_of(text.profile))?;
    add_procedures(alloc, out, text, text.procs)?;
    add_function(alloc, out, b"???", b"???", rest)?;
    Ok(())
}

/// Returns a profile in callgrind's format, which `callgrind_annotate` and KCachegrind read: the executed words of each procedure by
/// ascending address, then those that no procedure has. There are no calls, since the costs of what is called aren't known. The
/// summary is all ticks, so the untold ones and those outside of the text are what the costs don't add up to.
///
/// # Errors
///
/// `NoMemory` where memory runs out.
pub fn callgrind_text(
    alloc: Global,
    image: &Image,
    procs: &[Proc],
    profile: &Profile,
) -> Result<Vec<u8>, NoMemory>
    requires image { IsImage image.now }
    requires procs { AreProcsOf image.now procs.now }
    requires fits { Fits image.now profile.now }
    ensures { IfOk result (λ text. text.items ≡ callgrind_text image.now procs.now profile.now) }
{
    let text = profiled_text(alloc, image, procs, profile)?;
    let none = words_of_none(alloc, &text)?;
    let rest = executed(alloc, &none)?;
    let mut out = Vec::new(alloc);
    add_text(alloc, &mut out, &text, &rest)?;
    Ok(out)
}
