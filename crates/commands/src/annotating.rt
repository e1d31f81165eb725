//! The command `annotate`.

ghost use Rattle.std.specs.Prelude.{◌≡◌, ◌≤◌, MatchResult, Ok, Err, length, option_map};
ghost use Rattle.code_points.specs.Procedures.{AreProcsOf, procedures_of};
ghost use Rattle.command_words.specs.Asked.{asked_annotate};
ghost use Rattle.command_words.specs.Requests.{HasRanges, annotate};
ghost use Rattle.commands.specs.FileReadings.{reads, Looks};
ghost use Rattle.commands.specs.Given.{IsUnscratched};
ghost use Rattle.commands.specs.Profiles.{IsAnnotateDue, IsAnnotation, IsBytesAnnotation, IsShown, IsUnitShown, chosen, lines_shown, words_shown};
ghost use Rattle.pn_types.specs.Images.{IsImage};
ghost use Rattle.refusals.specs.Refusals.{Comes, RefusalIs};

use crate::files::text_of;
use crate::inputs::read_program_file;
use crate::line_reading::{LineParts, line_parts};
use crate::loading::load;
use crate::profiling::{also, profiled, starts};
use crate::texts::Texts;
use block_count::heads;
use code_points::procedures;
use command_words::{AnnotateRequest, AnnotationUnit};
use elf_form::MAX_PROGRAM_LEN;
use outside::Files;
use pn_types::{Image, Proc};
use profile_text::{annotated_text, has_procedure};
use refusals::{Fault, Refusal};
use source_text::{SourceLines, sourced_text};
use std::alloc::Global;

/// An image with its procedures.
#[derive(Clone, Copy, Drop)]
struct ShownProgram<'a> {
    image: &'a Image,
    procs: &'a [Proc],
}

/// Returns the name that is given, if it is that of a procedure, and none where none is given.
fn choose<'a>(
    alloc: Global,
    image: &Image,
    procs: &[Proc],
    name: Option<&'a str>,
) -> Result<Option<&'a str>, Refusal>
    requires { procs.now ≡ procedures_of image.now }
    ensures { MatchResult result (λ found. Ok (option_map (λ s. s.now) found) ≡ chosen (option_map (λ s. s.now) name.entry) image.now)
        (λ e. RefusalIs e (λ fault. Err fault ≡ chosen (option_map (λ s. s.now) name.entry) image.now)) }
{
    match name {
        Some(name) if !has_procedure(procs, name) => {
            Err(Refusal::Fault(Fault::NoProcedure(text_of(alloc, name)?)))
        }
        name => Ok(name),
    }
}

/// Returns the words of procedures with the numbers of the profile.
fn show_words(
    alloc: Global,
    request: &AnnotateRequest<'_>,
    image: &Image,
    procs: &[Proc],
    name: Option<&str>,
) -> Result<Texts, Refusal>
    requires image { IsImage image.now }
    requires unscratched { IsUnscratched image.now }
    requires ranges { HasRanges (annotate (asked_annotate request.now)) }
    requires procs { procs.now ≡ procedures_of image.now }
    requires are_procs { AreProcsOf image.now procs.now }
    ensures { Comes result (IsShown (words_shown (asked_annotate request.now) image.now (option_map (λ s. s.now) name.entry))
        (asked_annotate request.now) image.now) }
{
    let also = also(alloc, request.source.also)?;
    let starts = starts(alloc, image, &also)?;
    let profile = profiled(alloc, &request.source, image, &starts)?;
    let heads = heads(alloc, image, &starts)?;
    let text = annotated_text(alloc, image, procs, &heads, &profile, name)?;
    Ok(Texts::output(alloc, text))
}

/// Returns the lines of source of procedures with the numbers of the profile.
fn show_lines(
    alloc: Global,
    request: &AnnotateRequest<'_>,
    program: ShownProgram<'_>,
    bytes: &[u8],
    parts: &LineParts,
    name: Option<&str>,
) -> Result<Texts, Refusal>
    requires image { IsImage program.image.now }
    requires unscratched { IsUnscratched program.image.now }
    requires ranges { HasRanges (annotate (asked_annotate request.now)) }
    requires procs { program.procs.now ≡ procedures_of program.image.now }
    requires are_procs { AreProcsOf program.image.now program.procs.now }
    ensures { Comes result (IsShown (lines_shown bytes.now parts.now program.entry.image.now (option_map (λ s. s.now) name.entry))
        (asked_annotate request.now) program.entry.image.now) }
{
    let also = also(alloc, request.source.also)?;
    let starts = starts(alloc, program.image, &also)?;
    let profile = profiled(alloc, &request.source, program.image, &starts)?;
    let lines = SourceLines {
        elf: bytes,
        units: parts.units.as_slice(),
        table: &parts.table,
    };
    let text = sourced_text(alloc, program.image, program.procs, &profile, &lines, name)?;
    Ok(Texts::output(alloc, text))
}

/// Returns what is asked for of an image's procedures: words, or lines of source.
fn show(
    alloc: Global,
    request: &AnnotateRequest<'_>,
    program: ShownProgram<'_>,
    bytes: &[u8],
    name: Option<&str>,
) -> Result<Texts, Refusal>
    requires image { IsImage program.image.now }
    requires unscratched { IsUnscratched program.image.now }
    requires ranges { HasRanges (annotate (asked_annotate request.now)) }
    requires procs { program.procs.now ≡ procedures_of program.image.now }
    requires are_procs { AreProcsOf program.image.now program.procs.now }
    ensures { Comes result (IsUnitShown (asked_annotate request.now).unit (asked_annotate request.now) bytes.now program.entry.image.now
        (option_map (λ s. s.now) name.entry)) }
{
    match request.unit {
        AnnotationUnit::Words => show_words(alloc, request, program.image, program.procs, name),
        AnnotationUnit::Lines => {
            let parts = line_parts(alloc, bytes)?;
            show_lines(alloc, request, program, bytes, &parts, name)
        }
    }
}

/// Returns what is asked for of an image's procedures, where these are the bytes of its file.
fn annotated(
    alloc: Global,
    request: &AnnotateRequest<'_>,
    image: &Image,
    bytes: &[u8],
) -> Result<Texts, Refusal>
    requires image { IsImage image.now }
    requires unscratched { IsUnscratched image.now }
    requires ranges { HasRanges (annotate (asked_annotate request.now)) }
    ensures { Comes result (IsAnnotation (asked_annotate request.now) bytes.now image.now) }
{
    let (procs, _) = procedures(alloc, image)?;
    let name = choose(alloc, image, &procs, request.procedure)?;
    let program = ShownProgram {
        image,
        procs: &procs,
    };
    show(alloc, request, program, bytes, name)
}

/// Returns what is due for the bytes of a program's file.
fn annotate_bytes(
    alloc: Global,
    request: &AnnotateRequest<'_>,
    bytes: &[u8],
) -> Result<Texts, Refusal>
    requires short { length bytes.now ≤ MAX_PROGRAM_LEN }
    requires ranges { HasRanges (annotate (asked_annotate request.now)) }
    ensures { Comes result (IsBytesAnnotation (asked_annotate request.now) bytes.now) }
{
    let image = load(alloc, bytes)?;
    annotated(alloc, request, &image, bytes)
}

/// Returns what is due for `annotate`.
///
/// # Errors
///
/// `Refusal::NoMemory` where memory runs out, or the first fault that is due.
pub fn annotate<F: Files>(
    alloc: Global,
    request: &AnnotateRequest<'_>,
    files: &mut F,
) -> Result<Texts, Refusal>
    requires ranges { HasRanges (annotate (asked_annotate request.now)) }
    ensures due { Comes result
        (IsAnnotateDue (asked_annotate request.now) (reads (F.holds files.old) (F.faults files.old) (F.faults files.new))) }
    ensures looks { Looks F.holds F.faults files.old files.new result }
{
    let bytes = read_program_file(alloc, files, request.source.counted.program)?;
    annotate_bytes(alloc, request, bytes.as_slice())
}
