//! Reading a whole ELF file.

ghost use Rattle.std.specs.Prelude.{◌≡◌, ◌≤◌, ◌<◌, ◌^◌, length, true, IfOk, Ok, Err, None};
ghost use Rattle.std.specs.List.{All};
ghost use Rattle.pn_types.specs.GoodNames.{is_good_name};
ghost use Rattle.elf_form.specs.Meaning.{meaning_of};
ghost use Rattle.elf_form.specs.Accepted.{IsAcceptedImage, names_len};
ghost use Rattle.elf_form.specs.Headers.{header_fault};
ghost use Rattle.elf_load.specs.Checks.{MeansWith};
ghost use Rattle.elf_load.specs.Means.{Means};

use crate::segments::{check_segments, loads_of, segments_of};
use crate::symbols::checked_symbols;
use crate::tables::{checked_header, program_headers, section_headers};
use crate::text::checked_text;
use elf_form::{ElfError, Load, MAX_NAMES_LEN, SectionHeader};
use pn_types::{Image, Seq};
use std::alloc::Global;

/// The image of a file with these tables, or its first fault.
fn image_of(
    alloc: Global,
    bytes: &[u8],
    entry: u64,
    loads: &[Load],
    sections: &[SectionHeader],
) -> Result<Image, ElfError>
    requires { header_fault bytes.now ≡ None }
    ensures meaning { MeansWith bytes.now (record { entry = entry; loads = loads.now; sections = sections.now }) result }
    ensures few { IfOk result (λ image. length image.symbols < 2 ^ 32) }
    ensures named { IfOk result (λ image. names_len image.symbols ≤ MAX_NAMES_LEN) }
{
    check_segments(loads, bytes.len() as u64)?;
    let text = checked_text(bytes, loads, sections, entry)?;
    let symbols = checked_symbols(alloc, bytes, sections)?;
    let segments = segments_of(alloc, bytes, loads)?;
    Ok(Image {
        segments: Seq::from_vec(segments),
        text_at: text.at,
        text_len: text.end as u64 - text.at,
        entry,
        symbols: Seq::from_vec(symbols),
    })
}

/// Returns the image of an ELF file.
///
/// # Errors
///
/// The first fault of the file, or out of memory. Out of memory comes also where the names of its symbols have
/// more than [`MAX_NAMES_LEN`] bytes together, or its symbol table has 2^32 entries or more.
pub fn load(alloc: Global, bytes: &[u8]) -> Result<Image, ElfError>
    ensures meaning { Means result (meaning_of bytes.now) }
    ensures accepted { IfOk result IsAcceptedImage }
    ensures modules { IfOk result (λ image. All (λ s. is_good_name s.«module» ≡ true) image.symbols) }
    ensures named { IfOk result (λ image. names_len image.symbols ≤ MAX_NAMES_LEN) }
{
    let header = checked_header(bytes)?;
    let loads = loads_of(alloc, &program_headers(alloc, bytes, &header)?)?;
    let sections = section_headers(alloc, bytes, &header)?;
    image_of(alloc, bytes, header.entry, &loads, &sections)
}
