//! Writing an image as an ELF file.

ghost use Rattle.std.specs.Prelude.{◌≡◌, ◌<◌, ◌^◌, ◌+◌, ◌++◌, OnOk, IfOk, length, sum_by};
ghost use Rattle.pn_types.specs.Images.{IsImage};
ghost use Rattle.elf_write.specs.Symbols.{symbol_table, string_table, locals_of};
ghost use Rattle.elf_write.specs.Layout.{places_of, segments_bytes, text_section, symbol_section, string_section, section_headers, elf_bytes, CanWrite};

use crate::fields::push_padded;
use crate::headers::{Section, push_file_header, push_program_headers, push_section_header};
use crate::places::{Places, padded_len, place_of, segments_at, segments_len};
use crate::symbols::{Tables, tables_of};
use pn_types::{Image, NoMemory, Segment};
use std::alloc::Global;

/// The null section.
const NULL_SECTION: Section = Section {
    kind: 0,
    flags: 0,
    address: 0,
    offset: 0,
    size: 0,
    link: 0,
    info: 0,
    alignment: 0,
    entry_size: 0,
};

/// Where the parts of the file stand.
#[tactic(auto, unfolding(crate::specs::Layout::places_of))]
fn places_of(image: &Image, tables: &Tables) -> Places
    requires few { length image.now.segments < 2 ^ 16 }
    requires small { sum_by (λ s. length s.bytes) image.now.segments < 2 ^ 32 }
    requires named { CanWrite image.now }
    requires symbols { tables.now.symbols.items ≡ symbol_table image.now.symbols }
    requires strings { tables.now.strings.items ≡ string_table image.now.symbols }
    ensures { result ≡ places_of image.now }
{
    let segments = image.segments.as_slice();
    let symbols = segments_at(segments) + segments_len(segments);
    let strings = symbols + tables.symbols.len() as u64;
    Places {
        text: place_of(image.text_at, segments),
        symbols,
        strings,
        sections: strings + padded_len(&tables.strings),
    }
}

/// Appends the segments' bytes.
fn push_segments(out: &mut Vec<u8>, segments: &[Segment]) -> Result<(), NoMemory>
    ensures { OnOk result (out.new.items ≡ out.old.items ++ segments_bytes segments.now) }
{
    for segment in segments {
        push_padded(out, segment.bytes.as_slice())?;
    }
    Ok(())
}

/// The section of the text.
fn text_section(image: &Image, places: &Places) -> Section
    ensures { result ≡ text_section image.now places.now }
{
    Section {
        kind: 1,
        flags: 6,
        address: image.text_at,
        offset: places.text,
        size: image.text_len,
        link: 0,
        info: 0,
        alignment: 4,
        entry_size: 0,
    }
}

/// The section of the symbols.
fn symbol_section(image: &Image, tables: &Tables, places: &Places) -> Section
    requires symbols { tables.now.symbols.items ≡ symbol_table image.now.symbols }
    requires locals { tables.now.locals ≡ 1 + length (locals_of image.now.symbols) }
    ensures { result ≡ symbol_section image.now places.now }
{
    Section {
        kind: 2,
        flags: 0,
        address: 0,
        offset: places.symbols,
        size: tables.symbols.len() as u64,
        link: 3,
        info: tables.locals,
        alignment: 8,
        entry_size: 24,
    }
}

/// The section of the strings.
fn string_section(image: &Image, tables: &Tables, places: &Places) -> Section
    requires { tables.now.strings.items ≡ string_table image.now.symbols }
    ensures { result ≡ string_section image.now places.now }
{
    Section {
        kind: 3,
        flags: 0,
        address: 0,
        offset: places.strings,
        size: tables.strings.len() as u64,
        link: 0,
        info: 0,
        alignment: 1,
        entry_size: 0,
    }
}

/// Appends the section headers.
#[tactic(auto, unfolding(crate::specs::Layout::section_headers))]
fn push_section_headers(
    out: &mut Vec<u8>,
    image: &Image,
    tables: &Tables,
    places: &Places,
) -> Result<(), NoMemory>
    requires symbols { tables.now.symbols.items ≡ symbol_table image.now.symbols }
    requires strings { tables.now.strings.items ≡ string_table image.now.symbols }
    requires locals { tables.now.locals ≡ 1 + length (locals_of image.now.symbols) }
    ensures { OnOk result (out.new.items ≡ out.old.items ++ section_headers image.now places.now) }
{
    push_section_header(out, &NULL_SECTION)?;
    push_section_header(out, &text_section(image, places))?;
    push_section_header(out, &symbol_section(image, tables, places))?;
    push_section_header(out, &string_section(image, tables, places))
}

/// Returns the ELF file of an image: the headers, each segment's bytes, the symbols and their names. The names of the symbols and
/// of their modules take fewer than 2^32 bytes together.
///
/// # Errors
///
/// `NoMemory` where memory runs out.
#[tactic(auto, using(crate::proofs::Lengths::few_segments, crate::proofs::Lengths::small_segments), unfolding(crate::specs::Layout::elf_bytes))]
pub fn write(alloc: Global, image: &Image) -> Result<Vec<u8>, NoMemory>
    requires image { IsImage image.now }
    requires named { CanWrite image.now }
    ensures { IfOk result (λ bytes. bytes.items ≡ elf_bytes image.now) }
{
    let segments = image.segments.as_slice();
    let tables = tables_of(alloc, image.symbols.as_slice())?;
    let places = places_of(image, &tables);
    let mut out = Vec::new(alloc);
    push_file_header(&mut out, image.entry, segments.len() as u16, &places)?;
    push_program_headers(&mut out, segments)?;
    push_segments(&mut out, segments)?;
    out.extend_from_slice(&tables.symbols)?;
    push_padded(&mut out, &tables.strings)?;
    push_section_headers(&mut out, image, &tables, &places)?;
    Ok(out)
}
