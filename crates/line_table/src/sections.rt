//! A section of an ELF file by its name.

ghost use Rattle.std.specs.Prelude.{◌≡◌, ◌≤◌, ◌+◌, ◌*◌, length, false, find, bytes_eq};
ghost use Rattle.std.specs.Option.{option_copied};
ghost use Rattle.elf_form.specs.Fields.{part, header_of};
ghost use Rattle.elf_form.specs.Headers.{has_short_tables};
ghost use Rattle.elf_form.specs.Symbols.{section_bytes};
ghost use Rattle.line_table.specs.Sections.{named_header_of, named_headers_of, is_named, has_no_headers, section_names, section_named};

use crate::numbers::{half, word};
use elf_form::{Header, SectionHeader, header_of, section_header_at};

/// A section header with `sh_name`.
#[derive(Clone, Copy, Drop)]
pub(crate) struct NamedHeader {
    /// Where the name of the section is in the section names.
    pub name: u32,
    /// The other fields.
    pub header: SectionHeader,
}

/// The section header at a place.
fn named_header_at(bytes: &[u8], at: usize) -> NamedHeader
    requires { at + 64 ≤ length bytes.now }
    ensures { result ≡ named_header_of bytes.now at }
{
    NamedHeader {
        name: word(bytes, at),
        header: section_header_at(bytes, at),
    }
}

/// `size` bytes from a place on, as far as there are any.
fn part(bytes: &[u8], at: u64, size: u64) -> &[u8]
    ensures { result.now ≡ part bytes.now at size }
{
    let rest = &bytes[bytes.len().min(at as usize)..];
    &rest[..rest.len().min(size as usize)]
}

/// The content of a section, as far as the file has it.
fn section_bytes<'a>(bytes: &'a [u8], header: &SectionHeader) -> &'a [u8]
    ensures { result.now ≡ section_bytes bytes.now header.now }
{
    part(bytes, header.offset, header.size)
}

/// Whether the section has this name, which ends with a zero byte.
fn is_named(names: &[u8], header: &NamedHeader, name: &[u8]) -> bool
    ensures { result ≡ is_named names.now name.now header.now }
{
    part(names, header.name as u64, name.len() as u64) == name
}

/// The section names: the section of index `e_shstrndx`.
fn section_names<'a>(bytes: &'a [u8], header: &Header) -> Option<&'a [u8]>
    requires header { header.now ≡ header_of bytes.now }
    requires whole { 64 ≤ length bytes.now }
    requires fits { has_short_tables header.now (length bytes.now) ≡ false }
    ensures { option_copied result ≡ section_names bytes.now (named_headers_of bytes.now) }
{
    let index = half(bytes, 62);
    if index >= header.section_header_count {
        return None;
    }
    let at = header.section_headers as usize + index as usize * 64;
    Some(section_bytes(bytes, &section_header_at(bytes, at)))
}

/// The first section of this name, which ends with a zero byte.
fn find_named(bytes: &[u8], header: &Header, names: &[u8], name: &[u8]) -> Option<NamedHeader>
    requires header { header.now ≡ header_of bytes.now }
    requires fits { has_short_tables header.now (length bytes.now) ≡ false }
    ensures { result ≡ find (is_named names.now name.now) (named_headers_of bytes.now) }
{
    let count = header.section_header_count as usize;
    let start = header.section_headers as usize;
    for i in 0..count {
        let section = named_header_at(bytes, start + i * 64);
        if is_named(names, &section, name) {
            return Some(section);
        }
    }
    None
}

/// Returns the content of the first section of a name, which ends with a zero byte.
#[tactic(auto, unfolding(crate::specs::Sections::section_named))]
pub(crate) fn section_named<'a>(bytes: &'a [u8], name: &[u8]) -> Option<&'a [u8]>
    ensures { option_copied result ≡ section_named bytes.now name.now }
{
    if bytes.len() < 64 {
        return None;
    }
    let header = header_of(bytes);
    if header.has_short_tables(bytes.len() as u64) {
        return None;
    }
    let names = section_names(bytes, &header)?;
    let section = find_named(bytes, &header, names, name)?;
    Some(section_bytes(bytes, &section.header))
}
