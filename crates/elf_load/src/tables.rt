//! The tables of a file, and parts of it.

ghost use Rattle.std.specs.Prelude.{◌≡◌, ◌≤◌, ◌+◌, ◌*◌, ◌/◌, ◌<◌, ◌^◌, false, length, IfOk, Some, None};
ghost use Rattle.elf_form.specs.Fields.{header_of, part, program_headers_of, section_headers_of};
ghost use Rattle.elf_form.specs.Headers.{header_fault, has_short_tables};
ghost use Rattle.elf_form.specs.Symbols.{entries_of, is_short};
ghost use Rattle.elf_load.specs.Checks.{Checks};

use elf_form::{
    ElfFault, Header, ProgramHeader, SectionHeader, SymbolEntry, begins_as_elf, header_of,
    program_header_at, section_header_at, symbol_entry_at,
};
use pn_types::NoMemory;
use std::alloc::Global;

/// Returns the file header.
///
/// # Errors
///
/// The first fault of the header.
#[tactic(auto, unfolding(elf_form::specs::Headers::header_fault))]
pub fn checked_header(bytes: &[u8]) -> Result<Header, ElfFault>
    ensures fault { Checks result (header_fault bytes.now) }
    ensures header { IfOk result (λ header. header ≡ header_of bytes.now) }
    ensures fits { IfOk result (λ header. has_short_tables header (length bytes.now) ≡ false) }
{
    if !begins_as_elf(bytes) {
        return Err(ElfFault::NotElf);
    }
    let len = bytes.len() as u64;
    if len < 64 {
        return Err(ElfFault::Short(len));
    }
    let header = header_of(bytes);
    if !header.is_riscv64() {
        return Err(ElfFault::NotRiscv64);
    }
    if header.has_bad_flags() {
        return Err(ElfFault::Flags(header.flags));
    }
    if header.has_short_tables(len) {
        return Err(ElfFault::Short(len));
    }
    Ok(header)
}

/// Returns all program headers.
///
/// # Errors
///
/// `NoMemory` where memory runs out.
pub fn program_headers(
    alloc: Global,
    bytes: &[u8],
    header: &Header,
) -> Result<Vec<ProgramHeader>, NoMemory>
    requires { has_short_tables header.now (length bytes.now) ≡ false }
    ensures headers { IfOk result (λ headers. headers.items ≡ program_headers_of bytes.now header.now) }
    ensures few { IfOk result (λ headers. length headers.items < 2 ^ 16) }
{
    let count = header.program_header_count as usize;
    let start = header.program_headers as usize;
    let mut headers = Vec::new(alloc);
    for i in 0..count {
        headers.push(program_header_at(bytes, start + i * 56))?;
    }
    Ok(headers)
}

/// Returns all section headers.
///
/// # Errors
///
/// `NoMemory` where memory runs out.
pub fn section_headers(
    alloc: Global,
    bytes: &[u8],
    header: &Header,
) -> Result<Vec<SectionHeader>, NoMemory>
    requires { has_short_tables header.now (length bytes.now) ≡ false }
    ensures { IfOk result (λ headers. headers.items ≡ section_headers_of bytes.now header.now) }
{
    let count = header.section_header_count as usize;
    let start = header.section_headers as usize;
    let mut headers = Vec::new(alloc);
    for i in 0..count {
        headers.push(section_header_at(bytes, start + i * 64))?;
    }
    Ok(headers)
}

/// Returns all entries of a symbol table.
///
/// # Errors
///
/// `NoMemory` where memory runs out.
pub fn symbol_entries(
    alloc: Global,
    bytes: &[u8],
    symbols: &SectionHeader,
) -> Result<Vec<SymbolEntry>, NoMemory>
    requires { is_short (length bytes.now) symbols.now ≡ false }
    ensures { IfOk result (λ entries. entries.items ≡ entries_of bytes.now symbols.now) }
{
    let count = (symbols.size / 24) as usize;
    let start = symbols.offset as usize;
    let mut entries = Vec::new(alloc);
    for i in 0..count {
        entries.push(symbol_entry_at(bytes, start + i * 24))?;
    }
    Ok(entries)
}

/// Returns `size` bytes of a file from a place on, as far as the file has them.
pub fn part(bytes: &[u8], at: u64, size: u64) -> &[u8]
    ensures { result.now ≡ part bytes.now at size }
{
    let rest = &bytes[bytes.len().min(at as usize)..];
    &rest[..rest.len().min(size as usize)]
}
