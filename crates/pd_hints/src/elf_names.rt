//! What the header and the symbols of an ELF file tell, whatever is wrong with it.

use elf_form::{Header, SectionHeader, SymbolEntry, header_of, section_header_at, symbol_entry_at};
use pn_types::SymKind;

/// The type of a section that has symbols.
const SYMBOLS: u32 = 2;

/// Returns the header, where the file has a whole one.
pub(crate) fn header(bytes: &[u8]) -> Option<Header> {
    if bytes.len() < 64 {
        return None;
    }
    Some(header_of(bytes))
}

/// Returns what a file is that is no program for this machine.
pub(crate) fn kind_of(header: &Header) -> &'static str {
    match (header.machine, header.class, header.kind) {
        (243, 2, 1) => "It is an object file (.o), which has yet to be linked.",
        (243, 2, 3) => "It is a position-independent program or a shared library.",
        (243, 2, _) => "It is no whole program.",
        (243, _, _) => "It is a program for RISC-V of 32 bits.",
        (62, _, _) => "It is a program for x86-64, and not for RISC-V.",
        (3, _, _) => "It is a program for x86, and not for RISC-V.",
        (183, _, _) => "It is a program for ARM of 64 bits, and not for RISC-V.",
        (40, _, _) => "It is a program for ARM, and not for RISC-V.",
        _ => "It is a program for another processor, and not for RISC-V.",
    }
}

/// Returns the section of this number.
fn section(bytes: &[u8], header: &Header, number: u64) -> Option<SectionHeader> {
    let at = number.checked_mul(64)?.checked_add(header.section_headers)?;
    let part = bytes.get(at as usize..)?;
    if part.len() < 64 {
        return None;
    }
    Some(section_header_at(part, 0))
}

/// Returns the bytes of a section from a place in it on.
fn bytes_from<'a>(bytes: &'a [u8], section: &SectionHeader, place: u64) -> Option<&'a [u8]> {
    let at = section.offset.checked_add(place)?;
    bytes.get(at as usize..)
}

/// Returns the first section with symbols.
fn symbol_table(bytes: &[u8], header: &Header) -> Option<SectionHeader> {
    (0..u64::from(header.section_header_count))
        .filter_map(|number| section(bytes, header, number))
        .find(|section| section.kind == SYMBOLS)
}

/// Returns the symbol of this number.
fn symbol(bytes: &[u8], table: &SectionHeader, number: u64) -> Option<SymbolEntry> {
    let part = bytes_from(bytes, table, number.checked_mul(24)?)?;
    if part.len() < 24 {
        return None;
    }
    Some(symbol_entry_at(part, 0))
}

/// Returns whether a symbol is a function that has the address.
fn holds(symbol: &SymbolEntry, address: u64) -> bool {
    symbol.kind() == Some(SymKind::Func)
        && symbol.value <= address
        && address - symbol.value < symbol.size
}

/// Returns the name of the function that has an address.
pub(crate) fn function_at(bytes: &[u8], address: u64) -> Option<&[u8]> {
    let header = header(bytes)?;
    let table = symbol_table(bytes, &header)?;
    let strings = section(bytes, &header, u64::from(table.link))?;
    let found = (0..table.size / 24)
        .filter_map(|number| symbol(bytes, &table, number))
        .find(|symbol| holds(symbol, address))?;
    let name = bytes_from(bytes, &strings, u64::from(found.name))?;
    name.split(|byte| *byte == 0).next()
}
