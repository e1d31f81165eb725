//! The symbols of a program.

ghost use Rattle.std.specs.Prelude.{◌≡◌, ◌<◌, ◌≤◌, ◌^◌, nat_le, length, false, IfOk, Option, Some, None};
ghost use Rattle.std.specs.List.{list_all};
ghost use Rattle.elf_form.specs.Symbols.{is_ended, is_short, section_bytes, symbol_of, symbol_table, strings_of, symbols_from, with_program_last, symbols_fault, symbols_of, table_fault, table_symbols};
ghost use Rattle.elf_form.specs.Accepted.{names_len};
ghost use Rattle.pn_types.specs.GoodNames.{program_module};
ghost use Rattle.elf_load.specs.Checks.{ChecksOrWants};

use crate::names::{ended_len, is_program, module_at, name_at};
use crate::tables::{part, symbol_entries};
use elf_form::{ElfError, ElfFault, MAX_NAMES_LEN, SectionHeader, SymbolEntry};
use pn_types::{NoMemory, PROGRAM_MODULE, SymKind, Symbol, Text};
use std::alloc::Global;

/// The greatest number of entries of a symbol table that is read, since an image counts its symbols in 32 bits.
const MAX_ENTRIES: usize = 0xffff_ffff;

/// The symbol table: the first section of its type.
fn symbol_table(sections: &[SectionHeader]) -> Option<SectionHeader>
    ensures { result ≡ symbol_table sections.now }
{
    for section in sections {
        if section.kind == 2 {
            return Some(*section);
        }
    }
    None
}

/// The string table that a symbol table is linked with.
fn strings_of(sections: &[SectionHeader], symbols: &SectionHeader) -> Option<SectionHeader>
    ensures { result ≡ strings_of sections.now symbols.now }
{
    match sections.get(symbols.link as usize) {
        Some(strings) if strings.kind == 3 => Some(*strings),
        _ => None,
    }
}

/// Whether each entry's name is ended in the strings.
fn are_ended(strings: &[u8], entries: &[SymbolEntry]) -> bool
    ensures { result ≡ list_all (λ e. is_ended strings.now e.name) entries.now }
{
    let end = ended_len(strings);
    entries.iter().all(|entry| (entry.name as usize) < end)
}

/// The symbol of an entry, with its module.
fn symbol(
    alloc: Global,
    name: &[u8],
    entry: &SymbolEntry,
    kind: SymKind,
    module_name: &[u8],
) -> Result<Symbol, NoMemory>
    ensures { IfOk result (λ symbol. symbol ≡
        record { name = name.now; kind = kind; at = entry.now.value; size = entry.now.size; «module» = module_name.now }) }
{
    Ok(Symbol {
        name: Text::from_vec(name.to_vec(alloc)?),
        kind,
        at: entry.value,
        size: entry.size,
        module: Text::from_vec(module_name.to_vec(alloc)?),
    })
}

/// Whether the names of these entries' symbols have at most [`MAX_NAMES_LEN`] bytes together. In the file they may overlap.
fn are_names_short(strings: &[u8], entries: &[SymbolEntry]) -> bool
    ensures { result ≡ nat_le (names_len (symbols_from strings.now program_module entries.now)) MAX_NAMES_LEN }
{
    let mut room = MAX_NAMES_LEN;
    for entry in entries {
        if entry.is_file() || entry.kind().is_none() {
            continue;
        }
        let len = name_at(strings, entry.name as usize).len() as u64;
        if room < len {
            return false;
        }
        room -= len;
    }
    true
}

/// The symbols of these entries, those of `program` last.
fn gather(alloc: Global, strings: &[u8], entries: &[SymbolEntry]) -> Result<Vec<Symbol>, NoMemory>
    ensures { IfOk result (λ symbols. symbols.items ≡
        with_program_last (symbols_from strings.now program_module entries.now)) }
{
    let mut others = Vec::new(alloc);
    let mut own = Vec::new(alloc);
    let mut source = PROGRAM_MODULE;
    for entry in entries {
        if entry.is_file() {
            source = module_at(strings, entry.name as usize);
        } else if let Some(kind) = entry.kind() {
            let name = name_at(strings, entry.name as usize);
            let module = if entry.is_local() {
                source
            } else {
                PROGRAM_MODULE
            };
            let symbol = symbol(alloc, name, entry, kind, module)?;
            if is_program(module) {
                own.push(symbol)?;
            } else {
                others.push(symbol)?;
            }
        }
    }
    others.append(&mut own)?;
    Ok(others)
}

/// The symbols of a symbol table with its string table, where they have no fault.
fn table_symbols(
    alloc: Global,
    bytes: &[u8],
    symbols: &SectionHeader,
    strings: &SectionHeader,
) -> Result<Vec<Symbol>, ElfError>
    ensures fault { ChecksOrWants result (table_fault bytes.now symbols.now (Some strings.now)) }
    ensures symbols { IfOk result (λ found. found.items ≡ table_symbols bytes.now symbols.now (Some strings.now)) }
    ensures few { IfOk result (λ found. length found.items < 2 ^ 32) }
    ensures named { IfOk result (λ found. names_len found.items ≤ MAX_NAMES_LEN) }
{
    if symbols.entry_size != 24 || symbols.size % 24 != 0 {
        return Err(ElfFault::BadSymbols.into());
    }
    let len = bytes.len() as u64;
    if symbols.reaches_past(len) || strings.reaches_past(len) {
        return Err(ElfFault::Short(len).into());
    }
    let names = part(bytes, strings.offset, strings.size);
    let entries = symbol_entries(alloc, bytes, symbols)?;
    if !are_ended(names, &entries) {
        return Err(ElfFault::BadSymbols.into());
    }
    if entries.len() > MAX_ENTRIES {
        return Err(ElfError::NoMemory);
    }
    if !are_names_short(names, &entries) {
        return Err(ElfError::NoMemory);
    }
    Ok(gather(alloc, names, &entries)?)
}

/// Returns the symbols of a file with these sections.
///
/// # Errors
///
/// The first fault of the symbols, or out of memory.
#[tactic(auto, unfolding(elf_form::specs::Symbols::symbols_fault, elf_form::specs::Symbols::symbols_of))]
pub fn checked_symbols(
    alloc: Global,
    bytes: &[u8],
    sections: &[SectionHeader],
) -> Result<Vec<Symbol>, ElfError>
    ensures fault { ChecksOrWants result (symbols_fault bytes.now sections.now) }
    ensures symbols { IfOk result (λ symbols. symbols.items ≡ symbols_of bytes.now sections.now) }
    ensures few { IfOk result (λ symbols. length symbols.items < 2 ^ 32) }
    ensures named { IfOk result (λ symbols. names_len symbols.items ≤ MAX_NAMES_LEN) }
{
    let Some(symbols) = symbol_table(sections) else {
        return Ok(Vec::new(alloc));
    };
    let Some(strings) = strings_of(sections, &symbols) else {
        return Err(ElfFault::BadSymbols.into());
    };
    table_symbols(alloc, bytes, &symbols, &strings)
}
