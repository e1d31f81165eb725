//! Entries of the symbol table.

ghost use Rattle.std.specs.Prelude.{◌≡◌, ◌+◌, ◌≤◌, length};
ghost use Rattle.elf_form.specs.Fields.{symbol_entry_of};
ghost use Rattle.elf_form.specs.Symbols.{kind_of, is_file, is_local};

use crate::fields::{byte, doubleword, half, word};
use pn_types::SymKind;

/// The greatest number of bytes that the names of an image's symbols have together, where the image is loaded.
pub const MAX_NAMES_LEN: u64 = 67_108_864;

/// The fields of a symbol table's entry that count.
#[derive(Clone, Copy, Drop)]
pub struct SymbolEntry {
    /// `st_name`.
    pub name: u32,
    /// `st_info`.
    pub info: u8,
    /// `st_shndx`.
    pub section: u16,
    /// `st_value`.
    pub value: u64,
    /// `st_size`.
    pub size: u64,
}

/// Returns the symbol table's entry at a place.
pub fn symbol_entry_at(bytes: &[u8], at: usize) -> SymbolEntry
    requires { at + 24 ≤ length bytes.now }
    ensures { result ≡ symbol_entry_of bytes.now at }
{
    SymbolEntry {
        name: word(bytes, at),
        info: byte(bytes, at + 4),
        section: half(bytes, at + 6),
        value: doubleword(bytes, at + 8),
        size: doubleword(bytes, at + 16),
    }
}

impl SymbolEntry {
    /// Returns what the entry stands for, where it is a defined function or object.
    pub fn kind(&self) -> Option<SymKind>
        ensures { result ≡ kind_of self.now }
    {
        match self.info % 16 {
            2 if self.section != 0 => Some(SymKind::Func),
            1 if self.section != 0 => Some(SymKind::Object),
            _ => None,
        }
    }

    /// Returns whether the entry names the source file of the local symbols after it.
    pub fn is_file(&self) -> bool
        ensures { result ≡ is_file self.now }
    {
        self.info % 16 == 4
    }

    /// Returns whether the symbol is local.
    pub fn is_local(&self) -> bool
        ensures { result ≡ is_local self.now }
    {
        self.info / 16 == 0
    }
}
