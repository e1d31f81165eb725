//! The symbol table and the string table.

ghost use Rattle.std.specs.Prelude.{◌≡◌, ◌+◌, ◌≤◌, ◌<◌, ◌^◌, ◌++◌, [], ◌∷◌, OnOk, IfOk, length};
ghost use Rattle.std.specs.Str.{bytes_eq};
ghost use Rattle.elf_write.specs.Symbols.{type_of, entry_bytes, entry_with, entries_after, locals_of, globals_of, entries_bytes, names_of, symbol_table, string_table};

use crate::fields::{push_doublewords, push_halves, push_words};
use pn_types::{NoMemory, PROGRAM_MODULE, SymKind, Symbol};
use std::alloc::Global;

/// The binding of global symbols, as a part of `st_info`.
const GLOBAL: u8 = 16;

/// The entry of a source file, but for its name.
const SOURCE_FILE: Entry = Entry {
    info: 4,
    section: 0xfff1,
    value: 0,
    size: 0,
};

/// The first entry.
const NULL: Entry = Entry {
    info: 0,
    section: 0,
    value: 0,
    size: 0,
};

/// An entry of the symbol table, but for its name.
#[derive(Clone, Copy, Drop)]
pub struct Entry {
    /// `st_info`.
    pub info: u8,
    /// `st_shndx`.
    pub section: u16,
    /// `st_value`.
    pub value: u64,
    /// `st_size`.
    pub size: u64,
}

/// The two tables.
#[derive(Drop)]
pub struct Tables {
    /// The symbol table.
    pub symbols: Vec<u8>,
    /// The string table.
    pub strings: Vec<u8>,
    /// How many entries aren't global.
    pub locals: u32,
}

/// The type of a symbol.
fn type_of(kind: SymKind) -> u8
    ensures { result ≡ type_of kind }
{
    match kind {
        SymKind::Func => 2,
        SymKind::Object => 1,
    }
}

/// The entry of a symbol with this binding.
fn entry_with(binding: u8, symbol: &Symbol) -> Entry
    requires { binding ≤ GLOBAL }
    ensures { result ≡ (entry_with binding symbol.now).entry }
{
    Entry {
        info: binding + type_of(symbol.kind),
        section: 1,
        value: symbol.at,
        size: symbol.size,
    }
}

/// Whether two names are the same.
fn is_same(one: &[u8], other: &[u8]) -> bool
    ensures { result ≡ bytes_eq one.now other.now }
{
    one == other
}

impl Tables {
    /// Appends an entry with its name.
    fn push(&mut self, name: &[u8], entry: Entry) -> Result<(), NoMemory>
        requires { length self.old.strings.items < 2 ^ 32 }
        ensures symbols { OnOk result (self.new.symbols.items ≡
            self.old.symbols.items ++ entry_bytes (length self.old.strings.items) entry) }
        ensures strings { OnOk result (self.new.strings.items ≡ self.old.strings.items ++ (name.now ++ 0 ∷ [])) }
        ensures locals { self.new.locals ≡ self.old.locals }
    {
        let place = self.strings.len() as u32;
        push_words(&mut self.symbols, &[place])?;
        self.symbols.extend_from_slice(&[entry.info, 0])?;
        push_halves(&mut self.symbols, &[entry.section])?;
        push_doublewords(&mut self.symbols, &[entry.value, entry.size])?;
        self.strings.extend_from_slice(name)?;
        self.strings.push(0)?;
        Ok(())
    }

    /// Appends an entry that isn't global.
    fn push_local(&mut self, name: &[u8], entry: Entry) -> Result<(), NoMemory>
        requires room { length self.old.strings.items + length name.now + 1 < 2 ^ 32 }
        requires counted { self.old.locals ≤ length self.old.strings.items }
        ensures symbols { OnOk result (self.new.symbols.items ≡
            self.old.symbols.items ++ entry_bytes (length self.old.strings.items) entry) }
        ensures strings { OnOk result (self.new.strings.items ≡ self.old.strings.items ++ (name.now ++ 0 ∷ [])) }
        ensures locals { OnOk result (self.new.locals ≡ self.old.locals + 1) }
    {
        self.push(name, entry)?;
        self.locals += 1;
        Ok(())
    }

    /// Appends a local symbol after one of the module `source`, and before it the entry of its source file where the
    /// module changes.
    fn push_behind(&mut self, source: &[u8], symbol: &Symbol) -> Result<(), NoMemory>
        requires room { length self.old.strings.items + length (names_of (entries_after source.now symbol.now)) < 2 ^ 32 }
        requires counted { self.old.locals ≤ length self.old.strings.items }
        ensures symbols { OnOk result (self.new.symbols.items ≡
            self.old.symbols.items ++ entries_bytes (length self.old.strings.items) (entries_after source.now symbol.now)) }
        ensures strings { OnOk result (self.new.strings.items ≡
            self.old.strings.items ++ names_of (entries_after source.now symbol.now)) }
        ensures locals { OnOk result (self.new.locals ≡
            self.old.locals + length (entries_after source.now symbol.now)) }
    {
        let module = symbol.module.bytes();
        if is_same(module, source) {
            self.push_local(symbol.name.bytes(), entry_with(0, symbol))?;
            return Ok(());
        }
        self.push_local(module, SOURCE_FILE)?;
        self.push_local(symbol.name.bytes(), entry_with(0, symbol))?;
        Ok(())
    }

    /// Appends the symbols of modules other than `program`, with the entries of their source files.
    fn push_locals(&mut self, symbols: &[Symbol]) -> Result<(), NoMemory>
        requires room { length self.old.strings.items + length (names_of (locals_of symbols.now)) < 2 ^ 32 }
        requires counted { self.old.locals ≤ length self.old.strings.items }
        ensures symbols { OnOk result (self.new.symbols.items ≡
            self.old.symbols.items ++ entries_bytes (length self.old.strings.items) (locals_of symbols.now)) }
        ensures strings { OnOk result (self.new.strings.items ≡
            self.old.strings.items ++ names_of (locals_of symbols.now)) }
        ensures locals { OnOk result (self.new.locals ≡ self.old.locals + length (locals_of symbols.now)) }
    {
        let mut source = PROGRAM_MODULE;
        for symbol in symbols {
            let module = symbol.module.bytes();
            if is_same(module, PROGRAM_MODULE) {
                continue;
            }
            self.push_behind(source, symbol)?;
            source = module;
        }
        Ok(())
    }

    /// Appends the symbols of `program`.
    fn push_globals(&mut self, symbols: &[Symbol]) -> Result<(), NoMemory>
        requires { length self.old.strings.items + length (names_of (globals_of symbols.now)) < 2 ^ 32 }
        ensures symbols { OnOk result (self.new.symbols.items ≡
            self.old.symbols.items ++ entries_bytes (length self.old.strings.items) (globals_of symbols.now)) }
        ensures strings { OnOk result (self.new.strings.items ≡
            self.old.strings.items ++ names_of (globals_of symbols.now)) }
        ensures locals { OnOk result (self.new.locals ≡ self.old.locals) }
    {
        for symbol in symbols {
            if is_same(symbol.module.bytes(), PROGRAM_MODULE) {
                self.push(symbol.name.bytes(), entry_with(GLOBAL, symbol))?;
            }
        }
        Ok(())
    }
}

/// Returns the tables of these symbols.
///
/// # Errors
///
/// `NoMemory` where memory runs out.
#[tactic(auto, unfolding(crate::specs::Symbols::symbol_table, crate::specs::Symbols::string_table))]
pub fn tables_of(alloc: Global, symbols: &[Symbol]) -> Result<Tables, NoMemory>
    requires { length (string_table symbols.now) < 2 ^ 32 }
    ensures symbols { IfOk result (λ tables. tables.symbols.items ≡ symbol_table symbols.now) }
    ensures strings { IfOk result (λ tables. tables.strings.items ≡ string_table symbols.now) }
    ensures locals { IfOk result (λ tables. tables.locals ≡ 1 + length (locals_of symbols.now)) }
{
    let mut tables = Tables {
        symbols: Vec::new(alloc),
        strings: Vec::new(alloc),
        locals: 0,
    };
    tables.push_local(&[], NULL)?;
    tables.push_locals(symbols)?;
    tables.push_globals(symbols)?;
    Ok(tables)
}
