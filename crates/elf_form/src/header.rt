//! The file header.

ghost use Rattle.std.specs.Prelude.{◌≡◌, ◌≤◌, length};
ghost use Rattle.elf_form.specs.Fields.{header_of};
ghost use Rattle.elf_form.specs.Headers.{begins_as_elf, is_riscv64, has_bad_flags, has_short_tables};

use crate::fields::{byte, doubleword, half, reaches_past, word};

/// The fields of the file header that count.
#[derive(Clone, Copy, Drop)]
pub struct Header {
    /// The class of `e_ident`.
    pub class: u8,
    /// The data encoding of `e_ident`.
    pub data_encoding: u8,
    /// `e_type`.
    pub kind: u16,
    /// `e_machine`.
    pub machine: u16,
    /// `e_entry`.
    pub entry: u64,
    /// `e_phoff`.
    pub program_headers: u64,
    /// `e_shoff`.
    pub section_headers: u64,
    /// `e_flags`.
    pub flags: u32,
    /// `e_phentsize`.
    pub program_header_size: u16,
    /// `e_phnum`.
    pub program_header_count: u16,
    /// `e_shentsize`.
    pub section_header_size: u16,
    /// `e_shnum`.
    pub section_header_count: u16,
}

/// Returns whether the file begins with the bytes 7F 45 4C 46.
pub fn begins_as_elf(bytes: &[u8]) -> bool
    ensures { result ≡ begins_as_elf bytes.now }
{
    bytes.len() >= 4 && word(bytes, 0) == 0x464c_457f
}

/// Returns the file header.
pub fn header_of(bytes: &[u8]) -> Header
    requires { 64 ≤ length bytes.now }
    ensures { result ≡ header_of bytes.now }
{
    Header {
        class: byte(bytes, 4),
        data_encoding: byte(bytes, 5),
        kind: half(bytes, 16),
        machine: half(bytes, 18),
        entry: doubleword(bytes, 24),
        program_headers: doubleword(bytes, 32),
        section_headers: doubleword(bytes, 40),
        flags: word(bytes, 48),
        program_header_size: half(bytes, 54),
        program_header_count: half(bytes, 56),
        section_header_size: half(bytes, 58),
        section_header_count: half(bytes, 60),
    }
}

impl Header {
    /// Returns whether the file is an executable for 64-bit RISC-V with tables of the standard's entries.
    pub fn is_riscv64(&self) -> bool
        ensures { result ≡ is_riscv64 self.now }
    {
        self.class == 2
            && self.data_encoding == 1
            && self.kind == 2
            && self.machine == 243
            && (self.program_header_count == 0 || self.program_header_size == 56)
            && (self.section_header_count == 0 || self.section_header_size == 64)
    }

    /// Returns whether the flags ask for compressed code, floating-point registers or RV32E.
    pub fn has_bad_flags(&self) -> bool
        ensures { result ≡ has_bad_flags self.now }
    {
        self.flags % 16 != 0
    }

    /// Returns whether a table reaches past the end of a file of `len` bytes.
    pub fn has_short_tables(&self, len: u64) -> bool
        ensures { result ≡ has_short_tables self.now len }
    {
        reaches_past(
            self.program_headers,
            self.program_header_count as u64 * 56,
            len,
        ) || reaches_past(
            self.section_headers,
            self.section_header_count as u64 * 64,
            len,
        )
    }
}
