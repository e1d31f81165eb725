//! Program headers.

ghost use Rattle.std.specs.Prelude.{◌≡◌, ◌+◌, ◌≤◌, length};
ghost use Rattle.elf_form.specs.Fields.{program_header_of};
ghost use Rattle.elf_form.specs.Segments.{is_load};

use crate::fields::{doubleword, word};

/// The fields of a program header that count.
#[derive(Clone, Copy, Drop)]
pub struct ProgramHeader {
    /// `p_type`.
    pub kind: u32,
    /// `p_offset`.
    pub offset: u64,
    /// `p_vaddr`.
    pub address: u64,
    /// `p_filesz`.
    pub file_size: u64,
    /// `p_memsz`.
    pub memory_size: u64,
}

/// Returns the program header at a place.
pub fn program_header_at(bytes: &[u8], at: usize) -> ProgramHeader
    requires { at + 56 ≤ length bytes.now }
    ensures { result ≡ program_header_of bytes.now at }
{
    ProgramHeader {
        kind: word(bytes, at),
        offset: doubleword(bytes, at + 8),
        address: doubleword(bytes, at + 16),
        file_size: doubleword(bytes, at + 32),
        memory_size: doubleword(bytes, at + 40),
    }
}

impl ProgramHeader {
    /// Returns whether the segment has memory to be loaded.
    pub fn is_load(&self) -> bool
        ensures { result ≡ is_load self.now }
    {
        self.kind == 1 && self.memory_size > 0
    }
}
