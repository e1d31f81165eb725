//! Section headers, and the range of the text.

ghost use Rattle.std.specs.Prelude.{◌≡◌, ◌+◌, ◌≤◌, ◌<◌, ◌^◌, length, Option};
ghost use Rattle.elf_form.specs.Fields.{section_header_of};
ghost use Rattle.elf_form.specs.Symbols.{is_short};
ghost use Rattle.elf_form.specs.Texts.{is_text, is_other, intrudes, widened};

use crate::fields::{doubleword, reaches_past, word};

/// The fields of a section header that count.
#[derive(Clone, Copy, Drop)]
pub struct SectionHeader {
    /// `sh_type`.
    pub kind: u32,
    /// `sh_flags`.
    pub flags: u64,
    /// `sh_addr`.
    pub address: u64,
    /// `sh_offset`.
    pub offset: u64,
    /// `sh_size`.
    pub size: u64,
    /// `sh_link`.
    pub link: u32,
    /// `sh_entsize`.
    pub entry_size: u64,
}

/// The addresses from `at` to before `end`.
#[derive(Clone, Copy, Drop)]
pub struct TextRange {
    /// The first address.
    pub at: u64,
    /// The address after the last.
    pub end: u128,
}

/// Returns the section header at a place.
pub fn section_header_at(bytes: &[u8], at: usize) -> SectionHeader
    requires { at + 64 ≤ length bytes.now }
    ensures { result ≡ section_header_of bytes.now at }
{
    SectionHeader {
        kind: word(bytes, at + 4),
        flags: doubleword(bytes, at + 8),
        address: doubleword(bytes, at + 16),
        offset: doubleword(bytes, at + 24),
        size: doubleword(bytes, at + 32),
        link: word(bytes, at + 40),
        entry_size: doubleword(bytes, at + 56),
    }
}

impl SectionHeader {
    /// Returns whether the section reaches past the end of a file of `len` bytes.
    pub fn reaches_past(&self, len: u64) -> bool
        ensures { result ≡ is_short len self.now }
    {
        reaches_past(self.offset, self.size, len)
    }

    /// Returns whether the section is allocated and executable, and not empty.
    pub fn is_text(&self) -> bool
        ensures { result ≡ is_text self.now }
    {
        self.flags / 2 % 4 == 3 && self.size > 0
    }

    /// Whether the section is allocated and not executable, and has bytes in the file.
    fn is_other(&self) -> bool
        ensures { result ≡ is_other self.now }
    {
        self.flags / 2 % 4 == 1 && self.size > 0 && self.kind != 8
    }

    /// Returns whether the section is no text, and begins in the range of the text.
    pub fn intrudes(&self, range: &TextRange) -> bool
        ensures { result ≡ intrudes range.now self.now }
    {
        self.is_other() && range.at <= self.address && (self.address as u128) < range.end
    }

    /// Returns the smallest range that covers a range and the section.
    pub fn widened(&self, range: Option<TextRange>) -> TextRange
        ensures { Some result ≡ widened range self.now }
    {
        let end = self.address as u128 + self.size as u128;
        match range {
            None => TextRange {
                at: self.address,
                end,
            },
            Some(range) => TextRange {
                at: range.at.min(self.address),
                end: range.end.max(end),
            },
        }
    }
}
