//! Segments to be loaded, and their faults.

ghost use Rattle.std.specs.Prelude.{◌≡◌, ◌+◌, ◌<◌, ◌^◌, Some};
ghost use Rattle.elf_form.specs.Segments.{load_fault, shared, is_around};

use crate::fault::ElfFault;
use crate::fields::{ends_within, reaches_past};
use crate::section::TextRange;
use crate::segment::ProgramHeader;
use pn_types::{MAX_SEGMENTS, SEGMENTS_FROM, SEGMENTS_TO};

/// A segment to be loaded.
#[derive(Clone, Copy, Drop)]
pub struct Load {
    /// The index of its program header in the table.
    pub index: u32,
    /// The program header.
    pub header: ProgramHeader,
}

impl Load {
    /// Returns the fault of the segment, if there is one, in a file of `len` bytes, where `place` others are loaded before it.
    pub fn fault(&self, len: u64, place: usize) -> Option<ElfFault>
        ensures { result ≡ load_fault len place self.now }
    {
        let header = self.header;
        if header.memory_size < header.file_size || place >= MAX_SEGMENTS as usize {
            Some(ElfFault::BadSegment(self.index))
        } else if reaches_past(header.offset, header.file_size, len) {
            Some(ElfFault::Short(len))
        } else if header.address < SEGMENTS_FROM {
            Some(ElfFault::LowSegment(header.address))
        } else if !ends_within(header.address, header.memory_size, SEGMENTS_TO) {
            Some(ElfFault::HighSegment(header.address))
        } else {
            None
        }
    }

    /// Returns the lowest address that the segment shares with another.
    pub fn shared(&self, other: &Load) -> Option<u64>
        requires this { self.now.header.address + self.now.header.memory_size < 2 ^ 64 }
        requires that { other.now.header.address + other.now.header.memory_size < 2 ^ 64 }
        ensures { result ≡ shared self.now other.now }
    {
        let (this, that) = (self.header, other.header);
        let start = this.address.max(that.address);
        let end = (this.address + this.memory_size).min(that.address + that.memory_size);
        if start < end { Some(start) } else { None }
    }

    /// Returns whether a range lies in the file part of the segment.
    pub fn is_around(&self, range: &TextRange) -> bool
        requires { self.now.header.address + self.now.header.file_size < 2 ^ 64 }
        ensures { result ≡ is_around self.now range.now }
    {
        let header = self.header;
        header.address <= range.at && range.end <= (header.address + header.file_size) as u128
    }
}
