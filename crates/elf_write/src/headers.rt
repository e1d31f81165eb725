//! The headers of a file.

ghost use Rattle.std.specs.Prelude.{◌≡◌, ◌<◌, ◌++◌, ◌^◌, OnOk, IfOk, length, sum_by};
ghost use Rattle.elf_write.specs.Layout.{file_header, program_header, program_headers, segments_at, section_header};

use crate::fields::{push_doublewords, push_halves, push_words};
use crate::places::{Places, padded_len, segments_at};
use pn_types::{NoMemory, Segment};

/// The bytes of `e_ident`.
const IDENT: [u8; 16] = [0x7f, 0x45, 0x4c, 0x46, 2, 1, 1, 0, 0, 0, 0, 0, 0, 0, 0, 0];

/// The fields of a section header; no section has a name.
#[derive(Clone, Copy, Drop)]
pub struct Section {
    /// `sh_type`.
    pub kind: u32,
    /// `sh_flags`.
    pub flags: u64,
    /// `sh_addr`.
    pub address: u64,
    /// `sh_offset`.
    pub offset: u64,
    /// `sh_size`.
    pub size: u64,
    /// `sh_link`.
    pub link: u32,
    /// `sh_info`.
    pub info: u32,
    /// `sh_addralign`.
    pub alignment: u64,
    /// `sh_entsize`.
    pub entry_size: u64,
}

/// Appends the file header.
///
/// # Errors
///
/// `NoMemory` where memory runs out.
pub fn push_file_header(
    out: &mut Vec<u8>,
    entry: u64,
    segments: u16,
    places: &Places,
) -> Result<(), NoMemory>
    ensures { OnOk result (out.new.items ≡ out.old.items ++ file_header entry segments places.now) }
{
    out.extend_from_slice(&IDENT)?;
    push_halves(out, &[2, 243])?;
    push_words(out, &[1])?;
    push_doublewords(out, &[entry, 64, places.sections])?;
    push_words(out, &[0])?;
    push_halves(out, &[64, 56, segments, 64, 4, 0])
}

/// Appends the header of a segment whose bytes stand at a place.
fn push_program_header(out: &mut Vec<u8>, place: u64, segment: &Segment) -> Result<(), NoMemory>
    ensures { OnOk result (out.new.items ≡ out.old.items ++ program_header place segment.now) }
{
    let len = segment.bytes.as_slice().len() as u64;
    push_words(out, &[1, 7])?;
    push_doublewords(out, &[place, segment.at, segment.at, len, segment.size, 1])
}

/// Appends the headers of the segments.
///
/// # Errors
///
/// `NoMemory` where memory runs out.
pub fn push_program_headers(out: &mut Vec<u8>, segments: &[Segment]) -> Result<(), NoMemory>
    requires few { length segments.now < 2 ^ 16 }
    requires small { sum_by (λ s. length s.bytes) segments.now < 2 ^ 32 }
    ensures { OnOk result (out.new.items ≡ out.old.items ++ program_headers (segments_at segments.now) segments.now) }
{
    let mut place = segments_at(segments);
    for segment in segments {
        push_program_header(out, place, segment)?;
        place += padded_len(segment.bytes.as_slice());
    }
    Ok(())
}

/// Appends the header of a section.
///
/// # Errors
///
/// `NoMemory` where memory runs out.
#[tactic(auto, unfolding(crate::specs::Layout::section_header))]
pub fn push_section_header(out: &mut Vec<u8>, section: &Section) -> Result<(), NoMemory>
    ensures { OnOk result (out.new.items ≡ out.old.items ++ section_header section.now) }
{
    push_words(out, &[0, section.kind])?;
    push_doublewords(
        out,
        &[section.flags, section.address, section.offset, section.size],
    )?;
    push_words(out, &[section.link, section.info])?;
    push_doublewords(out, &[section.alignment, section.entry_size])
}
