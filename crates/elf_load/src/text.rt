//! The text of a program.

ghost use Rattle.std.specs.Prelude.{◌≡◌, ◌-◌, ◌<◌, ◌^◌, true, false, length, IfOk, IfSome, IfNone, Some, None};
ghost use Rattle.std.specs.List.{All, list_any};
ghost use Rattle.elf_form.specs.Segments.{is_around};
ghost use Rattle.elf_form.specs.Texts.{intrudes, text_range, segment_around, is_two_texts, range_bytes, range_fault, text_fault, is_entry};
ghost use Rattle.elf_load.specs.Placed.{IsSegmentPlaced};
ghost use Rattle.elf_load.specs.Checks.{Checks};

use crate::tables::part;
use elf_form::{ElfFault, Load, SectionHeader, TextRange};
use pn_types::MAX_TEXT_LEN;
use rv_word::first_scratch;

/// The smallest range that covers all sections of code.
fn text_range(sections: &[SectionHeader]) -> Option<TextRange>
    ensures range { result ≡ text_range sections.now }
    ensures positive { IfSome result (λ range. range.at < range.end) }
{
    let mut range = None;
    for section in sections {
        if section.is_text() {
            range = Some(section.widened(range));
        }
    }
    range
}

/// The segment whose file part has the range.
#[tactic(auto, unfolding(elf_form::specs::Texts::segment_around))]
fn segment_around(len: u64, loads: &[Load], range: &TextRange) -> Option<Load>
    requires { All (IsSegmentPlaced len) loads.now }
    ensures segment { result ≡ segment_around loads.now range.now }
    ensures placed { IfSome result (IsSegmentPlaced len) }
    ensures around { IfSome result (λ load. is_around load range.now ≡ true) }
{
    for load in loads {
        if load.is_around(range) {
            return Some(*load);
        }
    }
    None
}

/// Whether a section that is no code begins in the range.
fn is_intruded(sections: &[SectionHeader], range: &TextRange) -> bool
    ensures { result ≡ list_any (intrudes range.now) sections.now }
{
    sections.iter().any(|section| section.intrudes(range))
}

/// The segment whose file part has the range, where no other section begins in it.
#[tactic(auto, unfolding(elf_form::specs::Texts::is_two_texts))]
fn segment_of_text(
    len: u64,
    loads: &[Load],
    sections: &[SectionHeader],
    range: &TextRange,
) -> Option<Load>
    requires { All (IsSegmentPlaced len) loads.now }
    ensures none { IfNone result (is_two_texts loads.now sections.now range.now ≡ true) }
    ensures one { IfSome result (λ load. is_two_texts loads.now sections.now range.now ≡ false) }
    ensures segment { IfSome result (λ load. segment_around loads.now range.now ≡ Some load) }
    ensures placed { IfSome result (IsSegmentPlaced len) }
    ensures around { IfSome result (λ load. is_around load range.now ≡ true) }
{
    let load = segment_around(len, loads, range)?;
    if is_intruded(sections, range) {
        return None;
    }
    Some(load)
}

/// The bytes of the text, which lies in the file part of a segment.
fn text_bytes<'a>(bytes: &'a [u8], load: &Load, range: &TextRange) -> &'a [u8]
    requires placed { IsSegmentPlaced (length bytes.now) load.now }
    requires around { is_around load.now range.now ≡ true }
    requires positive { range.now.at < range.now.end }
    ensures bytes { result.now ≡ range_bytes bytes.now range.now (Some load.now) }
    ensures whole { length result.now ≡ range.now.end - range.now.at }
{
    let from = load.header.offset + (range.at - load.header.address);
    part(bytes, from, range.end as u64 - range.at)
}

/// Whether the entry is the address of a word of the text.
fn is_entry(entry: u64, range: &TextRange) -> bool
    ensures { result ≡ is_entry entry range.now }
{
    entry % 4 == 0 && range.at <= entry && (entry as u128) < range.end
}

/// The first fault of a text.
fn range_fault(
    bytes: &[u8],
    loads: &[Load],
    sections: &[SectionHeader],
    entry: u64,
    range: &TextRange,
) -> Option<ElfFault>
    requires positive { range.now.at < range.now.end }
    requires placed { All (IsSegmentPlaced (length bytes.now)) loads.now }
    ensures fault { result ≡ range_fault bytes.now loads.now sections.now entry (Some range.now) }
    ensures below { IfNone result (range.now.end < 2 ^ 64) }
{
    let Some(load) = segment_of_text(bytes.len() as u64, loads, sections, range) else {
        return Some(ElfFault::TwoTexts(range.at));
    };
    if range.at % 4 != 0 {
        return Some(ElfFault::TextUnaligned(range.at));
    }
    let end = range.end as u64;
    if end % 4 != 0 {
        return Some(ElfFault::TextUnaligned(end));
    }
    let len = end - range.at;
    if len > MAX_TEXT_LEN {
        return Some(ElfFault::TextTooLong(len));
    }
    if let Some(at) = first_scratch(text_bytes(bytes, &load, range), range.at) {
        return Some(ElfFault::UsesScratch(at));
    }
    if !is_entry(entry, range) {
        return Some(ElfFault::BadEntry(entry));
    }
    None
}

/// Returns the range of the text.
///
/// # Errors
///
/// The first fault of the text.
#[tactic(auto, unfolding(elf_form::specs::Texts::text_fault))]
pub fn checked_text(
    bytes: &[u8],
    loads: &[Load],
    sections: &[SectionHeader],
    entry: u64,
) -> Result<TextRange, ElfFault>
    requires { All (IsSegmentPlaced (length bytes.now)) loads.now }
    ensures fault { Checks result (text_fault bytes.now loads.now sections.now entry) }
    ensures range { IfOk result (λ range. text_range sections.now ≡ Some range) }
    ensures positive { IfOk result (λ range. range.at < range.end) }
    ensures below { IfOk result (λ range. range.end < 2 ^ 64) }
{
    let Some(range) = text_range(sections) else {
        return Err(ElfFault::NoText);
    };
    match range_fault(bytes, loads, sections, entry, &range) {
        Some(fault) => Err(fault),
        None => Ok(range),
    }
}
