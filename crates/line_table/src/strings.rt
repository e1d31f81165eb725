//! The strings that name directories and files.

ghost use Rattle.std.specs.Prelude.{◌≡◌, ◌+◌, ◌≤◌, ◌<◌, length, IfOk};
ghost use Rattle.line_table.specs.Strings.{ended_len, name_len, string_here, string_there};

use crate::fault::{FaultKind, LineFault, fault};
use crate::numbers::word_at;

/// A section that has strings.
#[derive(Clone, Copy, Debug, PartialEq, Eq, Drop)]
pub enum StringSection {
    /// `.debug_line`.
    Line,
    /// `.debug_line_str`.
    LineStr,
    /// `.debug_str`.
    Str,
}

/// Where a string is, which ends before a zero byte.
#[derive(Clone, Copy, Debug, PartialEq, Eq, Drop)]
pub struct StringPlace {
    /// In which section.
    pub section: StringSection,
    /// Where it begins, in bytes from the front of the section.
    pub at: u64,
}

/// How many bytes of the sections of strings there are up to the last zero byte.
#[derive(Clone, Copy, Drop)]
pub(crate) struct StringEnds {
    /// Of `.debug_line_str`.
    pub line_str: usize,
    /// Of `.debug_str`.
    pub str: usize,
}

/// How many bytes there are up to the last zero byte.
pub(crate) fn ended_len(bytes: &[u8]) -> usize
    ensures { result ≡ ended_len bytes.now }
{
    let mut end = bytes.len();
    while end > 0 && bytes[end - 1] != 0 {
        end -= 1;
    }
    end
}

/// How many bytes there are before the first zero byte, or in all.
pub(crate) fn name_len(bytes: &[u8]) -> usize
    ensures length { result ≡ name_len bytes.now }
    ensures within { result ≤ length bytes.now }
{
    for (i, byte) in bytes.iter().enumerate() {
        if *byte == 0 {
            return i;
        }
    }
    bytes.len()
}

/// The string of these bytes themselves that begins at a place, and the place after its zero byte.
#[tactic(auto, unfolding(crate::specs::Strings::string_here))]
pub(crate) fn string_here(bytes: &[u8], at: usize) -> Result<(StringPlace, usize), LineFault>
    requires { at ≤ length bytes.now }
    ensures exact { result ≡ string_here bytes.now at }
    ensures within { IfOk result (λ read. (at < read.1) × (read.1 ≤ length bytes.now)) }
{
    let end = at + name_len(&bytes[at..]);
    if end >= bytes.len() {
        return Err(fault(at, FaultKind::Truncated));
    }
    let place = StringPlace {
        section: StringSection::Line,
        at: at as u64,
    };
    Ok((place, end + 1))
}

/// The string of a section, of which so many bytes are ended, whose place there stands at a place.
#[tactic(auto, unfolding(crate::specs::Strings::string_there))]
pub(crate) fn string_there(
    section: StringSection,
    ended: usize,
    bytes: &[u8],
    at: usize,
) -> Result<(StringPlace, usize), LineFault>
    requires { at ≤ length bytes.now }
    ensures exact { result ≡ string_there «section» ended bytes.now at }
    ensures within { IfOk result (λ read. (at < read.1) × (read.1 ≤ length bytes.now)) }
{
    let (place, next) = word_at(bytes, at)?;
    if place as usize >= ended {
        return Err(fault(at, FaultKind::BadString));
    }
    let place = StringPlace {
        section,
        at: place as u64,
    };
    Ok((place, next))
}
