//! The header of a unit.

ghost use Rattle.std.specs.Prelude.{◌≡◌, ◌≤◌, ◌<◌, ◌+◌, ◌^◌, length, IfOk, IfNone};
ghost use Rattle.line_table.specs.Reading.{first_fault};
ghost use Rattle.line_table.specs.Checks.{Fits};
ghost use Rattle.line_table.specs.Units.{unit_end, length_place, signed_byte, header_of, has_bad_sizes, tables_place, extent_fault, fields_fault, header_fault, header};

use crate::fault::{FaultKind, LineFault, fault};
use crate::numbers::{byte, half, word};

/// The least length that is no length: the 64-bit format begins with one of those from here on.
const LENGTHS_END: u32 = 0xffff_fff0;

/// The fields of a unit's header that count. Places are in bytes from the front of `.debug_line`.
#[derive(Clone, Copy, Drop)]
pub(crate) struct UnitHeader {
    /// The place of the unit.
    pub at: usize,
    /// The version, 4 or 5.
    pub version: u16,
    /// The length of the shortest instruction in bytes, by which addresses advance.
    pub instruction_length: u8,
    /// The least number of lines that special opcodes advance by, in two's complement.
    pub line_base: u32,
    /// How many numbers of lines there are that special opcodes advance by.
    pub line_range: u8,
    /// The first special opcode.
    pub opcode_base: u8,
    /// The place of the numbers of operands of standard opcodes, from opcode 1 on.
    pub opcode_lengths: usize,
    /// The place of the line program.
    pub program: usize,
    /// The place after the unit.
    pub end: usize,
}

/// The first fault of where a unit ends, and of its version.
fn extent_fault(bytes: &[u8], at: usize) -> Option<LineFault>
    requires { at ≤ length bytes.now }
    ensures fault { result ≡ extent_fault bytes.now at }
    ensures within { IfNone result ((at + 6 ≤ unit_end bytes.now at) × (unit_end bytes.now at ≤ length bytes.now)) }
{
    let left = bytes.len() - at;
    if left < 4 {
        return Some(fault(at, FaultKind::Truncated));
    }
    let length = word(bytes, at);
    if length >= LENGTHS_END {
        return Some(fault(at, FaultKind::BadLength));
    }
    if left - 4 < length as usize {
        return Some(fault(at, FaultKind::Truncated));
    }
    if length < 2 {
        return Some(fault(at + 4, FaultKind::Truncated));
    }
    match half(bytes, at + 4) {
        4 | 5 => None,
        _ => Some(fault(at + 4, FaultKind::BadVersion)),
    }
}

/// The place of the header's length.
fn length_place(bytes: &[u8], at: usize) -> usize
    requires { at + 6 ≤ length bytes.now }
    ensures { result ≡ length_place bytes.now at }
{
    if half(bytes, at + 4) == 5 {
        at + 8
    } else {
        at + 6
    }
}

/// A number of 8 bits with its sign, in two's complement.
fn signed_byte(number: u8) -> u32
    ensures { result ≡ signed_byte number }
{
    if number < 128 {
        number as u32
    } else {
        number as u32 + 0xffff_ff00
    }
}

/// The fields of a header whose length is at `place`.
fn header_of(bytes: &[u8], at: usize, place: usize) -> UnitHeader
    requires place { place ≡ length_place bytes.now at }
    requires whole { place + 10 ≤ length bytes.now }
    ensures { result ≡ header_of bytes.now at }
{
    let fields = place + 4;
    UnitHeader {
        at,
        version: half(bytes, at + 4),
        instruction_length: byte(bytes, fields),
        line_base: signed_byte(byte(bytes, fields + 3)),
        line_range: byte(bytes, fields + 4),
        opcode_base: byte(bytes, fields + 5),
        opcode_lengths: fields + 6,
        program: fields + word(bytes, place) as usize,
        end: at + 4 + word(bytes, at) as usize,
    }
}

/// Whether addresses don't have eight bytes, or there are segments.
fn has_bad_sizes(bytes: &[u8], at: usize) -> bool
    requires { at + 8 ≤ length bytes.now }
    ensures { result ≡ has_bad_sizes bytes.now at }
{
    half(bytes, at + 4) == 5 && !(byte(bytes, at + 6) == 8 && byte(bytes, at + 7) == 0)
}

impl UnitHeader {
    /// The place of the directories and files.
    pub(crate) fn tables(&self) -> usize
        requires base { 1 ≤ self.now.opcode_base }
        requires lengths { self.now.opcode_lengths < 2 ^ 63 + 16 }
        ensures { result ≡ tables_place self.now }
    {
        self.opcode_lengths + (self.opcode_base as usize - 1)
    }

    /// The first fault of the fields, where the header's length is at `place`.
    fn fault(&self, bytes: &[u8], place: usize) -> Option<LineFault>
        requires at { self.now.at + 8 ≤ length bytes.now }
        requires place { place + 10 ≤ length bytes.now }
        requires lengths { self.now.opcode_lengths ≡ place + 10 }
        ensures { result ≡ fields_fault bytes.now self.now place }
    {
        if has_bad_sizes(bytes, self.at) {
            return Some(fault(self.at + 6, FaultKind::BadAddressSize));
        }
        if self.end < self.program {
            return Some(fault(place, FaultKind::Truncated));
        }
        if byte(bytes, place + 5) != 1 {
            return Some(fault(place + 5, FaultKind::BadOperations));
        }
        if self.line_range == 0 {
            return Some(fault(place + 8, FaultKind::BadLineRange));
        }
        if self.opcode_base == 0 {
            return Some(fault(place + 9, FaultKind::BadOpcodeBase));
        }
        if self.program < self.tables() {
            return Some(fault(place + 10, FaultKind::Truncated));
        }
        None
    }
}

/// Returns the header of the unit at a place.
///
/// # Errors
///
/// Its first fault.
#[tactic(auto, unfolding(crate::specs::Units::header, crate::specs::Units::header_fault))]
pub(crate) fn header(bytes: &[u8], at: usize) -> Result<UnitHeader, LineFault>
    requires { at ≤ length bytes.now }
    ensures exact { result ≡ header bytes.now at }
    ensures place { IfOk result (λ header. header.at ≡ at) }
    ensures fits { IfOk result (Fits (length bytes.now)) }
{
    if let Some(fault) = extent_fault(bytes, at) {
        return Err(fault);
    }
    let place = length_place(bytes, at);
    let end = at + 4 + word(bytes, at) as usize;
    if end < place + 10 {
        return Err(fault(at + 6, FaultKind::Truncated));
    }
    let header = header_of(bytes, at, place);
    match header.fault(bytes, place) {
        Some(fault) => Err(fault),
        None => Ok(header),
    }
}
