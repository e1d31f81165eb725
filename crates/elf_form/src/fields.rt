//! The numbers in a file.

ghost use Rattle.std.specs.Prelude.{◌≡◌, ◌+◌, ◌≤◌, ◌<◌, nat_le, length};
ghost use Rattle.elf_form.specs.Fields.{field};
ghost use Rattle.elf_form.specs.Faults.{reaches_past};

use byteorder::{ByteOrder, LittleEndian};

/// Returns the byte at a place.
#[tactic(auto, unfolding(crate::specs::Fields::field))]
pub fn byte(bytes: &[u8], at: usize) -> u8
    requires { at < length bytes.now }
    ensures { result ≡ field 1 bytes.now at }
{
    bytes[at]
}

/// Returns the number in two bytes from a place on.
#[tactic(auto, unfolding(crate::specs::Fields::field))]
pub fn half(bytes: &[u8], at: usize) -> u16
    requires { at + 2 ≤ length bytes.now }
    ensures { result ≡ field 2 bytes.now at }
{
    LittleEndian::read_u16(&bytes[at..])
}

/// Returns the number in four bytes from a place on.
#[tactic(auto, unfolding(crate::specs::Fields::field))]
pub fn word(bytes: &[u8], at: usize) -> u32
    requires { at + 4 ≤ length bytes.now }
    ensures { result ≡ field 4 bytes.now at }
{
    LittleEndian::read_u32(&bytes[at..])
}

/// Returns the number in eight bytes from a place on.
#[tactic(auto, unfolding(crate::specs::Fields::field))]
pub fn doubleword(bytes: &[u8], at: usize) -> u64
    requires { at + 8 ≤ length bytes.now }
    ensures { result ≡ field 8 bytes.now at }
{
    LittleEndian::read_u64(&bytes[at..])
}

/// Returns whether a number of things from a place on end within a length.
pub fn ends_within(at: u64, count: u64, len: u64) -> bool
    ensures { result ≡ nat_le (at + count) len }
{
    at <= len && count <= len - at
}

/// Returns whether a part of a file reaches past its length. A part of size 0 never does, wherever it lies.
pub fn reaches_past(at: u64, size: u64, len: u64) -> bool
    ensures { result ≡ reaches_past at size len }
{
    size > 0 && !ends_within(at, size, len)
}
