//! The numbers in a log, lowest byte first.

ghost use Rattle.std.specs.Prelude.{◌≡◌, ◌+◌, ◌≤◌, ◌<◌, length};
ghost use Rattle.quanta_log.specs.Fields.{number, is_within};

use byteorder::{ByteOrder, LittleEndian};

/// Returns the byte at a place.
#[tactic(auto, unfolding(crate::specs::Fields::number))]
pub fn byte(bytes: &[u8], at: usize) -> u8
    requires { at < length bytes.now }
    ensures { result ≡ number 1 bytes.now at }
{
    bytes[at]
}

/// Returns the number in two bytes from a place on.
#[tactic(auto, unfolding(crate::specs::Fields::number))]
pub fn half(bytes: &[u8], at: usize) -> u16
    requires { at + 2 ≤ length bytes.now }
    ensures { result ≡ number 2 bytes.now at }
{
    LittleEndian::read_u16(&bytes[at..])
}

/// Returns the number in four bytes from a place on.
#[tactic(auto, unfolding(crate::specs::Fields::number))]
pub fn word(bytes: &[u8], at: usize) -> u32
    requires { at + 4 ≤ length bytes.now }
    ensures { result ≡ number 4 bytes.now at }
{
    LittleEndian::read_u32(&bytes[at..])
}

/// Returns the number in eight bytes from a place on.
#[tactic(auto, unfolding(crate::specs::Fields::number))]
pub fn doubleword(bytes: &[u8], at: usize) -> u64
    requires { at + 8 ≤ length bytes.now }
    ensures { result ≡ number 8 bytes.now at }
{
    LittleEndian::read_u64(&bytes[at..])
}

/// Returns whether a number lies in a range.
pub fn is_within(least: u64, most: u64, number: u64) -> bool
    ensures { result ≡ is_within least most number }
{
    least <= number && number <= most
}
