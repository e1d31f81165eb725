//! The numbers of a line table.

ghost use Rattle.std.specs.Prelude.{◌≡◌, ◌+◌, ◌*◌, ◌^◌, ◌≤◌, ◌<◌, length, IfOk};
ghost use Rattle.elf_form.specs.Fields.{field};
ghost use Rattle.line_table.specs.Numbers.{number, groups, uleb, signed, sleb};

use crate::fault::{FaultKind, LineFault, fault};
use byteorder::{ByteOrder, LittleEndian};

/// The greatest number of bytes that a LEB128 number has.
const MAX_GROUPS: u32 = 10;

/// The bits of a LEB128 number.
#[derive(Clone, Copy, Drop)]
pub(crate) struct Bits {
    /// The bits as an unsigned number.
    pub value: u128,
    /// The value is below this power of two.
    pub scale: u128,
}

/// The byte at a place, which is within the bytes.
#[tactic(auto, unfolding(elf_form::specs::Fields::field))]
pub(crate) fn byte(bytes: &[u8], at: usize) -> u8
    requires { at < length bytes.now }
    ensures { result ≡ field 1 bytes.now at }
{
    bytes[at]
}

/// The number in two bytes that are within the bytes.
#[tactic(auto, unfolding(elf_form::specs::Fields::field))]
pub(crate) fn half(bytes: &[u8], at: usize) -> u16
    requires { at + 2 ≤ length bytes.now }
    ensures { result ≡ field 2 bytes.now at }
{
    LittleEndian::read_u16(&bytes[at..])
}

/// The number in four bytes that are within the bytes.
#[tactic(auto, unfolding(elf_form::specs::Fields::field))]
pub(crate) fn word(bytes: &[u8], at: usize) -> u32
    requires { at + 4 ≤ length bytes.now }
    ensures { result ≡ field 4 bytes.now at }
{
    LittleEndian::read_u32(&bytes[at..])
}

/// The number in eight bytes that are within the bytes.
#[tactic(auto, unfolding(elf_form::specs::Fields::field))]
pub(crate) fn doubleword(bytes: &[u8], at: usize) -> u64
    requires { at + 8 ≤ length bytes.now }
    ensures { result ≡ field 8 bytes.now at }
{
    LittleEndian::read_u64(&bytes[at..])
}

/// The byte at a place, and the place after it.
#[tactic(auto, unfolding(crate::specs::Numbers::number))]
pub(crate) fn byte_at(bytes: &[u8], at: usize) -> Result<(u8, usize), LineFault>
    ensures exact { result ≡ number 1 bytes.now at }
    ensures within { IfOk result (λ read. (read.1 ≡ at + 1) × (read.1 ≤ length bytes.now)) }
{
    if at >= bytes.len() {
        return Err(fault(at, FaultKind::Truncated));
    }
    Ok((byte(bytes, at), at + 1))
}

/// The number in two bytes from a place on, and the place after them.
#[tactic(auto, unfolding(crate::specs::Numbers::number))]
pub(crate) fn half_at(bytes: &[u8], at: usize) -> Result<(u16, usize), LineFault>
    requires { at ≤ length bytes.now }
    ensures exact { result ≡ number 2 bytes.now at }
    ensures within { IfOk result (λ read. (at < read.1) × (read.1 ≤ length bytes.now)) }
{
    if bytes.len() - at < 2 {
        return Err(fault(at, FaultKind::Truncated));
    }
    Ok((half(bytes, at), at + 2))
}

/// The number in four bytes from a place on, and the place after them.
#[tactic(auto, unfolding(crate::specs::Numbers::number))]
pub(crate) fn word_at(bytes: &[u8], at: usize) -> Result<(u32, usize), LineFault>
    requires { at ≤ length bytes.now }
    ensures exact { result ≡ number 4 bytes.now at }
    ensures within { IfOk result (λ read. (at < read.1) × (read.1 ≤ length bytes.now)) }
{
    if bytes.len() - at < 4 {
        return Err(fault(at, FaultKind::Truncated));
    }
    Ok((word(bytes, at), at + 4))
}

/// The number in eight bytes from a place on, and the place after them.
#[tactic(auto, unfolding(crate::specs::Numbers::number))]
pub(crate) fn doubleword_at(bytes: &[u8], at: usize) -> Result<(u64, usize), LineFault>
    requires { at ≤ length bytes.now }
    ensures exact { result ≡ number 8 bytes.now at }
    ensures within { IfOk result (λ read. (at < read.1) × (read.1 ≤ length bytes.now)) }
{
    if bytes.len() - at < 8 {
        return Err(fault(at, FaultKind::Truncated));
    }
    Ok((doubleword(bytes, at), at + 8))
}

/// The bits of a LEB128 number of at most `most` bytes, and the place after it.
#[tactic(auto, unfolding(crate::specs::Numbers::groups))]
fn groups(bytes: &[u8], at: usize, most: u32) -> Result<(Bits, usize), LineFault>
    requires { most ≤ 10 }
    ensures exact { result ≡ groups most bytes.now at }
    ensures below { IfOk result (λ read. read.0.value < read.0.scale) }
    ensures scale { IfOk result (λ read. read.0.scale ≤ 128 ^ most) }
    ensures within { IfOk result (λ read. (at < read.1) × (read.1 ≤ length bytes.now)) }
{
    if most == 0 {
        return Err(fault(at, FaultKind::BadNumber));
    }
    let (byte, next) = byte_at(bytes, at)?;
    if byte < 128 {
        let last = Bits {
            value: byte as u128,
            scale: 128,
        };
        return Ok((last, next));
    }
    let (high, end) = groups(bytes, next, most - 1)?;
    let all = Bits {
        value: (byte % 128) as u128 + 128 * high.value,
        scale: 128 * high.scale,
    };
    Ok((all, end))
}

/// The unsigned LEB128 number at a place, and the place after it.
#[tactic(auto, unfolding(crate::specs::Numbers::uleb))]
pub(crate) fn uleb(bytes: &[u8], at: usize) -> Result<(u64, usize), LineFault>
    ensures exact { result ≡ uleb bytes.now at }
    ensures within { IfOk result (λ read. (at < read.1) × (read.1 ≤ length bytes.now)) }
{
    let (bits, next) = groups(bytes, at, MAX_GROUPS)?;
    if bits.value >= 1 << 64 {
        return Err(fault(at, FaultKind::BadNumber));
    }
    Ok((bits.value as u64, next))
}

/// Bits of which the highest is the sign, in two's complement of 70 bits.
fn signed(bits: &Bits) -> u128
    requires below { bits.now.value < bits.now.scale }
    requires scale { bits.now.scale ≤ 2 ^ 70 }
    ensures { result ≡ signed bits.now }
{
    if 2 * bits.value < bits.scale {
        bits.value
    } else {
        bits.value + ((1 << 70) - bits.scale)
    }
}

/// The signed LEB128 number at a place, in two's complement, and the place after it.
#[tactic(auto, unfolding(crate::specs::Numbers::sleb))]
pub(crate) fn sleb(bytes: &[u8], at: usize) -> Result<(u64, usize), LineFault>
    ensures exact { result ≡ sleb bytes.now at }
    ensures within { IfOk result (λ read. (at < read.1) × (read.1 ≤ length bytes.now)) }
{
    let (bits, next) = groups(bytes, at, MAX_GROUPS)?;
    let wide = signed(&bits);
    if wide < 1 << 63 || (1 << 70) - (1 << 63) <= wide {
        return Ok(((wide % (1 << 64)) as u64, next));
    }
    Err(fault(at, FaultKind::BadNumber))
}
