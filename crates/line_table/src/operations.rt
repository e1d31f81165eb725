//! The operations of a line program.

ghost use Rattle.std.specs.Prelude.{◌≡◌, ◌+◌, ◌≤◌, ◌<◌, length, IfOk};
ghost use Rattle.line_table.specs.Programs.{after_special, after_numbers, number_count, standard_step, operation, extended_step, step};
ghost use Rattle.line_table.specs.Checks.{Fits};

use crate::fault::{FaultKind, LineFault, fault};
use crate::numbers::{byte, byte_at, doubleword, half_at, sleb, uleb};
use crate::registers::{Registers, Step};
use crate::unit::UnitHeader;

/// The registers after a special opcode, this far from the first.
fn after_special(header: &UnitHeader, registers: Registers, number: u8) -> Registers
    requires { 1 ≤ header.now.line_range }
    ensures { result ≡ after_special header.now registers number }
{
    let instructions = number / header.line_range;
    let lines = header.line_base as u64 + (number % header.line_range) as u64;
    registers
        .after_instructions(header, instructions as u64)
        .after_lines(lines)
}

/// The place after a number of LEB128 numbers.
fn after_numbers(bytes: &[u8], at: usize, count: u8) -> Result<usize, LineFault>
    requires { at ≤ length bytes.now }
    ensures exact { result ≡ after_numbers count bytes.now at }
    ensures within { IfOk result (λ next. (at ≤ next) × (next ≤ length bytes.now)) }
{
    let mut next = at;
    for _ in 0..count {
        next = uleb(bytes, next)?.1;
    }
    Ok(next)
}

/// How many LEB128 numbers a standard opcode has that changes none of the registers.
fn number_count(header: &UnitHeader, bytes: &[u8], opcode: u8) -> u8
    requires base { 1 ≤ opcode }
    requires lengths { header.now.opcode_lengths + opcode ≤ length bytes.now }
    ensures { result ≡ number_count header.now bytes.now opcode }
{
    match opcode {
        5 | 12 => 1,
        6 | 7 | 10 | 11 => 0,
        _ => byte(bytes, header.opcode_lengths + (opcode as usize - 1)),
    }
}

/// A standard opcode, with what stands after it from a place on.
#[tactic(auto, unfolding(crate::specs::Programs::standard_step))]
fn standard_step(
    header: &UnitHeader,
    bytes: &[u8],
    registers: Registers,
    opcode: u8,
    at: usize,
) -> Result<Step, LineFault>
    requires at { at ≤ length bytes.now }
    requires opcode { 1 ≤ opcode }
    requires range { 1 ≤ header.now.line_range }
    requires lengths { header.now.opcode_lengths + opcode ≤ length bytes.now }
    ensures exact { result ≡ standard_step header.now bytes.now registers opcode at }
    ensures within { IfOk result (λ step. (at ≤ step.next) × (step.next ≤ length bytes.now)) }
{
    match opcode {
        1 => Ok(Step::appends(header, registers, at)),
        2 => {
            let (count, next) = uleb(bytes, at)?;
            Ok(Step::sets(registers.after_instructions(header, count), next))
        }
        3 => {
            let (count, next) = sleb(bytes, at)?;
            Ok(Step::sets(registers.after_lines(count), next))
        }
        4 => {
            let (file, next) = uleb(bytes, at)?;
            Ok(Step::sets(Registers { file, ..registers }, next))
        }
        8 => {
            let count = (255 - header.opcode_base) / header.line_range;
            Ok(Step::sets(registers.after_instructions(header, count as u64), at))
        }
        9 => {
            let (count, next) = half_at(bytes, at)?;
            let address = registers.address.wrapping_add(count as u64);
            Ok(Step::sets(
                Registers {
                    address,
                    ..registers
                },
                next,
            ))
        }
        _ => {
            let count = number_count(header, bytes, opcode);
            Ok(Step::sets(registers, after_numbers(bytes, at, count)?))
        }
    }
}

/// An extended operation of `size` bytes from a place on.
fn operation(
    header: &UnitHeader,
    bytes: &[u8],
    registers: Registers,
    size: usize,
    at: usize,
) -> Result<Step, LineFault>
    requires some { 1 ≤ size }
    requires whole { at + size ≤ length bytes.now }
    ensures exact { result ≡ operation header.now bytes.now registers size at }
    ensures next { IfOk result (λ step. step.next ≡ at + size) }
{
    match byte(bytes, at) {
        1 => Ok(Step::ends(header, registers, at + size)),
        2 if size == 9 => {
            let address = doubleword(bytes, at + 1);
            Ok(Step::sets(
                Registers {
                    address,
                    ..registers
                },
                at + size,
            ))
        }
        2 => Err(fault(at, FaultKind::BadAddressSize)),
        _ => Ok(Step::sets(registers, at + size)),
    }
}

/// An extended opcode, with what stands after the 0 from a place on.
#[tactic(auto, unfolding(crate::specs::Programs::extended_step))]
fn extended_step(
    header: &UnitHeader,
    bytes: &[u8],
    registers: Registers,
    at: usize,
) -> Result<Step, LineFault>
    ensures exact { result ≡ extended_step header.now bytes.now registers at }
    ensures within { IfOk result (λ step. (at < step.next) × (step.next ≤ length bytes.now)) }
{
    let (size, first) = uleb(bytes, at)?;
    if size == 0 {
        return Err(fault(at, FaultKind::BadLength));
    }
    if size > (bytes.len() - first) as u64 {
        return Err(fault(at, FaultKind::Truncated));
    }
    operation(header, bytes, registers, size as usize, first)
}

/// Returns what the operation at a place does.
///
/// # Errors
///
/// Its first fault.
#[tactic(auto, unfolding(crate::specs::Programs::step))]
pub(crate) fn step(
    header: &UnitHeader,
    bytes: &[u8],
    registers: Registers,
    at: usize,
) -> Result<Step, LineFault>
    requires { Fits (length bytes.now) header.now }
    ensures exact { result ≡ step header.now bytes.now registers at }
    ensures within { IfOk result (λ step. (at < step.next) × (step.next ≤ length bytes.now)) }
{
    let (opcode, next) = byte_at(bytes, at)?;
    if opcode == 0 {
        extended_step(header, bytes, registers, next)
    } else if opcode < header.opcode_base {
        standard_step(header, bytes, registers, opcode, next)
    } else {
        let after = after_special(header, registers, opcode - header.opcode_base);
        Ok(Step::appends(header, after, next))
    }
}
