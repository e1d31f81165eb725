//! The operands of a statement, after which nothing stands.

ghost use Rattle.std.specs.Prelude.{◌≡◌};
ghost use Rattle.std.specs.Option.{option_map};
ghost use Rattle.rv_asm.specs.Operands.{and_register_at, and_number_at, and_last_name, and_last_pointer, one_register, two_registers, three_registers, register_number, registers_number, register_memory, register_pointer, registers_pointer, register_name, registers_name, one_number, one_name, name_number, one_string};

use crate::number::Number;
use crate::token::{is_end, name, number, pointer, register, sign, string};

/// A comma and a register.
#[tactic(auto, unfolding(crate::specs::Operands::and_register_at))]
fn and_register_at(text: &[u8]) -> Option<(u32, &[u8])>
    ensures { option_map (λ found. (found.0, found.1.now)) result ≡ and_register_at text.now }
{
    let rest = sign(b',', text)?;
    register(rest)
}

/// A comma and a number.
#[tactic(auto, unfolding(crate::specs::Operands::and_number_at))]
fn and_number_at(text: &[u8]) -> Option<(Number, &[u8])>
    ensures { option_map (λ found. (found.0, found.1.now)) result ≡ and_number_at text.now }
{
    let rest = sign(b',', text)?;
    number(rest)
}

/// A comma and a name, with which the operands end.
#[tactic(auto, unfolding(crate::specs::Operands::and_last_name))]
fn and_last_name(text: &[u8]) -> Option<&[u8]>
    ensures { option_map (λ found. found.now) result ≡ and_last_name text.now }
{
    let rest = sign(b',', text)?;
    let (name, rest) = name(rest)?;
    if is_end(rest) { Some(name) } else { None }
}

/// A comma and a register in parentheses, with which the operands end.
#[tactic(auto, unfolding(crate::specs::Operands::and_last_pointer))]
fn and_last_pointer(text: &[u8]) -> Option<u32>
    ensures { result ≡ and_last_pointer text.now }
{
    let rest = sign(b',', text)?;
    let (base, rest) = pointer(rest)?;
    if is_end(rest) { Some(base) } else { None }
}

/// `rs`
#[tactic(auto, unfolding(crate::specs::Operands::one_register))]
pub(crate) fn one_register(text: &[u8]) -> Option<u32>
    ensures { result ≡ one_register text.now }
{
    let (a, rest) = register(text)?;
    if is_end(rest) { Some(a) } else { None }
}

/// `rd, rs`
#[tactic(auto, unfolding(crate::specs::Operands::two_registers))]
pub(crate) fn two_registers(text: &[u8]) -> Option<(u32, u32)>
    ensures { result ≡ two_registers text.now }
{
    let (a, rest) = register(text)?;
    let (b, rest) = and_register_at(rest)?;
    if is_end(rest) { Some((a, b)) } else { None }
}

/// `rd, rs1, rs2`
#[tactic(auto, unfolding(crate::specs::Operands::three_registers))]
pub(crate) fn three_registers(text: &[u8]) -> Option<(u32, u32, u32)>
    ensures { result ≡ three_registers text.now }
{
    let (a, rest) = register(text)?;
    let (b, rest) = and_register_at(rest)?;
    let (c, rest) = and_register_at(rest)?;
    if is_end(rest) { Some((a, b, c)) } else { None }
}

/// `rd, N`
#[tactic(auto, unfolding(crate::specs::Operands::register_number))]
pub(crate) fn register_number(text: &[u8]) -> Option<(u32, Number)>
    ensures { result ≡ register_number text.now }
{
    let (a, rest) = register(text)?;
    let (number, rest) = and_number_at(rest)?;
    if is_end(rest) {
        Some((a, number))
    } else {
        None
    }
}

/// `rd, rs1, N`
#[tactic(auto, unfolding(crate::specs::Operands::registers_number))]
pub(crate) fn registers_number(text: &[u8]) -> Option<(u32, u32, Number)>
    ensures { result ≡ registers_number text.now }
{
    let (a, rest) = register(text)?;
    let (b, rest) = and_register_at(rest)?;
    let (number, rest) = and_number_at(rest)?;
    if is_end(rest) {
        Some((a, b, number))
    } else {
        None
    }
}

/// `rd, N(rs1)`
#[tactic(auto, unfolding(crate::specs::Operands::register_memory))]
pub(crate) fn register_memory(text: &[u8]) -> Option<(u32, Number, u32)>
    ensures { result ≡ register_memory text.now }
{
    let (a, rest) = register(text)?;
    let (number, rest) = and_number_at(rest)?;
    let (base, rest) = pointer(rest)?;
    if is_end(rest) {
        Some((a, number, base))
    } else {
        None
    }
}

/// `rd, (rs1)`
#[tactic(auto, unfolding(crate::specs::Operands::register_pointer))]
pub(crate) fn register_pointer(text: &[u8]) -> Option<(u32, u32)>
    ensures { result ≡ register_pointer text.now }
{
    let (a, rest) = register(text)?;
    let base = and_last_pointer(rest)?;
    Some((a, base))
}

/// `rd, rs2, (rs1)`
#[tactic(auto, unfolding(crate::specs::Operands::registers_pointer))]
pub(crate) fn registers_pointer(text: &[u8]) -> Option<(u32, u32, u32)>
    ensures { result ≡ registers_pointer text.now }
{
    let (a, rest) = register(text)?;
    let (b, rest) = and_register_at(rest)?;
    let base = and_last_pointer(rest)?;
    Some((a, b, base))
}

/// `rs, NAME`
#[tactic(auto, unfolding(crate::specs::Operands::register_name))]
pub(crate) fn register_name(text: &[u8]) -> Option<(u32, &[u8])>
    ensures { option_map (λ found. (found.0, found.1.now)) result ≡ register_name text.now }
{
    let (a, rest) = register(text)?;
    let name = and_last_name(rest)?;
    Some((a, name))
}

/// `rs1, rs2, NAME`
#[tactic(auto, unfolding(crate::specs::Operands::registers_name))]
pub(crate) fn registers_name(text: &[u8]) -> Option<(u32, u32, &[u8])>
    ensures { option_map (λ found. (found.0, found.1, found.2.now)) result ≡ registers_name text.now }
{
    let (a, rest) = register(text)?;
    let (b, rest) = and_register_at(rest)?;
    let name = and_last_name(rest)?;
    Some((a, b, name))
}

/// `N`
#[tactic(auto, unfolding(crate::specs::Operands::one_number))]
pub(crate) fn one_number(text: &[u8]) -> Option<Number>
    ensures { result ≡ one_number text.now }
{
    let (number, rest) = number(text)?;
    if is_end(rest) { Some(number) } else { None }
}

/// `NAME`
#[tactic(auto, unfolding(crate::specs::Operands::one_name))]
pub(crate) fn one_name(text: &[u8]) -> Option<&[u8]>
    ensures { option_map (λ found. found.now) result ≡ one_name text.now }
{
    let (name, rest) = name(text)?;
    if is_end(rest) { Some(name) } else { None }
}

/// `NAME N`
#[tactic(auto, unfolding(crate::specs::Operands::name_number))]
pub(crate) fn name_number(text: &[u8]) -> Option<(&[u8], Number)>
    ensures { option_map (λ found. (found.0.now, found.1)) result ≡ name_number text.now }
{
    let (name, rest) = name(text)?;
    let (number, rest) = number(rest)?;
    if is_end(rest) {
        Some((name, number))
    } else {
        None
    }
}

/// A string, as it is written between its quotes.
#[tactic(auto, unfolding(crate::specs::Operands::one_string))]
pub(crate) fn one_string(text: &[u8]) -> Option<&[u8]>
    ensures { option_map (λ found. found.now) result ≡ one_string text.now }
{
    let (bytes, rest) = string(text)?;
    if is_end(rest) { Some(bytes) } else { None }
}
