//! Operands.

ghost use Rattle.std.specs.Prelude.{◌≡◌, ◌++◌, OnOk, codes, map};
ghost use Rattle.disassembler.specs.Operands.{label_of, name_by, operand_text, operands_text, signed_text, usual_name};

use pn_types::NoMemory;
use rv_asm::USUAL_NAMES;
use std::alloc::Global;

/// An operand of an instruction.
#[derive(Clone, Copy)]
pub enum Operand {
    /// A register, by its number.
    Register(u32),
    /// A number of 64 bits.
    Number(u64),
    /// The place in memory to which a register points.
    Pointer(u32),
    /// The place in memory that is a number of bytes after that to which a register points.
    Memory(u64, u32),
    /// The address to which a jump or branch leads.
    Target(u64),
}

/// The name of the register in the first row that has one.
fn name_in(register: u32, rows: &[(&'static [u8], u32)]) -> &'static [u8]
    ensures { result.now ≡ name_by (λ n. n) register (map (λ row. (row.0.now, row.1)) rows.now) }
{
    for row in rows {
        if row.1 == register {
            return row.0;
        }
    }
    &[]
}

/// The usual name of the register. Nothing where there is no such register.
#[tactic(auto, unfolding(crate::specs::Operands::usual_name))]
fn usual_name(register: u32) -> &'static [u8]
    ensures { result.now ≡ usual_name register }
{
    name_in(register, &USUAL_NAMES)
}

/// Adds the name of the register.
fn add_register(out: &mut Vec<u8>, register: u32) -> Result<(), NoMemory>
    ensures { OnOk result (out.new.items ≡ out.old.items ++ usual_name register) }
{
    out.extend_from_slice(usual_name(register))
}

/// Adds the number with its sign.
#[tactic(auto, unfolding(crate::specs::Operands::signed_text))]
fn add_signed(alloc: Global, out: &mut Vec<u8>, number: u64) -> Result<(), NoMemory>
    ensures { OnOk result (out.new.items ≡ out.old.items ++ signed_text number) }
{
    if number < 1 << 63 {
        out.extend_from_slice(format!(in alloc; "{number}")?.as_bytes())
    } else {
        let size = u64::MAX - number + 1;
        out.extend_from_slice(format!(in alloc; "-{size}")?.as_bytes())
    }
}

/// Adds the register in parentheses.
fn add_pointer(out: &mut Vec<u8>, register: u32) -> Result<(), NoMemory>
    ensures { OnOk result (out.new.items ≡ out.old.items ++ operand_text (Operand.Pointer register)) }
{
    out.extend_from_slice(b"(")?;
    add_register(out, register)?;
    out.extend_from_slice(b")")
}

/// Adds the name of an address: `L` and the address in lower case hexadecimal, without leading zeros.
///
/// # Errors
///
/// `NoMemory` where memory runs out.
#[tactic(auto, unfolding(crate::specs::Operands::label_of))]
pub fn add_label(alloc: Global, out: &mut Vec<u8>, at: u64) -> Result<(), NoMemory>
    ensures { OnOk result (out.new.items ≡ out.old.items ++ label_of at) }
{
    out.extend_from_slice(format!(in alloc; "L{at:x}")?.as_bytes())
}

fn add_operand(alloc: Global, out: &mut Vec<u8>, operand: Operand) -> Result<(), NoMemory>
    ensures { OnOk result (out.new.items ≡ out.old.items ++ operand_text operand) }
{
    match operand {
        Operand::Register(register) => add_register(out, register),
        Operand::Number(number) => add_signed(alloc, out, number),
        Operand::Pointer(register) => add_pointer(out, register),
        Operand::Memory(offset, register) => {
            add_signed(alloc, out, offset)?;
            add_pointer(out, register)
        }
        Operand::Target(at) => add_label(alloc, out, at),
    }
}

/// Adds the operands, with a space before the first, and a comma and a space before each other.
pub(crate) fn add_operands(
    alloc: Global,
    out: &mut Vec<u8>,
    operands: &[Operand],
) -> Result<(), NoMemory>
    ensures { OnOk result (out.new.items ≡ out.old.items ++ operands_text (codes " ") operands.now) }
{
    let mut before: &[u8] = b" ";
    for operand in operands {
        out.extend_from_slice(before)?;
        add_operand(alloc, out, *operand)?;
        before = b", ";
    }
    Ok(())
}
