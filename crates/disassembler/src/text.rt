//! The text of a word.

ghost use Rattle.std.specs.Prelude.{◌≡◌, ◌++◌, OnOk, codes};
ghost use Rattle.disassembler.specs.FormsSeen.{IsAccess};
ghost use Rattle.disassembler.specs.Operands.{operands_of, operands_text, target, upper_bits};
ghost use Rattle.disassembler.specs.Texts.{form_text, is_spelled, instruction_text, named_target, value_text};

use crate::mnemonics::mnemonic;
use crate::operand::Operand::{Memory, Number, Pointer, Register, Target};
use crate::operand::add_operands;
use pn_types::NoMemory;
use rv_asm::reaches;
use rv_word::{Instr, decode, jump_target};
use std::alloc::Global;

/// The number that a `lui` or an `auipc` has in its upper 20 bits.
fn upper_bits(imm: u64) -> u64
    ensures { result ≡ upper_bits imm }
{
    (imm >> 12) & 0xfffff
}

/// Whether the assembler has a form for the instruction at the address.
fn is_spelled(at: u64, instr: &Instr) -> bool
    ensures { result ≡ is_spelled at instr.now }
{
    match *instr {
        Instr::Jal { offset, .. } | Instr::Branch { offset, .. } => {
            reaches(instr, at as u128, at.wrapping_add(offset) as u128)
        }
        Instr::Fence { rd, rs1, high } => rd == 0 && rs1 == 0 && high == 0x0ff,
        Instr::Lr { order, .. } | Instr::Sc { order, .. } | Instr::Amo { order, .. } => order == 0,
        _ => true,
    }
}

/// Adds the operands of an access to memory, or of a jump by a register.
pub(crate) fn add_access_operands(
    alloc: Global,
    out: &mut Vec<u8>,
    instr: &Instr,
) -> Result<(), NoMemory>
    requires { IsAccess instr.now }
    ensures { OnOk result (out.new.items ≡ out.old.items ++ operands_text (codes " ") (operands_of 0 instr.now)) }
{
    match *instr {
        Instr::Jalr { rd, rs1, offset } => add_operands(
            alloc,
            out,
            &[Register(rd), Memory(offset, rs1)],
        ),
        Instr::Load {
            rd,
            rs1,
            offset,
            ..
        } => add_operands(alloc, out, &[Register(rd), Memory(offset, rs1)]),
        Instr::Store {
            rs1,
            rs2,
            offset,
            ..
        } => add_operands(alloc, out, &[Register(rs2), Memory(offset, rs1)]),
        Instr::Lr { rd, rs1, .. } => add_operands(alloc, out, &[Register(rd), Pointer(rs1)]),
        Instr::Sc { rd, rs1, rs2, .. } | Instr::Amo { rd, rs1, rs2, .. } => {
            add_operands(alloc, out, &[Register(rd), Register(rs2), Pointer(rs1)])
        }
        _ => unreachable!(),
    }
}

/// Adds the operands of the instruction at the address, in the order of the assembler's grammar.
fn add_operands_of(alloc: Global, out: &mut Vec<u8>, at: u64, instr: &Instr) -> Result<(), NoMemory>
    ensures { OnOk result (out.new.items ≡ out.old.items ++ operands_text (codes " ") (operands_of at instr.now)) }
{
    match *instr {
        Instr::Lui { rd, imm } | Instr::Auipc { rd, imm } => {
            add_operands(alloc, out, &[Register(rd), Number(upper_bits(imm))])
        }
        Instr::Jal { rd, offset } => {
            add_operands(alloc, out, &[Register(rd), Target(at.wrapping_add(offset))])
        }
        Instr::Branch {
            rs1,
            rs2,
            offset,
            ..
        } => {
            let target = at.wrapping_add(offset);
            add_operands(alloc, out, &[Register(rs1), Register(rs2), Target(target)])
        }
        Instr::OpImm { rd, rs1, imm, .. } | Instr::Addiw { rd, rs1, imm } => {
            add_operands(alloc, out, &[Register(rd), Register(rs1), Number(imm)])
        }
        Instr::ShiftImm { rd, rs1, by, .. } | Instr::ShiftImm32 { rd, rs1, by, .. } => {
            let by = Number(by as u64);
            add_operands(alloc, out, &[Register(rd), Register(rs1), by])
        }
        Instr::Op { rd, rs1, rs2, .. } | Instr::Op32 { rd, rs1, rs2, .. } => {
            add_operands(alloc, out, &[Register(rd), Register(rs1), Register(rs2)])
        }
        Instr::Fence { .. } | Instr::Ecall | Instr::Ebreak => Ok(()),
        _ => add_access_operands(alloc, out, instr),
    }
}

/// Adds the instruction at the address.
fn add_form(alloc: Global, out: &mut Vec<u8>, at: u64, instr: &Instr) -> Result<(), NoMemory>
    ensures { OnOk result (out.new.items ≡ out.old.items ++ form_text at instr.now) }
{
    out.extend_from_slice(mnemonic(instr))?;
    add_operands_of(alloc, out, at, instr)
}

/// Adds the value of the word.
fn add_value(alloc: Global, out: &mut Vec<u8>, word: u32) -> Result<(), NoMemory>
    ensures { OnOk result (out.new.items ≡ out.old.items ++ value_text word) }
{
    out.extend_from_slice(format!(in alloc; ".word 0x{word:x}")?.as_bytes())
}

/// Adds the text of the word at the address, which the assembler reads as this word again. It is its instruction, a jump
/// or branch with the name of its target, that [`add_label`](crate::add_label) adds; and `.word` with its value where the
/// assembler has no form for it.
///
/// # Errors
///
/// `NoMemory` where memory runs out.
#[tactic(auto, unfolding(crate::specs::Texts::instruction_text))]
pub fn add_instruction(alloc: Global, out: &mut Vec<u8>, at: u64, word: u32) -> Result<(), NoMemory>
    ensures { OnOk result (out.new.items ≡ out.old.items ++ instruction_text at word) }
{
    match decode(word) {
        Some(instr) if is_spelled(at, &instr) => add_form(alloc, out, at, &instr),
        _ => add_value(alloc, out, word),
    }
}

/// The address whose name stands in the text of the word at the address. None where no name does: the word is no jump or
/// branch, or one that the assembler has no form for.
pub fn named_target(at: u64, word: u32) -> Option<u64>
    ensures { result ≡ named_target at word }
{
    match decode(word) {
        Some(instr) if is_spelled(at, &instr) => jump_target(word, at),
        _ => None,
    }
}
