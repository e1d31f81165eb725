//! From an instruction to its word.

ghost use Rattle.std.specs.Prelude.{◌≡◌, ◌<◌, ◌^◌, Some};
ghost use Rattle.rv_word.specs.Forms.{HasOffset, IsAtomic};
ghost use Rattle.rv_word.specs.Table.{decode_of};
ghost use Rattle.rv_word.specs.Words.{word_of, HasWord, r_form, i_form, s_form, b_form, u_form, j_form};

use crate::codes::{
    amo_bits, branch_bits, imm_bits, load_bits, reg_32_bits, reg_32_high, reg_bits, reg_high,
    shift_bits, shift_high, store_bits, width_bits,
};
use crate::instr::{AtomicWidth, Instr};

fn r_word(opcode: u32, rd: u32, funct3: u32, rs1: u32, rs2: u32, funct7: u32) -> u32
    requires opcode { opcode < 128 }
    requires funct3 { funct3 < 8 }
    requires funct7 { funct7 < 128 }
    ensures { result ≡ r_form opcode rd funct3 rs1 rs2 funct7 }
{
    opcode + (rd % 32 << 7) + (funct3 << 12) + (rs1 % 32 << 15) + (rs2 % 32 << 20) + (funct7 << 25)
}

fn i_word(opcode: u32, rd: u32, funct3: u32, rs1: u32, imm: u64) -> u32
    requires opcode { opcode < 128 }
    requires funct3 { funct3 < 8 }
    ensures { result ≡ i_form opcode rd funct3 rs1 imm }
{
    let high = (imm % 4096) as u32;
    r_word(opcode, rd, funct3, rs1, high, high >> 5)
}

fn s_word(opcode: u32, funct3: u32, rs1: u32, rs2: u32, imm: u64) -> u32
    requires opcode { opcode < 128 }
    requires funct3 { funct3 < 8 }
    ensures { result ≡ s_form opcode funct3 rs1 rs2 imm }
{
    let imm = (imm % 4096) as u32;
    r_word(opcode, imm, funct3, rs1, rs2, imm >> 5)
}

fn b_word(opcode: u32, funct3: u32, rs1: u32, rs2: u32, imm: u64) -> u32
    requires opcode { opcode < 128 }
    requires funct3 { funct3 < 8 }
    ensures { result ≡ b_form opcode funct3 rs1 rs2 imm }
{
    let imm = (imm % 8192) as u32;
    let low = imm / 2 % 16 * 2 + imm / 2048 % 2;
    r_word(
        opcode,
        low,
        funct3,
        rs1,
        rs2,
        imm / 32 % 64 + imm / 4096 * 64,
    )
}

fn u_word(opcode: u32, rd: u32, imm: u64) -> u32
    requires { opcode < 128 }
    ensures { result ≡ u_form opcode rd imm }
{
    opcode + (rd % 32 << 7) + (((imm >> 12) % 0x100000) as u32 * 4096)
}

fn j_word(opcode: u32, rd: u32, imm: u64) -> u32
    requires { opcode < 128 }
    ensures { result ≡ j_form opcode rd imm }
{
    let imm = (imm % 0x200000) as u32;
    opcode
        + (rd % 32 << 7)
        + (imm / 4096 % 256 << 12)
        + (imm / 2048 % 2 << 20)
        + (imm / 2 % 1024 << 21)
        + (imm / 0x100000 << 31)
}

/// The word of a branch, a load or a store.
#[tactic(auto, unfolding(crate::specs::Table::decode_of))]
fn offset_word(instr: &Instr) -> u32
    requires { HasOffset instr.now }
    ensures word { result ≡ word_of instr.now }
    ensures read { HasWord instr.now → decode_of result ≡ Some instr.now }
{
    match *instr {
        Instr::Branch {
            op,
            rs1,
            rs2,
            offset,
        } => b_word(0x63, branch_bits(op), rs1, rs2, offset),
        Instr::Load {
            op,
            rd,
            rs1,
            offset,
        } => i_word(0x03, rd, load_bits(op), rs1, offset),
        Instr::Store {
            op,
            rs1,
            rs2,
            offset,
        } => s_word(0x23, store_bits(op), rs1, rs2, offset),
        _ => unreachable!(),
    }
}

/// The word of an atomic access.
#[tactic(auto, unfolding(crate::specs::Table::decode_of))]
fn atomic_word(instr: &Instr) -> u32
    requires { IsAtomic instr.now }
    ensures word { result ≡ word_of instr.now }
    ensures read { HasWord instr.now → decode_of result ≡ Some instr.now }
{
    match *instr {
        Instr::Lr {
            width,
            rd,
            rs1,
            order,
        } => r_word(0x2f, rd, width_bits(width), rs1, 0, order % 4 + 2 * 4),
        Instr::Sc {
            width,
            rd,
            rs1,
            rs2,
            order,
        } => r_word(0x2f, rd, width_bits(width), rs1, rs2, order % 4 + 3 * 4),
        Instr::Amo {
            op,
            width,
            rd,
            rs1,
            rs2,
            order,
        } => {
            let funct3 = match width {
                AtomicWidth::Word => 2,
                AtomicWidth::Doubleword => 3,
            };
            r_word(0x2f, rd, funct3, rs1, rs2, order % 4 + amo_bits(op) * 4)
        }
        _ => unreachable!(),
    }
}

/// Encodes the instruction. Of a number that doesn't fit its field, the field has the low bits.
#[tactic(auto, unfolding(crate::specs::Table::decode_of))]
pub fn encode(instr: &Instr) -> u32
    ensures word { result ≡ word_of instr.now }
    ensures read { HasWord instr.now → decode_of result ≡ Some instr.now }
{
    match *instr {
        Instr::Lui { rd, imm } => u_word(0x37, rd, imm),
        Instr::Auipc { rd, imm } => u_word(0x17, rd, imm),
        Instr::Jal { rd, offset } => j_word(0x6f, rd, offset),
        Instr::Jalr { rd, rs1, offset } => i_word(0x67, rd, 0, rs1, offset),
        Instr::Branch { .. } | Instr::Load { .. } | Instr::Store { .. } => offset_word(instr),
        Instr::OpImm { op, rd, rs1, imm } => i_word(0x13, rd, imm_bits(op), rs1, imm),
        Instr::ShiftImm { op, rd, rs1, by } => {
            let imm = (by % 64 + shift_high(op) * 32) as u64;
            i_word(0x13, rd, shift_bits(op), rs1, imm)
        }
        Instr::Addiw { rd, rs1, imm } => i_word(0x1b, rd, 0, rs1, imm),
        Instr::ShiftImm32 { op, rd, rs1, by } => {
            r_word(0x1b, rd, shift_bits(op), rs1, by, shift_high(op))
        }
        Instr::Op { op, rd, rs1, rs2 } => r_word(0x33, rd, reg_bits(op), rs1, rs2, reg_high(op)),
        Instr::Op32 { op, rd, rs1, rs2 } => {
            r_word(0x3b, rd, reg_32_bits(op), rs1, rs2, reg_32_high(op))
        }
        Instr::Fence { rd, rs1, high } => i_word(0x0f, rd, 0, rs1, high as u64),
        Instr::Ecall => 0x00000073,
        Instr::Ebreak => 0x00100073,
        Instr::Lr { .. } | Instr::Sc { .. } | Instr::Amo { .. } => atomic_word(instr),
    }
}
