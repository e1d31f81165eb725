//! From a word to its instruction.

ghost use Rattle.std.specs.Prelude.{◌≡◌, ◌/◌, ◌^◌, IfSome};
ghost use Rattle.rv_word.specs.Words.{word_of, HasWord};
ghost use Rattle.rv_word.specs.Codes.{amo_op_of};
ghost use Rattle.rv_word.specs.Table.{decode_of, branch_of, load_of, store_of, op_imm_of, op_imm_32_of, op_of, op_32_of, fence_of, system_of, lr_of, sc_of, amo_of, atomic_of, jalr_of};

use crate::fields::{
    b_imm, funct3, funct7, high12, i_imm, j_imm, opcode, order, rd, rs1, rs2, s_imm, u_imm,
};
use crate::instr::{AtomicWidth, Instr, ShiftOp};
use crate::operations::{
    amo_op, atomic_width, branch_op, imm_op, load_op, reg_op, reg_op_32, right_shift, store_op,
};

fn branch(word: u32) -> Option<Instr>
    ensures { result ≡ branch_of word }
{
    let op = branch_op(funct3(word))?;
    Some(Instr::Branch {
        op,
        rs1: rs1(word),
        rs2: rs2(word),
        offset: b_imm(word),
    })
}

fn jalr(word: u32) -> Option<Instr>
    ensures { result ≡ jalr_of word }
{
    match funct3(word) {
        0 => Some(Instr::Jalr {
            rd: rd(word),
            rs1: rs1(word),
            offset: i_imm(word),
        }),
        _ => None,
    }
}

fn load(word: u32) -> Option<Instr>
    ensures { result ≡ load_of word }
{
    let op = load_op(funct3(word))?;
    Some(Instr::Load {
        op,
        rd: rd(word),
        rs1: rs1(word),
        offset: i_imm(word),
    })
}

fn store(word: u32) -> Option<Instr>
    ensures { result ≡ store_of word }
{
    let op = store_op(funct3(word))?;
    Some(Instr::Store {
        op,
        rs1: rs1(word),
        rs2: rs2(word),
        offset: s_imm(word),
    })
}

fn op_imm(word: u32) -> Option<Instr>
    ensures { result ≡ op_imm_of word }
{
    match funct3(word) {
        1 if word >> 26 == 0 => Some(Instr::ShiftImm {
            op: ShiftOp::Sll,
            rd: rd(word),
            rs1: rs1(word),
            by: (word >> 20) & 63,
        }),
        1 => None,
        5 => {
            let op = right_shift(word >> 26, 16)?;
            Some(Instr::ShiftImm {
                op,
                rd: rd(word),
                rs1: rs1(word),
                by: (word >> 20) & 63,
            })
        }
        code => {
            let op = imm_op(code)?;
            Some(Instr::OpImm {
                op,
                rd: rd(word),
                rs1: rs1(word),
                imm: i_imm(word),
            })
        }
    }
}

fn op_imm_32(word: u32) -> Option<Instr>
    ensures { result ≡ op_imm_32_of word }
{
    match funct3(word) {
        0 => Some(Instr::Addiw {
            rd: rd(word),
            rs1: rs1(word),
            imm: i_imm(word),
        }),
        1 if funct7(word) == 0 => Some(Instr::ShiftImm32 {
            op: ShiftOp::Sll,
            rd: rd(word),
            rs1: rs1(word),
            by: rs2(word),
        }),
        5 => {
            let op = right_shift(funct7(word), 32)?;
            Some(Instr::ShiftImm32 {
                op,
                rd: rd(word),
                rs1: rs1(word),
                by: rs2(word),
            })
        }
        _ => None,
    }
}

fn op(word: u32) -> Option<Instr>
    ensures { result ≡ op_of word }
{
    let op = reg_op(funct7(word), funct3(word))?;
    Some(Instr::Op {
        op,
        rd: rd(word),
        rs1: rs1(word),
        rs2: rs2(word),
    })
}

fn op_32(word: u32) -> Option<Instr>
    ensures { result ≡ op_32_of word }
{
    let op = reg_op_32(funct7(word), funct3(word))?;
    Some(Instr::Op32 {
        op,
        rd: rd(word),
        rs1: rs1(word),
        rs2: rs2(word),
    })
}

fn fence(word: u32) -> Option<Instr>
    ensures { result ≡ fence_of word }
{
    match funct3(word) {
        0 => Some(Instr::Fence {
            rd: rd(word),
            rs1: rs1(word),
            high: high12(word),
        }),
        _ => None,
    }
}

fn system(word: u32) -> Option<Instr>
    ensures { result ≡ system_of word }
{
    match word {
        0x00000073 => Some(Instr::Ecall),
        0x00100073 => Some(Instr::Ebreak),
        _ => None,
    }
}

fn load_reserved(width: AtomicWidth, word: u32) -> Option<Instr>
    ensures { result ≡ lr_of width word }
{
    match rs2(word) {
        0 => Some(Instr::Lr {
            width,
            rd: rd(word),
            rs1: rs1(word),
            order: order(word),
        }),
        _ => None,
    }
}

fn store_conditional(width: AtomicWidth, word: u32) -> Option<Instr>
    ensures { result ≡ sc_of width word }
{
    Some(Instr::Sc {
        width,
        rd: rd(word),
        rs1: rs1(word),
        rs2: rs2(word),
        order: order(word),
    })
}

fn amo(width: AtomicWidth, word: u32) -> Option<Instr>
    ensures { result ≡ amo_of width (amo_op_of (word / 2 ^ 27)) word }
{
    Some(Instr::Amo {
        op: amo_op(word >> 27)?,
        width,
        rd: rd(word),
        rs1: rs1(word),
        rs2: rs2(word),
        order: order(word),
    })
}

fn atomic(word: u32) -> Option<Instr>
    ensures { result ≡ atomic_of word }
{
    let width = atomic_width(funct3(word))?;
    match word >> 27 {
        2 => load_reserved(width, word),
        3 => store_conditional(width, word),
        _ => amo(width, word),
    }
}

/// Decodes the word. Returns `None` where the table has no such word.
#[tactic(auto, unfolding(crate::specs::Table::decode_of))]
pub fn decode(word: u32) -> Option<Instr>
    ensures table { result ≡ decode_of word }
    ensures fits { IfSome result HasWord }
    ensures word { IfSome result (λ i. word_of i ≡ word) }
{
    match opcode(word) {
        0x37 => Some(Instr::Lui {
            rd: rd(word),
            imm: u_imm(word),
        }),
        0x17 => Some(Instr::Auipc {
            rd: rd(word),
            imm: u_imm(word),
        }),
        0x6f => Some(Instr::Jal {
            rd: rd(word),
            offset: j_imm(word),
        }),
        0x67 => jalr(word),
        0x63 => branch(word),
        0x03 => load(word),
        0x23 => store(word),
        0x13 => op_imm(word),
        0x1b => op_imm_32(word),
        0x33 => op(word),
        0x3b => op_32(word),
        0x0f => fence(word),
        0x73 => system(word),
        0x2f => atomic(word),
        _ => None,
    }
}
