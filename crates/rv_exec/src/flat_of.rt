//! The flats of instructions.

ghost use Rattle.std.specs.Prelude.{◌≡◌, ◌≤◌, ◌<◌, false, Some, IfSome};
ghost use Rattle.rv_word.specs.Words.{HasWord};
ghost use Rattle.rv_word.specs.declared.instr.Instr.TheVariants.{Branch, Load, Store, OpImm, ShiftImm, ShiftImm32, Op, Op32};
ghost use Rattle.rv_exec.specs.Flat.{IsFlatOf, PutsResult, instr_of, is_idle, offset_of, wide};

use crate::flat::Flat;
use crate::values::widened;
use rv_word::{BranchOp, ImmOp, Instr, LoadOp, RegOp, RegOp32, ShiftOp, StoreOp};

/// The immediate that is this 64-bit number, if 32 bits have it.
pub fn narrow(number: u64) -> Option<i32>
    ensures { IfSome result (λ n. wide n ≡ number) }
{
    let low = ((number % 0x1_0000_0000) as u32).cast_signed();
    if widened(low) == number {
        Some(low)
    } else {
        None
    }
}

/// How many words an offset is, if it is a whole number of them that 32 bits have.
fn words_in(offset: u64) -> Option<i32>
    ensures { IfSome result (λ words. offset_of words ≡ offset) }
{
    let words = ((offset / 4 % 0x1_0000_0000) as u32).cast_signed();
    if widened(words).wrapping_mul(4) == offset {
        Some(words)
    } else {
        None
    }
}

fn flat_branch(op: BranchOp, rs1: u8, rs2: u8, words: i32) -> Flat
    ensures instr { instr_of result ≡ Some (Branch op rs1 rs2 (offset_of words)) }
    ensures puts { PutsResult result }
{
    match op {
        BranchOp::Beq => Flat::Beq(rs1, rs2, words),
        BranchOp::Bne => Flat::Bne(rs1, rs2, words),
        BranchOp::Blt => Flat::Blt(rs1, rs2, words),
        BranchOp::Bge => Flat::Bge(rs1, rs2, words),
        BranchOp::Bltu => Flat::Bltu(rs1, rs2, words),
        BranchOp::Bgeu => Flat::Bgeu(rs1, rs2, words),
    }
}

fn flat_load(op: LoadOp, rd: u8, rs1: u8, imm: i32) -> Flat
    requires { 1 ≤ rd }
    ensures instr { instr_of result ≡ Some (Load op rd rs1 (wide imm)) }
    ensures puts { PutsResult result }
{
    match op {
        LoadOp::Lb => Flat::Lb(rd, rs1, imm),
        LoadOp::Lh => Flat::Lh(rd, rs1, imm),
        LoadOp::Lw => Flat::Lw(rd, rs1, imm),
        LoadOp::Ld => Flat::Ld(rd, rs1, imm),
        LoadOp::Lbu => Flat::Lbu(rd, rs1, imm),
        LoadOp::Lhu => Flat::Lhu(rd, rs1, imm),
        LoadOp::Lwu => Flat::Lwu(rd, rs1, imm),
    }
}

fn flat_store(op: StoreOp, rs1: u8, rs2: u8, imm: i32) -> Flat
    ensures instr { instr_of result ≡ Some (Store op rs1 rs2 (wide imm)) }
    ensures puts { PutsResult result }
{
    match op {
        StoreOp::Sb => Flat::Sb(rs1, rs2, imm),
        StoreOp::Sh => Flat::Sh(rs1, rs2, imm),
        StoreOp::Sw => Flat::Sw(rs1, rs2, imm),
        StoreOp::Sd => Flat::Sd(rs1, rs2, imm),
    }
}

fn flat_imm(op: ImmOp, rd: u8, rs1: u8, imm: i32) -> Flat
    requires { 1 ≤ rd }
    ensures instr { instr_of result ≡ Some (OpImm op rd rs1 (wide imm)) }
    ensures puts { PutsResult result }
{
    match op {
        ImmOp::Addi => Flat::Addi(rd, rs1, imm),
        ImmOp::Slti => Flat::Slti(rd, rs1, imm),
        ImmOp::Sltiu => Flat::Sltiu(rd, rs1, imm),
        ImmOp::Xori => Flat::Xori(rd, rs1, imm),
        ImmOp::Ori => Flat::Ori(rd, rs1, imm),
        ImmOp::Andi => Flat::Andi(rd, rs1, imm),
    }
}

fn flat_shift(op: ShiftOp, rd: u8, rs1: u8, by: u8) -> Flat
    requires { 1 ≤ rd }
    ensures instr { instr_of result ≡ Some (ShiftImm op rd rs1 by) }
    ensures puts { PutsResult result }
{
    match op {
        ShiftOp::Sll => Flat::Slli(rd, rs1, by),
        ShiftOp::Srl => Flat::Srli(rd, rs1, by),
        ShiftOp::Sra => Flat::Srai(rd, rs1, by),
    }
}

fn flat_shift_32(op: ShiftOp, rd: u8, rs1: u8, by: u8) -> Flat
    requires { 1 ≤ rd }
    ensures instr { instr_of result ≡ Some (ShiftImm32 op rd rs1 by) }
    ensures puts { PutsResult result }
{
    match op {
        ShiftOp::Sll => Flat::Slliw(rd, rs1, by),
        ShiftOp::Srl => Flat::Srliw(rd, rs1, by),
        ShiftOp::Sra => Flat::Sraiw(rd, rs1, by),
    }
}

fn flat_op(op: RegOp, rd: u8, rs1: u8, rs2: u8) -> Flat
    requires { 1 ≤ rd }
    ensures instr { instr_of result ≡ Some (Op op rd rs1 rs2) }
    ensures puts { PutsResult result }
{
    match op {
        RegOp::Add => Flat::Add(rd, rs1, rs2),
        RegOp::Sll => Flat::Sll(rd, rs1, rs2),
        RegOp::Slt => Flat::Slt(rd, rs1, rs2),
        RegOp::Sltu => Flat::Sltu(rd, rs1, rs2),
        RegOp::Xor => Flat::Xor(rd, rs1, rs2),
        RegOp::Srl => Flat::Srl(rd, rs1, rs2),
        RegOp::Or => Flat::Or(rd, rs1, rs2),
        RegOp::And => Flat::And(rd, rs1, rs2),
        RegOp::Sub => Flat::Sub(rd, rs1, rs2),
        RegOp::Sra => Flat::Sra(rd, rs1, rs2),
        RegOp::Mul => Flat::Mul(rd, rs1, rs2),
        RegOp::Mulh => Flat::Mulh(rd, rs1, rs2),
        RegOp::Mulhsu => Flat::Mulhsu(rd, rs1, rs2),
        RegOp::Mulhu => Flat::Mulhu(rd, rs1, rs2),
        RegOp::Div => Flat::Div(rd, rs1, rs2),
        RegOp::Divu => Flat::Divu(rd, rs1, rs2),
        RegOp::Rem => Flat::Rem(rd, rs1, rs2),
        RegOp::Remu => Flat::Remu(rd, rs1, rs2),
    }
}

fn flat_op_32(op: RegOp32, rd: u8, rs1: u8, rs2: u8) -> Flat
    requires { 1 ≤ rd }
    ensures instr { instr_of result ≡ Some (Op32 op rd rs1 rs2) }
    ensures puts { PutsResult result }
{
    match op {
        RegOp32::Addw => Flat::Addw(rd, rs1, rs2),
        RegOp32::Sllw => Flat::Sllw(rd, rs1, rs2),
        RegOp32::Srlw => Flat::Srlw(rd, rs1, rs2),
        RegOp32::Subw => Flat::Subw(rd, rs1, rs2),
        RegOp32::Sraw => Flat::Sraw(rd, rs1, rs2),
        RegOp32::Mulw => Flat::Mulw(rd, rs1, rs2),
        RegOp32::Divw => Flat::Divw(rd, rs1, rs2),
        RegOp32::Divuw => Flat::Divuw(rd, rs1, rs2),
        RegOp32::Remw => Flat::Remw(rd, rs1, rs2),
        RegOp32::Remuw => Flat::Remuw(rd, rs1, rs2),
    }
}

/// The flat of an instruction that does more than that the hart goes on, if there is one but `Rest`.
fn flat_of(instr: Instr) -> Option<Flat>
    requires word { HasWord instr }
    requires busy { is_idle instr ≡ false }
    ensures { IfSome result (λ f. (instr_of f ≡ Some instr) × PutsResult f) }
{
    let flat = match instr {
        Instr::Lui { rd, imm } => Flat::Lui(rd as u8, narrow(imm)?),
        Instr::Auipc { rd, imm } => Flat::Auipc(rd as u8, narrow(imm)?),
        Instr::Jal { rd, offset } if rd == 0 => Flat::J(words_in(offset)?),
        Instr::Jal { rd, offset } => Flat::Jal(rd as u8, words_in(offset)?),
        Instr::Jalr { rd, rs1, offset } if rd == 0 => Flat::Jr(rs1 as u8, narrow(offset)?),
        Instr::Jalr { rd, rs1, offset } => Flat::Jalr(rd as u8, rs1 as u8, narrow(offset)?),
        Instr::Branch {
            op,
            rs1,
            rs2,
            offset,
        } => flat_branch(op, rs1 as u8, rs2 as u8, words_in(offset)?),
        Instr::Load {
            op,
            rd,
            rs1,
            offset,
        } if rd != 0 => flat_load(op, rd as u8, rs1 as u8, narrow(offset)?),
        Instr::Store {
            op,
            rs1,
            rs2,
            offset,
        } => flat_store(op, rs1 as u8, rs2 as u8, narrow(offset)?),
        Instr::OpImm { op, rd, rs1, imm } => flat_imm(op, rd as u8, rs1 as u8, narrow(imm)?),
        Instr::ShiftImm { op, rd, rs1, by } => flat_shift(op, rd as u8, rs1 as u8, by as u8),
        Instr::Addiw { rd, rs1, imm } => Flat::Addiw(rd as u8, rs1 as u8, narrow(imm)?),
        Instr::ShiftImm32 { op, rd, rs1, by } => flat_shift_32(op, rd as u8, rs1 as u8, by as u8),
        Instr::Op { op, rd, rs1, rs2 } => flat_op(op, rd as u8, rs1 as u8, rs2 as u8),
        Instr::Op32 { op, rd, rs1, rs2 } => flat_op_32(op, rd as u8, rs1 as u8, rs2 as u8),
        _ => return None,
    };
    Some(flat)
}

/// Whether an instruction does nothing but that the hart goes on: a fence, or what computes for x0.
fn is_idle(instr: Instr) -> bool
    ensures { result ≡ is_idle instr }
{
    match instr {
        Instr::Lui { rd, .. }
        | Instr::Auipc { rd, .. }
        | Instr::OpImm { rd, .. }
        | Instr::ShiftImm { rd, .. }
        | Instr::Addiw { rd, .. }
        | Instr::ShiftImm32 { rd, .. }
        | Instr::Op { rd, .. }
        | Instr::Op32 { rd, .. } => rd == 0,
        Instr::Fence { .. } => true,
        _ => false,
    }
}

/// The flat of an instruction, which is `Rest` where there is none.
#[tactic(auto, using(crate::proofs::Flats::idle, crate::proofs::Flats::stands))]
pub fn flattened(instr: Option<Instr>) -> Flat
    requires { IfSome instr HasWord }
    ensures { IsFlatOf instr result }
{
    match instr {
        Some(instr) if is_idle(instr) => Flat::Nop,
        Some(instr) => match flat_of(instr) {
            Some(flat) => flat,
            None => Flat::Rest,
        },
        None => Flat::Rest,
    }
}
