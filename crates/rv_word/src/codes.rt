//! The codes of the operations in a word's fields.

ghost use Rattle.std.specs.Prelude.{◌≡◌};
ghost use Rattle.rv_word.specs.Codes.{branch_code, load_code, store_code, imm_code, reg_codes, reg_32_codes, amo_code, width_code};
ghost use Rattle.rv_word.specs.Words.{shift_code, shift_top};

use crate::instr::{AmoOp, AtomicWidth, BranchOp, ImmOp, LoadOp, RegOp, RegOp32, ShiftOp, StoreOp};

/// The code of a branch, its funct3.
pub fn branch_bits(op: BranchOp) -> u32
    ensures { result ≡ branch_code op }
{
    match op {
        BranchOp::Beq => 0,
        BranchOp::Bne => 1,
        BranchOp::Blt => 4,
        BranchOp::Bge => 5,
        BranchOp::Bltu => 6,
        BranchOp::Bgeu => 7,
    }
}

/// The code of a load, its funct3.
pub fn load_bits(op: LoadOp) -> u32
    ensures { result ≡ load_code op }
{
    match op {
        LoadOp::Lb => 0,
        LoadOp::Lh => 1,
        LoadOp::Lw => 2,
        LoadOp::Ld => 3,
        LoadOp::Lbu => 4,
        LoadOp::Lhu => 5,
        LoadOp::Lwu => 6,
    }
}

/// The code of a store, its funct3.
pub fn store_bits(op: StoreOp) -> u32
    ensures { result ≡ store_code op }
{
    match op {
        StoreOp::Sb => 0,
        StoreOp::Sh => 1,
        StoreOp::Sw => 2,
        StoreOp::Sd => 3,
    }
}

/// The code of an operation on a register and an immediate, its funct3.
pub fn imm_bits(op: ImmOp) -> u32
    ensures { result ≡ imm_code op }
{
    match op {
        ImmOp::Addi => 0,
        ImmOp::Slti => 2,
        ImmOp::Sltiu => 3,
        ImmOp::Xori => 4,
        ImmOp::Ori => 6,
        ImmOp::Andi => 7,
    }
}

/// The code of a shift by an immediate, its funct3.
pub fn shift_bits(op: ShiftOp) -> u32
    ensures { result ≡ shift_code op }
{
    match op {
        ShiftOp::Sll => 1,
        ShiftOp::Srl => 5,
        ShiftOp::Sra => 5,
    }
}

/// The highest seven bits of a shift by an immediate: its funct7, where no bit of the amount stands.
pub fn shift_high(op: ShiftOp) -> u32
    ensures { result ≡ shift_top op }
{
    match op {
        ShiftOp::Sll => 0,
        ShiftOp::Srl => 0,
        ShiftOp::Sra => 32,
    }
}

/// The code of an operation on two registers, its funct3.
pub fn reg_bits(op: RegOp) -> u32
    ensures { result ≡ (reg_codes op).1 }
{
    match op {
        RegOp::Add => 0,
        RegOp::Sll => 1,
        RegOp::Slt => 2,
        RegOp::Sltu => 3,
        RegOp::Xor => 4,
        RegOp::Srl => 5,
        RegOp::Or => 6,
        RegOp::And => 7,
        RegOp::Sub => 0,
        RegOp::Sra => 5,
        RegOp::Mul => 0,
        RegOp::Mulh => 1,
        RegOp::Mulhsu => 2,
        RegOp::Mulhu => 3,
        RegOp::Div => 4,
        RegOp::Divu => 5,
        RegOp::Rem => 6,
        RegOp::Remu => 7,
    }
}

/// The highest bits of an operation on two registers, its funct7.
pub fn reg_high(op: RegOp) -> u32
    ensures { result ≡ (reg_codes op).0 }
{
    match op {
        RegOp::Add => 0,
        RegOp::Sll => 0,
        RegOp::Slt => 0,
        RegOp::Sltu => 0,
        RegOp::Xor => 0,
        RegOp::Srl => 0,
        RegOp::Or => 0,
        RegOp::And => 0,
        RegOp::Sub => 32,
        RegOp::Sra => 32,
        RegOp::Mul => 1,
        RegOp::Mulh => 1,
        RegOp::Mulhsu => 1,
        RegOp::Mulhu => 1,
        RegOp::Div => 1,
        RegOp::Divu => 1,
        RegOp::Rem => 1,
        RegOp::Remu => 1,
    }
}

/// The code of an operation on the low halves of two registers, its funct3.
pub fn reg_32_bits(op: RegOp32) -> u32
    ensures { result ≡ (reg_32_codes op).1 }
{
    match op {
        RegOp32::Addw => 0,
        RegOp32::Sllw => 1,
        RegOp32::Srlw => 5,
        RegOp32::Subw => 0,
        RegOp32::Sraw => 5,
        RegOp32::Mulw => 0,
        RegOp32::Divw => 4,
        RegOp32::Divuw => 5,
        RegOp32::Remw => 6,
        RegOp32::Remuw => 7,
    }
}

/// The highest bits of an operation on the low halves of two registers, its funct7.
pub fn reg_32_high(op: RegOp32) -> u32
    ensures { result ≡ (reg_32_codes op).0 }
{
    match op {
        RegOp32::Addw => 0,
        RegOp32::Sllw => 0,
        RegOp32::Srlw => 0,
        RegOp32::Subw => 32,
        RegOp32::Sraw => 32,
        RegOp32::Mulw => 1,
        RegOp32::Divw => 1,
        RegOp32::Divuw => 1,
        RegOp32::Remw => 1,
        RegOp32::Remuw => 1,
    }
}

/// The code of an atomic read-modify-write, its funct5.
pub fn amo_bits(op: AmoOp) -> u32
    ensures { result ≡ amo_code op }
{
    match op {
        AmoOp::Swap => 1,
        AmoOp::Add => 0,
        AmoOp::Xor => 4,
        AmoOp::And => 12,
        AmoOp::Or => 8,
        AmoOp::Min => 16,
        AmoOp::Max => 20,
        AmoOp::Minu => 24,
        AmoOp::Maxu => 28,
    }
}

/// The code of the width of an atomic access, its funct3.
pub fn width_bits(width: AtomicWidth) -> u32
    ensures { result ≡ width_code width }
{
    match width {
        AtomicWidth::Word => 2,
        AtomicWidth::Doubleword => 3,
    }
}
