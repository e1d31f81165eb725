//! The operations by the codes of a word's fields.

ghost use Rattle.std.specs.Prelude.{◌≡◌};
ghost use Rattle.rv_word.specs.Codes.{branch_op_of, load_op_of, store_op_of, imm_op_of, reg_op_of, reg_op_32_of, width_of, amo_op_of};
ghost use Rattle.rv_word.specs.Table.{right_shift_of};

use crate::instr::{AmoOp, AtomicWidth, BranchOp, ImmOp, LoadOp, RegOp, RegOp32, ShiftOp, StoreOp};

/// The branch of a code.
pub fn branch_op(code: u32) -> Option<BranchOp>
    ensures { result ≡ branch_op_of code }
{
    match code {
        0 => Some(BranchOp::Beq),
        1 => Some(BranchOp::Bne),
        4 => Some(BranchOp::Blt),
        5 => Some(BranchOp::Bge),
        6 => Some(BranchOp::Bltu),
        7 => Some(BranchOp::Bgeu),
        _ => None,
    }
}

/// The load of a code.
pub fn load_op(code: u32) -> Option<LoadOp>
    ensures { result ≡ load_op_of code }
{
    match code {
        0 => Some(LoadOp::Lb),
        1 => Some(LoadOp::Lh),
        2 => Some(LoadOp::Lw),
        3 => Some(LoadOp::Ld),
        4 => Some(LoadOp::Lbu),
        5 => Some(LoadOp::Lhu),
        6 => Some(LoadOp::Lwu),
        _ => None,
    }
}

/// The store of a code.
pub fn store_op(code: u32) -> Option<StoreOp>
    ensures { result ≡ store_op_of code }
{
    match code {
        0 => Some(StoreOp::Sb),
        1 => Some(StoreOp::Sh),
        2 => Some(StoreOp::Sw),
        3 => Some(StoreOp::Sd),
        _ => None,
    }
}

/// The operation on a register and an immediate of a code, but for shifts.
pub fn imm_op(code: u32) -> Option<ImmOp>
    ensures { result ≡ imm_op_of code }
{
    match code {
        0 => Some(ImmOp::Addi),
        2 => Some(ImmOp::Slti),
        3 => Some(ImmOp::Sltiu),
        4 => Some(ImmOp::Xori),
        6 => Some(ImmOp::Ori),
        7 => Some(ImmOp::Andi),
        _ => None,
    }
}

/// The operation on two registers of these codes.
pub fn reg_op(funct7: u32, code: u32) -> Option<RegOp>
    ensures { result ≡ reg_op_of funct7 code }
{
    match (funct7, code) {
        (0, 0) => Some(RegOp::Add),
        (0, 1) => Some(RegOp::Sll),
        (0, 2) => Some(RegOp::Slt),
        (0, 3) => Some(RegOp::Sltu),
        (0, 4) => Some(RegOp::Xor),
        (0, 5) => Some(RegOp::Srl),
        (0, 6) => Some(RegOp::Or),
        (0, 7) => Some(RegOp::And),
        (0x20, 0) => Some(RegOp::Sub),
        (0x20, 5) => Some(RegOp::Sra),
        (1, 0) => Some(RegOp::Mul),
        (1, 1) => Some(RegOp::Mulh),
        (1, 2) => Some(RegOp::Mulhsu),
        (1, 3) => Some(RegOp::Mulhu),
        (1, 4) => Some(RegOp::Div),
        (1, 5) => Some(RegOp::Divu),
        (1, 6) => Some(RegOp::Rem),
        (1, 7) => Some(RegOp::Remu),
        _ => None,
    }
}

/// The operation on the low halves of two registers of these codes.
pub fn reg_op_32(funct7: u32, code: u32) -> Option<RegOp32>
    ensures { result ≡ reg_op_32_of funct7 code }
{
    match (funct7, code) {
        (0, 0) => Some(RegOp32::Addw),
        (0, 1) => Some(RegOp32::Sllw),
        (0, 5) => Some(RegOp32::Srlw),
        (0x20, 0) => Some(RegOp32::Subw),
        (0x20, 5) => Some(RegOp32::Sraw),
        (1, 0) => Some(RegOp32::Mulw),
        (1, 4) => Some(RegOp32::Divw),
        (1, 5) => Some(RegOp32::Divuw),
        (1, 6) => Some(RegOp32::Remw),
        (1, 7) => Some(RegOp32::Remuw),
        _ => None,
    }
}

/// The width of an atomic access of a code.
pub fn atomic_width(code: u32) -> Option<AtomicWidth>
    ensures { result ≡ width_of code }
{
    match code {
        2 => Some(AtomicWidth::Word),
        3 => Some(AtomicWidth::Doubleword),
        _ => None,
    }
}

/// The atomic read-modify-write of a code.
pub fn amo_op(code: u32) -> Option<AmoOp>
    ensures { result ≡ amo_op_of code }
{
    match code {
        0 => Some(AmoOp::Add),
        1 => Some(AmoOp::Swap),
        4 => Some(AmoOp::Xor),
        8 => Some(AmoOp::Or),
        12 => Some(AmoOp::And),
        16 => Some(AmoOp::Min),
        20 => Some(AmoOp::Max),
        24 => Some(AmoOp::Minu),
        28 => Some(AmoOp::Maxu),
        _ => None,
    }
}

/// The right shift of these highest bits: the arithmetic one where they are `arithmetic`.
pub fn right_shift(top: u32, arithmetic: u32) -> Option<ShiftOp>
    ensures { result ≡ right_shift_of arithmetic top }
{
    if top == 0 {
        Some(ShiftOp::Srl)
    } else if top == arithmetic {
        Some(ShiftOp::Sra)
    } else {
        None
    }
}
