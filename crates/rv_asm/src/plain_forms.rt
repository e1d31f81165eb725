//! The forms of statements without a name or a string.

use crate::statement::{Statement, ValueWidth};
use rv_word::{AmoOp, AtomicWidth, ImmOp, Instr, LoadOp, RegOp, RegOp32, ShiftOp, StoreOp};

/// The operands of a statement without a name or a string, and what they make.
#[derive(Clone, Copy)]
pub enum PlainForm {
    /// No operands.
    Fixed(Statement),
    /// `rd, rs1, rs2`
    Register(RegOp),
    /// `rd, rs1, rs2`, on the low halves
    Register32(RegOp32),
    /// `rd, rs1, N`
    Immediate(ImmOp),
    /// `rd, rs1, N`, a shift
    Shift(ShiftOp),
    /// `rd, rs1, N`, a shift of the low half
    Shift32(ShiftOp),
    /// `rd, N(rs1)`
    Load(LoadOp),
    /// `rs2, N(rs1)`
    Store(StoreOp),
    /// `lr`: `rd, (rs1)`
    Reserve(AtomicWidth),
    /// `sc`: `rd, rs2, (rs1)`
    Conditional(AtomicWidth),
    /// `rd, rs2, (rs1)`
    Amo(AmoOp, AtomicWidth),
    /// `.align N`
    Align,
    /// `addiw rd, rs1, N`
    Addiw,
    /// `jalr rd, N(rs1)`
    Jalr,
    /// `lui rd, N`
    Lui,
    /// `auipc rd, N`
    Auipc,
    /// `li rd, N`
    LoadNumber,
    /// `mv rd, rs`
    Move,
    /// `jr rs`
    JumpRegister,
    /// `.zero N`
    Zeros,
    /// `N`, a value of this width
    Value(ValueWidth),
}

/// The names of these statements.
pub const PLAIN_FORMS: [(&[u8], PlainForm); 94] = [
    (
        b"ebreak",
        PlainForm::Fixed(Statement::Instruction(Instr::Ebreak)),
    ),
    (
        b"fence",
        PlainForm::Fixed(Statement::Instruction(Instr::Fence {
            rd: 0,
            rs1: 0,
            high: 0x0ff,
        })),
    ),
    (
        b"ecall",
        PlainForm::Fixed(Statement::Instruction(Instr::Ecall)),
    ),
    (
        b"nop",
        PlainForm::Fixed(Statement::Instruction(Instr::OpImm {
            op: ImmOp::Addi,
            rd: 0,
            rs1: 0,
            imm: 0,
        })),
    ),
    (
        b"ret",
        PlainForm::Fixed(Statement::Instruction(Instr::Jalr {
            rd: 0,
            rs1: 1,
            offset: 0,
        })),
    ),
    (b".text", PlainForm::Fixed(Statement::Text)),
    (b".data", PlainForm::Fixed(Statement::Data)),
    (b".end", PlainForm::Fixed(Statement::End)),
    (b"add", PlainForm::Register(RegOp::Add)),
    (b"sub", PlainForm::Register(RegOp::Sub)),
    (b"sll", PlainForm::Register(RegOp::Sll)),
    (b"slt", PlainForm::Register(RegOp::Slt)),
    (b"sltu", PlainForm::Register(RegOp::Sltu)),
    (b"xor", PlainForm::Register(RegOp::Xor)),
    (b"srl", PlainForm::Register(RegOp::Srl)),
    (b"sra", PlainForm::Register(RegOp::Sra)),
    (b"or", PlainForm::Register(RegOp::Or)),
    (b"and", PlainForm::Register(RegOp::And)),
    (b"mulhsu", PlainForm::Register(RegOp::Mulhsu)),
    (b"mulhu", PlainForm::Register(RegOp::Mulhu)),
    (b"mulh", PlainForm::Register(RegOp::Mulh)),
    (b"mul", PlainForm::Register(RegOp::Mul)),
    (b"div", PlainForm::Register(RegOp::Div)),
    (b"divu", PlainForm::Register(RegOp::Divu)),
    (b"rem", PlainForm::Register(RegOp::Rem)),
    (b"remu", PlainForm::Register(RegOp::Remu)),
    (b"addw", PlainForm::Register32(RegOp32::Addw)),
    (b"subw", PlainForm::Register32(RegOp32::Subw)),
    (b"sllw", PlainForm::Register32(RegOp32::Sllw)),
    (b"srlw", PlainForm::Register32(RegOp32::Srlw)),
    (b"sraw", PlainForm::Register32(RegOp32::Sraw)),
    (b"mulw", PlainForm::Register32(RegOp32::Mulw)),
    (b"divw", PlainForm::Register32(RegOp32::Divw)),
    (b"divuw", PlainForm::Register32(RegOp32::Divuw)),
    (b"remw", PlainForm::Register32(RegOp32::Remw)),
    (b"remuw", PlainForm::Register32(RegOp32::Remuw)),
    (b"addi", PlainForm::Immediate(ImmOp::Addi)),
    (b"slti", PlainForm::Immediate(ImmOp::Slti)),
    (b"sltiu", PlainForm::Immediate(ImmOp::Sltiu)),
    (b"xori", PlainForm::Immediate(ImmOp::Xori)),
    (b"ori", PlainForm::Immediate(ImmOp::Ori)),
    (b"andi", PlainForm::Immediate(ImmOp::Andi)),
    (b"slli", PlainForm::Shift(ShiftOp::Sll)),
    (b"srli", PlainForm::Shift(ShiftOp::Srl)),
    (b"srai", PlainForm::Shift(ShiftOp::Sra)),
    (b"slliw", PlainForm::Shift32(ShiftOp::Sll)),
    (b"srliw", PlainForm::Shift32(ShiftOp::Srl)),
    (b"sraiw", PlainForm::Shift32(ShiftOp::Sra)),
    (b"lb", PlainForm::Load(LoadOp::Lb)),
    (b"lh", PlainForm::Load(LoadOp::Lh)),
    (b"lw", PlainForm::Load(LoadOp::Lw)),
    (b"ld", PlainForm::Load(LoadOp::Ld)),
    (b"lbu", PlainForm::Load(LoadOp::Lbu)),
    (b"lhu", PlainForm::Load(LoadOp::Lhu)),
    (b"lwu", PlainForm::Load(LoadOp::Lwu)),
    (b"sb", PlainForm::Store(StoreOp::Sb)),
    (b"sh", PlainForm::Store(StoreOp::Sh)),
    (b"sw", PlainForm::Store(StoreOp::Sw)),
    (b"sd", PlainForm::Store(StoreOp::Sd)),
    (b"lr.w", PlainForm::Reserve(AtomicWidth::Word)),
    (b"sc.w", PlainForm::Conditional(AtomicWidth::Word)),
    (b"amoswap.w", PlainForm::Amo(AmoOp::Swap, AtomicWidth::Word)),
    (b"amoadd.w", PlainForm::Amo(AmoOp::Add, AtomicWidth::Word)),
    (b"amoxor.w", PlainForm::Amo(AmoOp::Xor, AtomicWidth::Word)),
    (b"amoand.w", PlainForm::Amo(AmoOp::And, AtomicWidth::Word)),
    (b"amoor.w", PlainForm::Amo(AmoOp::Or, AtomicWidth::Word)),
    (b"amomin.w", PlainForm::Amo(AmoOp::Min, AtomicWidth::Word)),
    (b"amomax.w", PlainForm::Amo(AmoOp::Max, AtomicWidth::Word)),
    (b"amominu.w", PlainForm::Amo(AmoOp::Minu, AtomicWidth::Word)),
    (b"amomaxu.w", PlainForm::Amo(AmoOp::Maxu, AtomicWidth::Word)),
    (b"lr.d", PlainForm::Reserve(AtomicWidth::Doubleword)),
    (b"sc.d", PlainForm::Conditional(AtomicWidth::Doubleword)),
    (
        b"amoswap.d",
        PlainForm::Amo(AmoOp::Swap, AtomicWidth::Doubleword),
    ),
    (
        b"amoadd.d",
        PlainForm::Amo(AmoOp::Add, AtomicWidth::Doubleword),
    ),
    (
        b"amoxor.d",
        PlainForm::Amo(AmoOp::Xor, AtomicWidth::Doubleword),
    ),
    (
        b"amoand.d",
        PlainForm::Amo(AmoOp::And, AtomicWidth::Doubleword),
    ),
    (
        b"amoor.d",
        PlainForm::Amo(AmoOp::Or, AtomicWidth::Doubleword),
    ),
    (
        b"amomin.d",
        PlainForm::Amo(AmoOp::Min, AtomicWidth::Doubleword),
    ),
    (
        b"amomax.d",
        PlainForm::Amo(AmoOp::Max, AtomicWidth::Doubleword),
    ),
    (
        b"amominu.d",
        PlainForm::Amo(AmoOp::Minu, AtomicWidth::Doubleword),
    ),
    (
        b"amomaxu.d",
        PlainForm::Amo(AmoOp::Maxu, AtomicWidth::Doubleword),
    ),
    (b".align", PlainForm::Align),
    (b"addiw", PlainForm::Addiw),
    (b"jalr", PlainForm::Jalr),
    (b"lui", PlainForm::Lui),
    (b"auipc", PlainForm::Auipc),
    (b"li", PlainForm::LoadNumber),
    (b"mv", PlainForm::Move),
    (b"jr", PlainForm::JumpRegister),
    (b".zero", PlainForm::Zeros),
    (b".dword", PlainForm::Value(ValueWidth::Doubleword)),
    (b".byte", PlainForm::Value(ValueWidth::Byte)),
    (b".half", PlainForm::Value(ValueWidth::Half)),
    (b".word", PlainForm::Value(ValueWidth::Word)),
];
