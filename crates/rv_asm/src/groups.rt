//! Statements whose operation is one of many with the same operands.

ghost use Rattle.std.specs.Prelude.{◌≡◌};
ghost use Rattle.rv_word.specs.declared.instr.Instr.TheVariants as instr;
ghost use Rattle.rv_asm.specs.declared.statement.Statement.TheVariants as the;
ghost use Rattle.rv_asm.specs.Operands.{three_registers, registers_number, register_memory, register_pointer, registers_pointer};
ghost use Rattle.rv_asm.specs.Statements.{◌⇒◌};

use crate::operands::{
    register_memory, register_pointer, registers_number, registers_pointer, three_registers,
};
use crate::statement::Statement;
use rv_word::{AmoOp, AtomicWidth, ImmOp, Instr, LoadOp, RegOp, RegOp32, ShiftOp, StoreOp};

/// An operation on two registers.
pub(crate) fn base_statement(op: RegOp, text: &[u8]) -> Option<Statement>
    ensures { result ≡ (three_registers ⇒ λ r. the.Instruction (instr.Op op r.0 r.1 r.2)) text.now }
{
    let (rd, rs1, rs2) = three_registers(text)?;
    Some(Statement::Instruction(Instr::Op { op, rd, rs1, rs2 }))
}

/// An operation on the low halves of two registers.
pub(crate) fn half_statement(op: RegOp32, text: &[u8]) -> Option<Statement>
    ensures { result ≡ (three_registers ⇒ λ r. the.Instruction (instr.Op32 op r.0 r.1 r.2)) text.now }
{
    let (rd, rs1, rs2) = three_registers(text)?;
    Some(Statement::Instruction(Instr::Op32 { op, rd, rs1, rs2 }))
}

/// An operation on a register and a number.
pub(crate) fn immediate_statement(op: ImmOp, text: &[u8]) -> Option<Statement>
    ensures { result ≡ (registers_number ⇒ λ r. the.Numbered (instr.OpImm op r.0 r.1 0) r.2) text.now }
{
    let (rd, rs1, number) = registers_number(text)?;
    let instr = Instr::OpImm {
        op,
        rd,
        rs1,
        imm: 0,
    };
    Some(Statement::Numbered(instr, number))
}

/// A shift by a number.
pub(crate) fn shift_statement(op: ShiftOp, text: &[u8]) -> Option<Statement>
    ensures { result ≡ (registers_number ⇒ λ r. the.Numbered (instr.ShiftImm op r.0 r.1 0) r.2) text.now }
{
    let (rd, rs1, number) = registers_number(text)?;
    let instr = Instr::ShiftImm { op, rd, rs1, by: 0 };
    Some(Statement::Numbered(instr, number))
}

/// A shift of a low half by a number.
pub(crate) fn half_shift_statement(op: ShiftOp, text: &[u8]) -> Option<Statement>
    ensures { result ≡ (registers_number ⇒ λ r. the.Numbered (instr.ShiftImm32 op r.0 r.1 0) r.2) text.now }
{
    let (rd, rs1, number) = registers_number(text)?;
    let instr = Instr::ShiftImm32 { op, rd, rs1, by: 0 };
    Some(Statement::Numbered(instr, number))
}

/// A load.
pub(crate) fn load_statement(op: LoadOp, text: &[u8]) -> Option<Statement>
    ensures { result ≡ (register_memory ⇒ λ r. the.Numbered (instr.Load op r.0 r.2 0) r.1) text.now }
{
    let (rd, number, rs1) = register_memory(text)?;
    let instr = Instr::Load {
        op,
        rd,
        rs1,
        offset: 0,
    };
    Some(Statement::Numbered(instr, number))
}

/// A store.
pub(crate) fn store_statement(op: StoreOp, text: &[u8]) -> Option<Statement>
    ensures { result ≡ (register_memory ⇒ λ r. the.Numbered (instr.Store op r.2 r.0 0) r.1) text.now }
{
    let (rs2, number, rs1) = register_memory(text)?;
    let instr = Instr::Store {
        op,
        rs1,
        rs2,
        offset: 0,
    };
    Some(Statement::Numbered(instr, number))
}

/// `lr` of this width.
pub(crate) fn reserve_statement(width: AtomicWidth, text: &[u8]) -> Option<Statement>
    ensures { result ≡ (register_pointer ⇒ λ r. the.Instruction (instr.Lr width r.0 r.1 0)) text.now }
{
    let (rd, rs1) = register_pointer(text)?;
    let instr = Instr::Lr {
        width,
        rd,
        rs1,
        order: 0,
    };
    Some(Statement::Instruction(instr))
}

/// `sc` of this width.
pub(crate) fn conditional_statement(width: AtomicWidth, text: &[u8]) -> Option<Statement>
    ensures { result ≡ (registers_pointer ⇒ λ r. the.Instruction (instr.Sc width r.0 r.2 r.1 0)) text.now }
{
    let (rd, rs2, rs1) = registers_pointer(text)?;
    let instr = Instr::Sc {
        width,
        rd,
        rs1,
        rs2,
        order: 0,
    };
    Some(Statement::Instruction(instr))
}

/// The AMO of this width.
pub(crate) fn amo_statement(op: AmoOp, width: AtomicWidth, text: &[u8]) -> Option<Statement>
    ensures { result ≡ (registers_pointer ⇒ λ r. the.Instruction (instr.Amo op width r.0 r.2 r.1 0)) text.now }
{
    let (rd, rs2, rs1) = registers_pointer(text)?;
    let instr = Instr::Amo {
        op,
        width,
        rd,
        rs1,
        rs2,
        order: 0,
    };
    Some(Statement::Instruction(instr))
}
