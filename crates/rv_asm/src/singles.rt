//! Statements whose form no other has.

ghost use Rattle.std.specs.Prelude.{◌≡◌};
ghost use Rattle.rv_word.specs.declared.instr.ImmOp.TheVariants as imm;
ghost use Rattle.rv_word.specs.declared.instr.Instr.TheVariants as instr;
ghost use Rattle.rv_asm.specs.declared.statement.Statement.TheVariants as the;
ghost use Rattle.rv_asm.specs.Operands.{one_number, one_register, register_memory, register_number, registers_number, two_registers};
ghost use Rattle.rv_asm.specs.Statements.{◌⇒◌};

use crate::operands::{
    one_number, one_register, register_memory, register_number, registers_number, two_registers,
};
use crate::statement::Statement;
use rv_word::{ImmOp, Instr};

/// `addiw rd, rs1, N`
pub(crate) fn addiw_statement(text: &[u8]) -> Option<Statement>
    ensures { result ≡ (registers_number ⇒ λ r. the.Numbered (instr.Addiw r.0 r.1 0) r.2) text.now }
{
    let (rd, rs1, number) = registers_number(text)?;
    let instr = Instr::Addiw { rd, rs1, imm: 0 };
    Some(Statement::Numbered(instr, number))
}

/// `jalr rd, N(rs1)`
pub(crate) fn jalr_statement(text: &[u8]) -> Option<Statement>
    ensures { result ≡ (register_memory ⇒ λ r. the.Numbered (instr.Jalr r.0 r.2 0) r.1) text.now }
{
    let (rd, number, rs1) = register_memory(text)?;
    let instr = Instr::Jalr { rd, rs1, offset: 0 };
    Some(Statement::Numbered(instr, number))
}

/// `lui rd, N`
pub(crate) fn lui_statement(text: &[u8]) -> Option<Statement>
    ensures { result ≡ (register_number ⇒ λ r. the.Numbered (instr.Lui r.0 0) r.1) text.now }
{
    let (rd, number) = register_number(text)?;
    Some(Statement::Numbered(Instr::Lui { rd, imm: 0 }, number))
}

/// `auipc rd, N`
pub(crate) fn auipc_statement(text: &[u8]) -> Option<Statement>
    ensures { result ≡ (register_number ⇒ λ r. the.Numbered (instr.Auipc r.0 0) r.1) text.now }
{
    let (rd, number) = register_number(text)?;
    Some(Statement::Numbered(Instr::Auipc { rd, imm: 0 }, number))
}

/// `li rd, N`
pub(crate) fn li_statement(text: &[u8]) -> Option<Statement>
    ensures { result ≡ (register_number ⇒ λ r. the.LoadNumber r.0 r.1) text.now }
{
    let (rd, number) = register_number(text)?;
    Some(Statement::LoadNumber(rd, number))
}

/// `mv rd, rs`
pub(crate) fn mv_statement(text: &[u8]) -> Option<Statement>
    ensures { result ≡ (two_registers ⇒ λ r. the.Instruction (instr.OpImm imm.Addi r.0 r.1 0)) text.now }
{
    let (rd, rs1) = two_registers(text)?;
    let instr = Instr::OpImm {
        op: ImmOp::Addi,
        rd,
        rs1,
        imm: 0,
    };
    Some(Statement::Instruction(instr))
}

/// `jr rs`
pub(crate) fn jr_statement(text: &[u8]) -> Option<Statement>
    ensures { result ≡ (one_register ⇒ λ base. the.Instruction (instr.Jalr 0 base 0)) text.now }
{
    let rs1 = one_register(text)?;
    let instr = Instr::Jalr {
        rd: 0,
        rs1,
        offset: 0,
    };
    Some(Statement::Instruction(instr))
}

/// `.zero N`
pub(crate) fn zero_statement(text: &[u8]) -> Option<Statement>
    ensures { result ≡ (one_number ⇒ λ n. the.Zeros n) text.now }
{
    let number = one_number(text)?;
    Some(Statement::Zeros(number))
}

/// `.align N`
pub(crate) fn align_statement(text: &[u8]) -> Option<Statement>
    ensures { result ≡ (one_number ⇒ λ n. the.Align n) text.now }
{
    let number = one_number(text)?;
    Some(Statement::Align(number))
}
