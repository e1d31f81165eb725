//! Statements with a name or a string, by their names and operands.

ghost use Rattle.std.specs.Prelude.{◌≡◌};
ghost use Rattle.std.specs.Option.{option_map};
ghost use Rattle.rv_word.specs.declared.instr.Instr.TheVariants as instr;
ghost use Rattle.rv_asm.specs.declared.statement.Statement.TheVariants as the;
ghost use Rattle.rv_asm.specs.FormsSeen.{named_form};
ghost use Rattle.rv_asm.specs.Operands.{name_number, one_name, one_string, register_name, registers_name};
ghost use Rattle.rv_asm.specs.Statements.{◌⇒◌, Found, joined, made_by, named_forms, operation};

use crate::operands::{name_number, one_name, one_string, register_name, registers_name};
use crate::plain::plain_statement;
use crate::rows::named_row;
use crate::statement::Statement;
use rv_word::{BranchOp, Instr};

/// The operands of a statement with a name or a string, and what they make.
#[derive(Clone, Copy)]
pub enum NamedForm {
    /// `rs1, rs2, NAME`
    Branch(BranchOp),
    /// `rs, NAME`, a branch on the register and zero
    ZeroBranch(BranchOp),
    /// `NAME`
    Name(Statement),
    /// `.ascii "text"`
    Ascii,
    /// `.object NAME N`
    Object,
    /// `jal rd, NAME`
    Jal,
    /// `la rd, NAME`
    LoadAddress,
}

/// The names of these statements.
pub const NAMED_FORMS: [(&[u8], NamedForm); 16] = [
    (b"beq", NamedForm::Branch(BranchOp::Beq)),
    (b"bne", NamedForm::Branch(BranchOp::Bne)),
    (b"blt", NamedForm::Branch(BranchOp::Blt)),
    (b"bge", NamedForm::Branch(BranchOp::Bge)),
    (b"bltu", NamedForm::Branch(BranchOp::Bltu)),
    (b"bgeu", NamedForm::Branch(BranchOp::Bgeu)),
    (b"beqz", NamedForm::ZeroBranch(BranchOp::Beq)),
    (b"bnez", NamedForm::ZeroBranch(BranchOp::Bne)),
    (b".module", NamedForm::Name(Statement::Module)),
    (
        b"j",
        NamedForm::Name(Statement::Jump(Instr::Jal { rd: 0, offset: 0 })),
    ),
    (
        b"call",
        NamedForm::Name(Statement::Jump(Instr::Jal { rd: 1, offset: 0 })),
    ),
    (b".proc", NamedForm::Name(Statement::Procedure)),
    (b".ascii", NamedForm::Ascii),
    (b".object", NamedForm::Object),
    (b"jal", NamedForm::Jal),
    (b"la", NamedForm::LoadAddress),
];

/// A branch.
fn branch_statement<'a>(op: BranchOp, text: &'a [u8]) -> Option<(Statement, &'a [u8])>
    ensures { option_map {U = Found} (λ found. (found.0, found.1.now)) result
        ≡ (registers_name ⇒ λ r. (the.Jump (instr.Branch op r.0 r.1 0), r.2)) text.now }
{
    let (rs1, rs2, target) = registers_name(text)?;
    let instr = Instr::Branch {
        op,
        rs1,
        rs2,
        offset: 0,
    };
    Some((Statement::Jump(instr), target))
}

/// A branch on a register and zero.
fn zero_branch_statement<'a>(op: BranchOp, text: &'a [u8]) -> Option<(Statement, &'a [u8])>
    ensures { option_map {U = Found} (λ found. (found.0, found.1.now)) result
        ≡ (register_name ⇒ λ r. (the.Jump (instr.Branch op r.0 0 0), r.1)) text.now }
{
    let (rs1, target) = register_name(text)?;
    let instr = Instr::Branch {
        op,
        rs1,
        rs2: 0,
        offset: 0,
    };
    Some((Statement::Jump(instr), target))
}

/// A statement that a name alone follows.
fn name_statement<'a>(statement: Statement, text: &'a [u8]) -> Option<(Statement, &'a [u8])>
    ensures { option_map {U = Found} (λ found. (found.0, found.1.now)) result ≡ (one_name ⇒ λ name. (statement, name)) text.now }
{
    let operand = one_name(text)?;
    Some((statement, operand))
}

/// `jal rd, NAME`
fn jal_statement<'a>(text: &'a [u8]) -> Option<(Statement, &'a [u8])>
    ensures { option_map {U = Found} (λ found. (found.0, found.1.now)) result
        ≡ (register_name ⇒ λ r. (the.Jump (instr.Jal r.0 0), r.1)) text.now }
{
    let (rd, target) = register_name(text)?;
    Some((Statement::Jump(Instr::Jal { rd, offset: 0 }), target))
}

/// `la rd, NAME`
fn la_statement<'a>(text: &'a [u8]) -> Option<(Statement, &'a [u8])>
    ensures { option_map {U = Found} (λ found. (found.0, found.1.now)) result ≡ (register_name ⇒ λ r. (the.LoadAddress r.0, r.1)) text.now }
{
    let (rd, target) = register_name(text)?;
    Some((Statement::LoadAddress(rd), target))
}

/// `.object NAME N`
fn object_statement<'a>(text: &'a [u8]) -> Option<(Statement, &'a [u8])>
    ensures { option_map {U = Found} (λ found. (found.0, found.1.now)) result ≡ (name_number ⇒ λ r. (the.Object r.1, r.0)) text.now }
{
    let (object, size) = name_number(text)?;
    Some((Statement::Object(size), object))
}

/// `.ascii "text"`
fn ascii_statement<'a>(text: &'a [u8]) -> Option<(Statement, &'a [u8])>
    ensures { option_map {U = Found} (λ found. (found.0, found.1.now)) result ≡ (one_string ⇒ λ bytes. (the.Ascii, bytes)) text.now }
{
    let bytes = one_string(text)?;
    Some((Statement::Ascii, bytes))
}

/// The statement of this form, by its operands.
fn of_form<'a>(form: NamedForm, text: &'a [u8]) -> Option<(Statement, &'a [u8])>
    ensures { option_map {U = Found} (λ found. (found.0, found.1.now)) result ≡ named_form form text.now }
{
    match form {
        NamedForm::Branch(op) => branch_statement(op, text),
        NamedForm::ZeroBranch(op) => zero_branch_statement(op, text),
        NamedForm::Name(statement) => name_statement(statement, text),
        NamedForm::Ascii => ascii_statement(text),
        NamedForm::Object => object_statement(text),
        NamedForm::Jal => jal_statement(text),
        NamedForm::LoadAddress => la_statement(text),
    }
}

/// A statement with a name or a string.
fn named_statement<'a>(name: &[u8], text: &'a [u8]) -> Option<(Statement, &'a [u8])>
    ensures { option_map {U = Found} (λ found. (found.0, found.1.now)) result ≡ made_by (joined named_forms) name.now text.now }
{
    let form = named_row(name, &NAMED_FORMS)?;
    of_form(form, text)
}

/// A statement by its name and what stands after it, with the name or the string that it has, else with nothing.
/// None where it has no form.
pub(crate) fn operation<'a>(name: &[u8], text: &'a [u8]) -> Option<(Statement, &'a [u8])>
    ensures { option_map {U = Found} (λ found. (found.0, found.1.now)) result ≡ operation name.now text.now }
{
    match plain_statement(name, text) {
        Some(statement) => Some((statement, &[])),
        None => named_statement(name, text),
    }
}
