//! Statements without a name or a string, by their names and operands.

ghost use Rattle.std.specs.Prelude.{◌≡◌};
ghost use Rattle.rv_asm.specs.declared.statement.Statement.TheVariants as the;
ghost use Rattle.rv_asm.specs.FormsSeen.{plain_form};
ghost use Rattle.rv_asm.specs.Operands.{alone, one_number};
ghost use Rattle.rv_asm.specs.Statements.{◌⇒◌, joined, made_by, plain_forms};

use crate::groups::{
    amo_statement, base_statement, conditional_statement, half_shift_statement, half_statement,
    immediate_statement, load_statement, reserve_statement, shift_statement, store_statement,
};
use crate::operands::one_number;
use crate::plain_forms::{PLAIN_FORMS, PlainForm};
use crate::rows::named_row;
use crate::singles::{
    addiw_statement, align_statement, auipc_statement, jalr_statement, jr_statement, li_statement,
    lui_statement, mv_statement, zero_statement,
};
use crate::statement::{Statement, ValueWidth};
use crate::token::is_end;

/// A statement that no operands follow.
fn fixed_statement(statement: Statement, text: &[u8]) -> Option<Statement>
    ensures { result ≡ alone statement text.now }
{
    if is_end(text) { Some(statement) } else { None }
}

/// A value of this width.
fn value_statement(width: ValueWidth, text: &[u8]) -> Option<Statement>
    ensures { result ≡ (one_number ⇒ λ n. the.Value width n) text.now }
{
    let number = one_number(text)?;
    Some(Statement::Value(width, number))
}

/// The statement of this form, by its operands.
fn of_form(form: PlainForm, text: &[u8]) -> Option<Statement>
    ensures { result ≡ plain_form form text.now }
{
    match form {
        PlainForm::Fixed(statement) => fixed_statement(statement, text),
        PlainForm::Register(op) => base_statement(op, text),
        PlainForm::Register32(op) => half_statement(op, text),
        PlainForm::Immediate(op) => immediate_statement(op, text),
        PlainForm::Shift(op) => shift_statement(op, text),
        PlainForm::Shift32(op) => half_shift_statement(op, text),
        PlainForm::Load(op) => load_statement(op, text),
        PlainForm::Store(op) => store_statement(op, text),
        PlainForm::Reserve(width) => reserve_statement(width, text),
        PlainForm::Conditional(width) => conditional_statement(width, text),
        PlainForm::Amo(op, width) => amo_statement(op, width, text),
        PlainForm::Align => align_statement(text),
        PlainForm::Addiw => addiw_statement(text),
        PlainForm::Jalr => jalr_statement(text),
        PlainForm::Lui => lui_statement(text),
        PlainForm::Auipc => auipc_statement(text),
        PlainForm::LoadNumber => li_statement(text),
        PlainForm::Move => mv_statement(text),
        PlainForm::JumpRegister => jr_statement(text),
        PlainForm::Zeros => zero_statement(text),
        PlainForm::Value(width) => value_statement(width, text),
    }
}

/// A statement without a name or a string, by its name and what stands after it. None where it has no form.
pub(crate) fn plain_statement(name: &[u8], text: &[u8]) -> Option<Statement>
    ensures { result ≡ made_by (joined plain_forms) name.now text.now }
{
    let form = named_row(name, &PLAIN_FORMS)?;
    of_form(form, text)
}
