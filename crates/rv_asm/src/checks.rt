//! Where a statement stands, which numbers fit, and what names x31.

ghost use Rattle.std.specs.Prelude.{◌≡◌, ◌%◌, ◌^◌};
ghost use Rattle.rv_asm.specs.Numbers.{wrapped};
ghost use Rattle.rv_asm.specs.Checks.{in_text, value_stands, may_stand, value_fits, immediate_fits, numbers_fit, value_has_x31, has_x31};

use crate::number::Number;
use crate::statement::{Section, Statement, ValueWidth};
use rv_word::{Instr, encode, names_x31};

impl Section {
    /// Whether it is the text.
    pub(crate) fn is_text(self) -> bool
        ensures { result ≡ in_text self }
    {
        match self {
            Section::Text => true,
            Section::Data => false,
        }
    }
}

/// Whether a value of this width stands in the section.
fn value_stands(width: ValueWidth, section: Section) -> bool
    ensures { result ≡ value_stands width section }
{
    match width {
        ValueWidth::Word => true,
        ValueWidth::Byte | ValueWidth::Half | ValueWidth::Doubleword => !section.is_text(),
    }
}

/// Whether the statement stands in the section, a procedure being open or not.
#[tactic(auto, unfolding(crate::specs::Checks::may_stand))]
pub(crate) fn stands(section: Section, inside: bool, statement: &Statement) -> bool
    ensures { result ≡ may_stand section inside statement.now }
{
    match *statement {
        Statement::Empty | Statement::Text | Statement::Data | Statement::Module => true,
        Statement::Procedure => section.is_text() && !inside,
        Statement::End => section.is_text() && inside,
        Statement::Value(width, _) => value_stands(width, section),
        Statement::Object(_) | Statement::Zeros(_) | Statement::Align(_) | Statement::Ascii =>
            !section.is_text(),
        Statement::Instruction(_)
        | Statement::Numbered(_, _)
        | Statement::Jump(_)
        | Statement::LoadNumber(_, _)
        | Statement::LoadAddress(_) => section.is_text(),
    }
}

/// Whether the number is one of this width, with or without a sign.
fn value_fits(width: ValueWidth, number: &Number) -> bool
    ensures { result ≡ value_fits width number.now }
{
    match width {
        ValueWidth::Byte => number.is_within(0x80, 0xff),
        ValueWidth::Half => number.is_within(0x8000, 0xffff),
        ValueWidth::Word => number.is_within(0x8000_0000, 0xffff_ffff),
        ValueWidth::Doubleword => number.is_within(0x8000_0000_0000_0000, 0xffff_ffff_ffff_ffff),
    }
}

/// Whether the number fits its place in the instruction.
fn immediate_fits(instr: &Instr, number: &Number) -> bool
    ensures { result ≡ immediate_fits instr.now number.now }
{
    match *instr {
        Instr::Lui { .. } | Instr::Auipc { .. } => number.is_within(0, 0xfffff),
        Instr::ShiftImm { .. } => number.is_within(0, 63),
        Instr::ShiftImm32 { .. } => number.is_within(0, 31),
        _ => number.is_within(2048, 2047),
    }
}

/// Whether the numbers of the statement fit their places.
#[tactic(auto, unfolding(crate::specs::Checks::numbers_fit))]
pub(crate) fn numbers_fit(statement: &Statement) -> bool
    ensures { result ≡ numbers_fit statement.now }
{
    match *statement {
        Statement::Object(number) | Statement::Zeros(number) => number.is_within(
            0,
            0xffff_ffff_ffff_ffff,
        ),
        Statement::Value(width, number) => value_fits(width, &number),
        Statement::Align(number) => number.is_within(0, 12),
        Statement::Numbered(instr, number) => immediate_fits(&instr, &number),
        Statement::LoadNumber(_, number) => number.is_within(0x8000_0000, 0x7fff_ffff),
        _ => true,
    }
}

/// Whether a value of this width is a word of the text that names x31.
fn value_has_x31(width: ValueWidth, section: Section, number: &Number) -> bool
    ensures { result ≡ value_has_x31 width section number.now }
{
    match width {
        ValueWidth::Word => section.is_text() && names_x31(number.low_word()),
        _ => false,
    }
}

/// Whether the statement names x31 in the text.
#[tactic(auto, unfolding(crate::specs::Checks::has_x31))]
pub(crate) fn has_x31(section: Section, statement: &Statement) -> bool
    ensures { result ≡ has_x31 section statement.now }
{
    match *statement {
        Statement::Value(width, number) => value_has_x31(width, section, &number),
        Statement::Instruction(instr) | Statement::Numbered(instr, _) | Statement::Jump(instr) => {
            names_x31(encode(&instr))
        }
        Statement::LoadNumber(rd, _) | Statement::LoadAddress(rd) => {
            names_x31(encode(&Instr::Lui { rd, imm: 0 }))
        }
        _ => false,
    }
}
