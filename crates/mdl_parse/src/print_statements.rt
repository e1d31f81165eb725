//! The words of statements.

ghost use Rattle.std.specs.Prelude.{◌≡◌, [], ◌∷◌, ◌++◌, OnOk};
ghost use Rattle.std.specs.List.{flat_map};
ghost use Rattle.pn_text.specs.Words.{NameWord, SignWord};
ghost use Rattle.pn_text.specs.declared.token.Sign.TheVariants.{OpenParen, CloseParen, Semicolon};
ghost use Rattle.mdl_parse.specs.Gives.{word_seen};
ghost use Rattle.mdl_parse.specs.Grammar.{var_word, left_words, cmp_sign, right_word, condition_words, action_words, statement_words};

use crate::line::Line;
use crate::seen::Seen;
use crate::seen::Seen::{DollarArg, DollarMetric, DollarValue, Name, Number};
use mdl_ast::{Action, Condition, LeftName, RightSide, Statement, VarName};
use pn_text::Sign;
use pn_types::{Cmp, NoMemory};

/// A variable.
fn var_word(var: &VarName) -> Seen<'_>
    ensures { word_seen result ≡ var_word var.now }
{
    match var {
        VarName::Named(name) => Name(name.bytes()),
        VarName::TheMetric => DollarMetric,
    }
}

/// The sign of a comparison.
fn cmp_sign(cmp: Cmp) -> Sign
    ensures { result ≡ cmp_sign cmp }
{
    match cmp {
        Cmp::Eq => Sign::Equal,
        Cmp::Ne => Sign::NotEqual,
        Cmp::Lt => Sign::Less,
        Cmp::Le => Sign::LessEqual,
        Cmp::Gt => Sign::Greater,
        Cmp::Ge => Sign::GreaterEqual,
    }
}

/// The right side of a condition.
fn right_word(right: RightSide) -> Seen<'static>
    ensures { word_seen result ≡ right_word right }
{
    match right {
        RightSide::Number(number) => Number(number),
        RightSide::Value => DollarValue,
    }
}

/// Adds the left side of a condition.
fn add_left<'a>(line: &mut Line<'a>, left: &'a LeftName) -> Result<(), NoMemory>
    ensures { OnOk result (line.new ≡ line.old ++ left_words left.now) }
{
    match left {
        LeftName::Variable(var) => line.add(&[var_word(var)]),
        LeftName::Argument(number) => line.add(&[
            DollarArg,
            Seen::Sign(Sign::OpenBracket),
            Number(*number),
            Seen::Sign(Sign::CloseBracket),
        ]),
    }
}

/// Adds a condition.
fn add_condition<'a>(line: &mut Line<'a>, condition: &'a Condition) -> Result<(), NoMemory>
    ensures { OnOk result (line.new ≡ line.old ++ condition_words condition.now) }
{
    line.add(&[Name(b"if"), Seen::Sign(Sign::OpenParen)])?;
    add_left(line, &condition.left)?;
    line.add(&[
        Seen::Sign(cmp_sign(condition.cmp)),
        right_word(condition.right),
        Seen::Sign(Sign::CloseParen),
    ])
}

/// Adds conditions.
fn add_conditions<'a>(line: &mut Line<'a>, conditions: &'a [Condition]) -> Result<(), NoMemory>
    ensures { OnOk result (line.new ≡ line.old ++ flat_map condition_words conditions.now) }
{
    for condition in conditions {
        add_condition(line, condition)?;
    }
    Ok(())
}

/// Adds the start or the stop of a timer.
fn add_timed<'a>(line: &mut Line<'a>, text: &'static [u8], var: &'a VarName) -> Result<(), NoMemory>
    ensures { OnOk result (line.new
        ≡ line.old ++ (NameWord text.now ∷ SignWord OpenParen ∷ var_word var.now ∷ SignWord CloseParen
        ∷ SignWord Semicolon ∷ [])) }
{
    line.add(&[
        Name(text),
        Seen::Sign(Sign::OpenParen),
        var_word(var),
        Seen::Sign(Sign::CloseParen),
        Seen::Sign(Sign::Semicolon),
    ])
}

/// Adds what a statement does.
fn add_action<'a>(line: &mut Line<'a>, action: &'a Action) -> Result<(), NoMemory>
    ensures { OnOk result (line.new ≡ line.old ++ action_words action.now) }
{
    match action {
        Action::Up(var) => line.add(&[
            var_word(var),
            Seen::Sign(Sign::PlusPlus),
            Seen::Sign(Sign::Semicolon),
        ]),
        Action::Down(var) => line.add(&[
            var_word(var),
            Seen::Sign(Sign::MinusMinus),
            Seen::Sign(Sign::Semicolon),
        ]),
        Action::Put(var, number) => line.add(&[
            var_word(var),
            Seen::Sign(Sign::Assign),
            Number(*number),
            Seen::Sign(Sign::Semicolon),
        ]),
        Action::Start(var) => add_timed(line, b"start", var),
        Action::Stop(var) => add_timed(line, b"stop", var),
    }
}

/// Adds a statement.
fn add_statement<'a>(line: &mut Line<'a>, statement: &'a Statement) -> Result<(), NoMemory>
    ensures { OnOk result (line.new ≡ line.old ++ statement_words statement.now) }
{
    add_conditions(line, statement.conds.as_slice())?;
    add_action(line, &statement.act)
}

/// Adds statements.
pub(crate) fn add_statements<'a>(
    line: &mut Line<'a>,
    statements: &'a [Statement],
) -> Result<(), NoMemory>
    ensures { OnOk result (line.new ≡ line.old ++ flat_map statement_words statements.now) }
{
    for statement in statements {
        add_statement(line, statement)?;
    }
    Ok(())
}
