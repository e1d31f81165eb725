//! What statements use.

ghost use Rattle.std.specs.Prelude.{◌≡◌, Some};
ghost use Rattle.std.specs.List.{list_any};
ghost use Rattle.std.specs.Option.{option_map};
ghost use Rattle.mdl_check.specs.Statements.{is_own, variable_of, is_timing, action_has, left_has, right_has, condition_has, statement_has, have};

use crate::names::is_named;
use mdl_ast::{Action, Block, Condition, Insertion, LeftName, RightSide, Statement, VarName};

/// The greatest number of an argument that a statement can use.
const LAST_ARGUMENT: u32 = 7;

/// A use of which statements are asked.
#[derive(Clone, Copy, Drop)]
pub(crate) enum Use {
    /// Of a variable that isn't the item's own.
    OtherName,
    /// Of the own variable as a counter.
    AsCounter,
    /// Of the own variable as a timer.
    AsTimer,
    /// Of the object's value.
    ObjectValue,
    /// Of an argument that there isn't.
    HighArgument,
}

/// Whether the variable is the item's own: the one of its name, or `$metric` where it has none.
fn is_own(own: Option<&[u8]>, variable: &VarName) -> bool
    ensures { result ≡ is_own (option_map (λ own. own.now) own.entry) variable.now }
{
    match variable {
        VarName::TheMetric => own.is_none(),
        VarName::Named(name) => is_named(name.bytes(), own),
    }
}

/// The variable of an action.
fn variable_of(action: &Action) -> &VarName
    ensures { result.now ≡ variable_of action.now }
{
    match action {
        Action::Up(variable) => variable,
        Action::Down(variable) => variable,
        Action::Put(variable, _) => variable,
        Action::Start(variable) => variable,
        Action::Stop(variable) => variable,
    }
}

/// Whether the action is one of a timer.
fn is_timing(action: &Action) -> bool
    ensures { result ≡ is_timing action.now }
{
    match action {
        Action::Start(_) | Action::Stop(_) => true,
        Action::Up(_) | Action::Down(_) | Action::Put(_, _) => false,
    }
}

fn action_has(asked: Use, own: Option<&[u8]>, action: &Action) -> bool
    ensures { result ≡ action_has asked (option_map (λ own. own.now) own.entry) action.now }
{
    match asked {
        Use::OtherName => !is_own(own, variable_of(action)),
        Use::AsCounter => !is_timing(action) && is_own(own, variable_of(action)),
        Use::AsTimer => is_timing(action) && is_own(own, variable_of(action)),
        Use::ObjectValue => false,
        Use::HighArgument => false,
    }
}

fn left_has(asked: Use, own: Option<&[u8]>, left: &LeftName) -> bool
    ensures { result ≡ left_has asked (option_map (λ own. own.now) own.entry) left.now }
{
    match (asked, left) {
        (Use::OtherName, LeftName::Variable(variable)) => !is_own(own, variable),
        (Use::AsCounter, LeftName::Variable(variable)) => is_own(own, variable),
        (Use::HighArgument, LeftName::Argument(number)) => LAST_ARGUMENT < *number,
        _ => false,
    }
}

fn right_has(asked: Use, right: RightSide) -> bool
    ensures { result ≡ right_has asked right }
{
    match (asked, right) {
        (Use::ObjectValue, RightSide::Value) => true,
        _ => false,
    }
}

fn condition_has(asked: Use, own: Option<&[u8]>, condition: &Condition) -> bool
    ensures { result ≡ condition_has asked (option_map (λ own. own.now) own.entry) condition.now }
{
    left_has(asked, own, &condition.left) || right_has(asked, condition.right)
}

fn one_condition_has(asked: Use, own: Option<&[u8]>, conditions: &[Condition]) -> bool
    ensures { result ≡ list_any (condition_has asked (option_map (λ own. own.now) own.entry)) conditions.now }
{
    conditions
        .iter()
        .any(|condition| condition_has(asked, own, condition))
}

fn statement_has(asked: Use, own: Option<&[u8]>, statement: &Statement) -> bool
    ensures { result ≡ statement_has asked (option_map (λ own. own.now) own.entry) statement.now }
{
    action_has(asked, own, &statement.act)
        || one_condition_has(asked, own, statement.conds.as_slice())
}

fn one_statement_has(asked: Use, own: Option<&[u8]>, statements: &[Statement]) -> bool
    ensures { result ≡ list_any (statement_has asked (option_map (λ own. own.now) own.entry)) statements.now }
{
    statements
        .iter()
        .any(|statement| statement_has(asked, own, statement))
}

fn one_insertion_has(asked: Use, own: Option<&[u8]>, insertions: &[Insertion]) -> bool
    ensures { result ≡ list_any (λ i. list_any (statement_has asked (option_map (λ own. own.now) own.entry)) i.stmts) insertions.now }
{
    insertions.iter().any(|insertion| one_statement_has(asked, own, insertion.stmts.as_slice()))
}

/// Whether one of the statements of the blocks has such a use, where the item has this variable of its own, or
/// `$metric`.
pub(crate) fn have(asked: Use, own: Option<&[u8]>, blocks: &[Block]) -> bool
    ensures { result ≡ have asked (option_map (λ own. own.now) own.entry) blocks.now }
{
    blocks.iter().any(|block| one_insertion_has(asked, own, block.insertions.as_slice()))
}
