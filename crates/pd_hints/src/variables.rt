//! Variables of statements that aren't their item's own.

use crate::texts::{add, name_text};
use mdl_ast::{Action, Block, Condition, Insertion, LeftName, Statement, VarName};
use pn_types::NoMemory;

/// Returns the name of a variable, as it is written.
fn spelling(variable: &VarName) -> &[u8] {
    match variable {
        VarName::Named(name) => name.bytes(),
        VarName::TheMetric => b"$metric",
    }
}

/// Returns the variable on which a statement acts.
fn target(statement: &Statement) -> &[u8] {
    match &statement.act {
        Action::Up(variable)
        | Action::Down(variable)
        | Action::Put(variable, _)
        | Action::Start(variable)
        | Action::Stop(variable) => spelling(variable),
    }
}

/// Returns the variable that a condition compares, if it isn't an argument.
fn compared_variable(condition: &Condition) -> Option<&[u8]> {
    match &condition.left {
        LeftName::Variable(variable) => Some(spelling(variable)),
        LeftName::Argument(_) => None,
    }
}

/// Returns the first variable of a statement that isn't this one.
fn other_in_statement<'a>(own: &[u8], statement: &'a Statement) -> Option<&'a [u8]> {
    let act = target(statement);
    if act != own {
        return Some(act);
    }
    statement
        .conds
        .as_slice()
        .iter()
        .filter_map(compared_variable)
        .find(|name| *name != own)
}

/// Returns the first variable of an insertion that isn't this one.
fn other_in_insertion<'a>(own: &[u8], insertion: &'a Insertion) -> Option<&'a [u8]> {
    insertion
        .stmts
        .as_slice()
        .iter()
        .find_map(|statement| other_in_statement(own, statement))
}

/// Returns the first variable of a block that isn't this one.
fn other_in_block<'a>(own: &[u8], block: &'a Block) -> Option<&'a [u8]> {
    block
        .insertions
        .as_slice()
        .iter()
        .find_map(|insertion| other_in_insertion(own, insertion))
}

/// Adds a line on the first variable of an item's blocks that isn't its own: the one of its name, or `$metric` where it has none.
pub(crate) fn add_variable(
    text: &mut String,
    own: Option<&[u8]>,
    blocks: &[Block],
) -> Result<(), NoMemory> {
    let own = own.unwrap_or(b"$metric");
    match blocks.iter().find_map(|block| other_in_block(own, block)) {
        Some(other) => add(
            text,
            "The variable of these statements is {}, and not {}.\n",
            &[name_text(own), name_text(other)],
        ),
        None => Ok(()),
    }
}
