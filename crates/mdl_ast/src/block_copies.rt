//! Copies of the parts of metrics and constraints.

ghost use Rattle.std.specs.Prelude.{◌≡◌, IfOk};

use crate::action::{Action, Condition, LeftName, Statement, VarName};
use crate::block::{Block, Insertion, Set};
use pn_types::{NoMemory, Seq, copy_texts};
use std::alloc::Global;

fn variable(alloc: Global, variable: &VarName) -> Result<VarName, NoMemory>
    ensures { IfOk result (λ copy. copy ≡ variable.now) }
{
    match variable {
        VarName::Named(name) => Ok(VarName::Named(name.copy(alloc)?)),
        VarName::TheMetric => Ok(VarName::TheMetric),
    }
}

fn left(alloc: Global, left: &LeftName) -> Result<LeftName, NoMemory>
    ensures { IfOk result (λ copy. copy ≡ left.now) }
{
    match left {
        LeftName::Variable(name) => Ok(LeftName::Variable(variable(alloc, name)?)),
        LeftName::Argument(number) => Ok(LeftName::Argument(*number)),
    }
}

fn condition(alloc: Global, condition: &Condition) -> Result<Condition, NoMemory>
    ensures { IfOk result (λ copy. copy ≡ condition.now) }
{
    Ok(Condition {
        left: left(alloc, &condition.left)?,
        cmp: condition.cmp,
        right: condition.right,
    })
}

fn conditions(alloc: Global, conditions: &Seq<Condition>) -> Result<Seq<Condition>, NoMemory>
    ensures { IfOk result (λ copy. copy ≡ conditions.now) }
{
    let mut copies = Vec::new(alloc);
    for one in conditions.as_slice() {
        copies.push(condition(alloc, one)?)?;
    }
    Ok(Seq::from_vec(copies))
}

fn action(alloc: Global, action: &Action) -> Result<Action, NoMemory>
    ensures { IfOk result (λ copy. copy ≡ action.now) }
{
    match action {
        Action::Up(name) => Ok(Action::Up(variable(alloc, name)?)),
        Action::Down(name) => Ok(Action::Down(variable(alloc, name)?)),
        Action::Put(name, number) => Ok(Action::Put(variable(alloc, name)?, *number)),
        Action::Start(name) => Ok(Action::Start(variable(alloc, name)?)),
        Action::Stop(name) => Ok(Action::Stop(variable(alloc, name)?)),
    }
}

fn statement(alloc: Global, statement: &Statement) -> Result<Statement, NoMemory>
    ensures { IfOk result (λ copy. copy ≡ statement.now) }
{
    Ok(Statement {
        line: statement.line,
        conds: conditions(alloc, &statement.conds)?,
        act: action(alloc, &statement.act)?,
    })
}

fn statements(alloc: Global, statements: &Seq<Statement>) -> Result<Seq<Statement>, NoMemory>
    ensures { IfOk result (λ copy. copy ≡ statements.now) }
{
    let mut copies = Vec::new(alloc);
    for one in statements.as_slice() {
        copies.push(statement(alloc, one)?)?;
    }
    Ok(Seq::from_vec(copies))
}

fn insertion(alloc: Global, insertion: &Insertion) -> Result<Insertion, NoMemory>
    ensures { IfOk result (λ copy. copy ≡ insertion.now) }
{
    Ok(Insertion {
        line: insertion.line,
        prepend: insertion.prepend,
        kind: insertion.kind,
        constrained: insertion.constrained,
        stmts: statements(alloc, &insertion.stmts)?,
    })
}

fn insertions(alloc: Global, insertions: &Seq<Insertion>) -> Result<Seq<Insertion>, NoMemory>
    ensures { IfOk result (λ copy. copy ≡ insertions.now) }
{
    let mut copies = Vec::new(alloc);
    for one in insertions.as_slice() {
        copies.push(insertion(alloc, one)?)?;
    }
    Ok(Seq::from_vec(copies))
}

fn set(alloc: Global, set: &Set) -> Result<Set, NoMemory>
    ensures { IfOk result (λ copy. copy ≡ set.now) }
{
    match set {
        Set::Focus => Ok(Set::Focus),
        Set::All => Ok(Set::All),
        Set::Names(names) => Ok(Set::Names(copy_texts(alloc, names)?)),
    }
}

fn block(alloc: Global, block: &Block) -> Result<Block, NoMemory>
    ensures { IfOk result (λ copy. copy ≡ block.now) }
{
    Ok(Block {
        line: block.line,
        set: set(alloc, &block.set)?,
        insertions: insertions(alloc, &block.insertions)?,
    })
}

/// A copy of blocks.
pub(crate) fn blocks(alloc: Global, blocks: &Seq<Block>) -> Result<Seq<Block>, NoMemory>
    ensures { IfOk result (λ copy. copy ≡ blocks.now) }
{
    let mut copies = Vec::new(alloc);
    for one in blocks.as_slice() {
        copies.push(block(alloc, one)?)?;
    }
    Ok(Seq::from_vec(copies))
}
