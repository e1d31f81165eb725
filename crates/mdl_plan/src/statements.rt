//! The statements of a plan.

ghost use Rattle.std.specs.Prelude.{◌≡◌, ◌≤◌, ◌<◌, ◌+◌, ◌++◌, [], if◌then◌else◌, ◌%◌, ◌^◌, IfOk, OnOk, length, map, unwrap_or};
ghost use Rattle.mdl_plan.specs.Statements.{act_of, cond_of, guard, guards, left_of, right_of, stmt_of, stmts_of};

use crate::pieces::Piece;
use mdl_ast::{Action, Condition, Constraint, LeftName, RightSide, Statement};
use pn_types::{Act, Cmp, Cond, Left, NoMemory, Seq, Stmt};
use std::alloc::Global;
use std::marker::Model;

/// What the statements of a plan have in common.
#[derive(Drop)]
pub(crate) struct Terms {
    /// The conditions of what is constrained, the outermost first.
    guards: Vec<Cond>,
    /// The address of the object.
    value: u32,
}

impl Model for Terms {
    ghost use Rattle.mdl_plan.specs.Statements.{Terms};

    ghost Value = { Terms };

    ghost view = { λ t. record { guards = t.guards.items; value = t.value } };
}

/// A counter isn't 0.
fn guard(variable: u32) -> Cond
    ensures { result ≡ guard variable }
{
    Cond {
        left: Left::Counter(variable),
        cmp: Cmp::Ne,
        right: 0,
    }
}

/// None of the counters is 0.
fn guards(alloc: Global, counters: &[&Constraint]) -> Result<Vec<Cond>, NoMemory>
    requires { length counters.now ≤ 2 }
    ensures { IfOk result (λ conds. conds.items ≡ guards 1 (map (λ c. c.now) counters.now)) }
{
    let mut conds = Vec::new(alloc);
    let mut variable = 1;
    for _counter in counters {
        conds.push(guard(variable))?;
        variable += 1;
    }
    Ok(conds)
}

/// The variable of a statement is that of its insertion.
fn left_of(variable: u32, left: &LeftName) -> Left
    ensures { result ≡ left_of variable left.now }
{
    match left {
        LeftName::Variable(_) => Left::Counter(variable),
        LeftName::Argument(number) => Left::Argument((*number % 256) as u8),
    }
}

fn right_of(value: u32, right: RightSide) -> u32
    ensures { result ≡ right_of value right }
{
    match right {
        RightSide::Number(number) => number,
        RightSide::Value => value,
    }
}

fn cond_of(variable: u32, value: u32, condition: &Condition) -> Cond
    ensures { result ≡ cond_of variable value condition.now }
{
    Cond {
        left: left_of(variable, &condition.left),
        cmp: condition.cmp,
        right: right_of(value, condition.right),
    }
}

fn act_of(variable: u32, action: &Action) -> Act
    ensures { result ≡ act_of variable action.now }
{
    match action {
        Action::Up(_) => Act::Up(variable),
        Action::Down(_) => Act::Down(variable),
        Action::Put(_, number) => Act::Put(variable, *number),
        Action::Start(_) => Act::Start(variable),
        Action::Stop(_) => Act::Stop(variable),
    }
}

/// Adds the conditions of a statement.
fn add_conds(
    conds: &mut Vec<Cond>,
    variable: u32,
    value: u32,
    conditions: &[Condition],
) -> Result<(), NoMemory>
    ensures { OnOk result (conds.new.items ≡ conds.old.items ++ map (cond_of variable value) conditions.now) }
{
    for condition in conditions {
        conds.push(cond_of(variable, value, condition))?;
    }
    Ok(())
}

impl Terms {
    /// What the statements have in common, where these are the active counters and this is the address of the object.
    pub(crate) fn new(
        alloc: Global,
        counters: &[&Constraint],
        object: Option<u64>,
    ) -> Result<Terms, NoMemory>
        requires { length counters.now ≤ 2 }
        ensures { IfOk result (λ terms. terms
            ≡ record { guards = guards 1 (map (λ c. c.now) counters.now); value = unwrap_or object 0 % 2 ^ 32 }) }
    {
        let guards = guards(alloc, counters)?;
        let value = (object.unwrap_or(0) % 0x1_0000_0000) as u32;
        Ok(Terms { guards, value })
    }

    /// The conditions that stand before those of an insertion's statements.
    fn first_conds(&self, alloc: Global, constrained: bool) -> Result<Vec<Cond>, NoMemory>
        ensures { IfOk result (λ conds. conds.items ≡ (if constrained then self.now.guards else [])) }
    {
        if constrained {
            Ok(Vec::from_slice(alloc, &self.guards)?)
        } else {
            Ok(Vec::new(alloc))
        }
    }

    /// A statement of an insertion: what is constrained stands under the guards.
    fn stmt(
        &self,
        alloc: Global,
        piece: &Piece<'_>,
        statement: &Statement,
    ) -> Result<Stmt, NoMemory>
        ensures { IfOk result (λ stmt. stmt ≡ stmt_of self.now piece.now statement.now) }
    {
        let variable = piece.variable();
        let mut conds = self.first_conds(alloc, piece.insertion().constrained)?;
        add_conds(&mut conds, variable, self.value, statement.conds.as_slice())?;
        Ok(Stmt {
            conds: Seq::from_vec(conds),
            act: act_of(variable, &statement.act),
        })
    }

    /// Adds the statements of an insertion.
    pub(crate) fn add_stmts(
        &self,
        alloc: Global,
        stmts: &mut Vec<Stmt>,
        piece: &Piece<'_>,
    ) -> Result<(), NoMemory>
        ensures { OnOk result (stmts.new.items ≡ stmts.old.items ++ stmts_of self.now piece.now) }
    {
        for statement in piece.insertion().stmts.as_slice() {
            let stmt = self.stmt(alloc, piece, statement)?;
            stmts.push(stmt)?;
        }
        Ok(())
    }
}
