//! Statements.

use pn_types::{Cmp, Seq, Text};

/// A variable.
#[derive(Drop)]
pub enum VarName {
    /// One with this name.
    Named(Text),
    /// The metric's own: `$metric`.
    TheMetric,
}

/// The left side of a condition.
#[derive(Drop)]
pub enum LeftName {
    /// A variable.
    Variable(VarName),
    /// An argument of the procedure, by its number: `$arg[0]`.
    Argument(u32),
}

/// The right side of a condition.
#[derive(Clone, Copy, Drop)]
pub enum RightSide {
    /// A number.
    Number(u32),
    /// The object's value: `$value`.
    Value,
}

/// A condition of a statement: `if (left cmp right)`.
#[derive(Drop)]
pub struct Condition {
    /// What is compared.
    pub left: LeftName,
    /// How.
    pub cmp: Cmp,
    /// With what.
    pub right: RightSide,
}

/// What a statement does.
#[derive(Drop)]
pub enum Action {
    /// One more: `v++;`
    Up(VarName),
    /// One less: `v--;`
    Down(VarName),
    /// A number is put: `v = 1;`
    Put(VarName, u32),
    /// A timer starts: `start(v);`
    Start(VarName),
    /// A timer stops: `stop(v);`
    Stop(VarName),
}

/// A statement.
#[derive(Drop)]
pub struct Statement {
    /// Its line.
    pub line: u32,
    /// Its conditions, the outermost first.
    pub conds: Seq<Condition>,
    /// What it does where they all hold.
    pub act: Action,
}
