//! Blocks and their insertions.

use crate::action::Statement;
use pn_types::{Seq, Text};

/// The procedures that a block speaks of.
#[derive(Drop)]
pub enum Set {
    /// Those of the focus: `$focus`.
    Focus,
    /// All: `$all`.
    All,
    /// Those with these names, at least one: `[read, write]`.
    Names(Seq<Text>),
}

/// The points of a procedure at which something is inserted.
#[derive(Clone, Copy, PartialEq, Eq, Drop)]
pub enum EventKind {
    /// Its entry.
    Entry,
    /// After its calls.
    After,
    /// Its returns.
    Return,
    /// Its calls.
    Call,
}

/// What is inserted at the points of one kind.
#[derive(Drop)]
pub struct Insertion {
    /// Its line.
    pub line: u32,
    /// It goes before what is there (`prepend`), and not after it (`append`).
    pub prepend: bool,
    /// The kind of the points.
    pub kind: EventKind,
    /// It is done only where the constraints of the metric hold.
    pub constrained: bool,
    /// What is done, in order.
    pub stmts: Seq<Statement>,
}

/// What is inserted in each procedure of a set: `foreach func in set { .. }`.
#[derive(Drop)]
pub struct Block {
    /// Its line.
    pub line: u32,
    /// The procedures.
    pub set: Set,
    /// What is inserted there, in order.
    pub insertions: Seq<Insertion>,
}
