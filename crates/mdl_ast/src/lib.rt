//! What a configuration says: its syntax tree.
//!
//! The `line` of a part is the line of its first token, from 1. Lists stand in the order of the text.
#![tactic(auto)]

mod action;
mod block;
mod block_copies;
mod copies;
mod items;
mod metric;

pub use action::{Action, Condition, LeftName, RightSide, Statement, VarName};
pub use block::{Block, EventKind, Insertion, Set};
pub use items::{Conf, Hypothesis, Include, Item, PhaseDecl, SearchDecl, SyncDecl, Wish};
pub use metric::{Constraint, Metric};
