//! The configuration language.
#![tactic(auto)]

mod blocks;
mod change;
mod fault;
mod gaps;
mod items;
mod leaves;
mod lexing;
mod line;
mod metrics;
mod parsing;
mod print_blocks;
mod print_items;
mod print_metrics;
mod print_statements;
mod printing;
mod refusal;
mod seen;
mod statements;
mod views;
mod words;

pub use fault::{ParseError, ParseFault, SyntaxKind};
pub use parsing::{one_meaning, parse};
pub use printing::{print, printed_again};
