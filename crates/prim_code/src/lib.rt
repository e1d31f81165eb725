//! The tool's code of statements: the words that count and time in a hart's bank, and what they do to the values that its
//! slots stand for.
#![tactic(auto)]

mod acts;
mod compiling;
mod conditions;
mod counting;
mod laws;
mod words;

pub use compiling::compile;
pub use counting::{predicted, words_of};
pub use laws::{standing_kept, statement_rows, statements_compile, statements_work};
