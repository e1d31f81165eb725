//! How often a run executes each word of a program's text, from how often it executes some of them and how its harts ended.
#![tactic(auto)]

mod hart_end;
mod laws;
mod numbers;
mod ranges;
mod untold;

pub use hart_end::HartEnd;
pub use laws::{known_words_tell_all, numbers_bound_executions, ticks_keep_to_budgets};
pub use numbers::word_numbers;
pub use ranges::ticks_in;
pub use untold::untold_ticks;
