//! What `pd` does with words that the top call serves: the text goes to standard output, and a fault to standard error.
#![tactic(auto)]

mod guarding;
mod kinds;
mod serving;

pub use guarding::may_write;
pub use kinds::{Kind, kinds_are_told, log_kind, written_kind};
pub use serving::{Screen, Shown, serve_words, status_meaning};
