//! What the report of an earlier search advises for a next one.
#![tactic(auto)]

mod directive_lines;
mod due;
mod fault;
mod hypothesis;
mod laws;
mod pieces;
mod reading;
mod verdict;
mod words;

pub use directive_lines::advise;
pub use due::{to_lf, to_lf_at};
pub use fault::{ReportError, ReportFault};
pub use hypothesis::MAX_THRESHOLD;
pub use laws::{
    advice_is_read, answers_stay, canonical_is_focus, report_is_advised, report_is_read,
};
pub use reading::read_verdicts;
pub use verdict::Verdict;
pub use words::{decimal_number, number_at, word_at};
