//! A report as a value of JSON, for programs.
#![tactic(auto)]

mod fields;
mod members;
mod run;
mod search;
mod shown;
mod whole;

pub use fields::{bar_cause, of_verdict, parent_of, seen_by, state_word, stop_code};
pub use whole::report_json;
