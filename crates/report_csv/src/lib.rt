//! A report as a table of csv, for programs.
#![tactic(auto)]

mod cells;
mod laws;
mod run;
mod search;
mod shown;
mod whole;

pub use laws::rows_are_read;
pub use whole::report_csv;
