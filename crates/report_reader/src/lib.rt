//! Reading a report: the inverse of writing it.
#![tactic(auto)]

mod bin_lines;
mod draft;
mod due;
mod ending;
mod laws;
mod reading;
mod run_lines;
mod search_lines;
mod shown_lines;
mod taking;
mod whole_report;
mod written;

pub use laws::{report_is_read, report_is_spelled};
pub use reading::read_report;
pub use whole_report::Report;
