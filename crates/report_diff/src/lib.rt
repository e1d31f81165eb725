//! What differs between two reports.
#![tactic(auto)]

mod diff;
mod histograms;
mod labels;
mod laws;
mod matches;
mod nodes;
mod numbers;
mod outputs;
mod pieces;
mod runs;
mod wishes;

pub use diff::diff_text;
pub use laws::{diff_of_same, nothing_differs};
