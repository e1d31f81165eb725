//! A stress run: its program, of many procedures that are drawn from a seed, its configuration, and the line that sums it up.
#![tactic(auto)]

mod configuration;
mod draws;
mod program;
mod summary;

pub use configuration::configuration_text;
pub use program::program_text;
pub use summary::summary_text;
