//! Logs of the quanta of a run, with which it can be run again.
#![tactic(auto)]

mod entries;
mod fault;
mod laws;
mod numbers;
mod reading;
mod version;
mod writing;

pub use fault::{LogError, LogFault};
pub use laws::{bytes_are_spelled, spelled_is_read};
pub use reading::read;
pub use version::Version;
pub use writing::write;
