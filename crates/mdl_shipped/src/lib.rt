//! The shipped configuration.
#![tactic(auto)]

mod lines;
mod shipping;
mod text;

pub use shipping::shipped;
