//! The blocks of trampolines, built word by word.
#![tactic(auto)]

mod building;

pub use building::{base_block, mini_block, set_next};
