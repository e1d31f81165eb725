//! Wishes: a configuration that asks for metrics at foci, and the foci of procedures and modules.
#![tactic(auto)]

mod distinct;
mod foci;
mod wishes;

pub use foci::{module_foci, procedure_foci, procedure_node};
pub use wishes::{AskedInterval, ask_text};
