//! Standard input under a name, as a file.
#![tactic(auto)]

mod with_input;

pub use with_input::{STANDARD_INPUT, WithInput};
