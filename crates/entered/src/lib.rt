//! Whether a run along quanta enters a procedure: whether it executes the procedure's first word.
#![tactic(auto)]

mod entering;

pub use entering::is_entered;
