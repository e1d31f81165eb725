//! Which procedures are open where an instrument is armed: the walk of a hart's frames, and what the statements at the entries
//! of the procedures that it meets make of the instrument's variables.
#![tactic(auto)]

mod acting;
mod changes;
mod entering;
mod frame;
mod laws;
mod opening;
mod values;
mod walk_start;

pub use frame::Frame;
pub use laws::{arguments_wait, cold_begins, opens_low, same_starts, walks_end};
pub use opening::open_values;
pub use values::Values;
pub use walk_start::WalkStart;
