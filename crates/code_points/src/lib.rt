//! The procedures and the objects of a program, and its instrumentation points.
#![tactic(auto)]

mod data_objects;
mod kinds;
mod procs;
mod symbols;
mod text;

pub use data_objects::objects;
pub use kinds::points;
pub use procs::procedures;
