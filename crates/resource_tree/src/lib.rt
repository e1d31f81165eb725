//! The tree of a program's resources, and the foci that select in it.
#![tactic(auto)]

mod children;
mod code;
mod fault;
mod focus;
mod form;
mod harts;
mod hierarchy;
mod objects;
mod text;
mod tree;

pub use fault::FocusFault;
pub use focus::one_reading;
pub use tree::Tree;
