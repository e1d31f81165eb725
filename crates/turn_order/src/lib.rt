//! The order in which harts take their quanta: which of those that may go is next.
#![tactic(auto)]

mod order;
mod ready;

pub use order::{Order, generated};
pub use ready::Ready;
