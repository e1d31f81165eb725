//! The words that harts fetch: a program's text and the tool text after it, each word decoded, and the points of the
//! blocks that stand in the tool text.
#![tactic(auto)]

mod building;
mod filling;
mod operation;
mod slot;
mod span;
mod store;
mod word_use;

pub use operation::Operation;
pub use slot::Slot;
pub use store::Store;
