//! The memory of a program: the segments of its image, a heap and a stack for each hart. No access may touch the text.
#![tactic(auto)]

mod mapped;
mod mem;
mod region;
mod start;
mod window;

pub use mem::Mem;
pub use start::{FIRST_STACK_AT, HEAP_AT, HEAP_LEN, STACK_DISTANCE, STACK_LEN};
