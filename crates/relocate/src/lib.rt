//! Words of a program moved into the tool text, where they do what they do at their own place.
#![tactic(auto)]

mod moving;

pub use moving::{Unmovable, move_word, moved_len};
