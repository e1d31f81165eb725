//! Trampolines: what their words and blocks are, and what one marked word does.
//!
//! A patched point jumps to its base block. That saves x5, goes through the mini blocks of the instruments, each of which
//! counts or times in the hart's bank, restores x5, and executes the program's word, moved.
#![tactic(auto)]

mod block;
mod jump;
mod laws;
mod mark;
mod moved;
mod numbers;

pub use block::Block;
pub use jump::{jump_word, reaches};
pub use laws::{bodies_go_on, code_rows, moved_rows, words_move};
pub use mark::{Mark, MarkedWord};
pub use moved::Moved;
pub use numbers::{is_signed_word, lower, put_number, rounded, upper};
