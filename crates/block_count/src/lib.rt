//! The basic blocks of a program, how often a run executes each, which counters at their first words tell, and the text of that.
#![tactic(auto)]

mod block_head;
mod counted_block;
mod counter;
mod counting;
mod counts;
mod finding;
mod lines;
mod marking;
mod placing;
mod reading;
mod text;
mod turns;

pub use block_head::BlockHead;
pub use counting::count;
pub use counts::{CountFault, Counts, HartStop};
pub use finding::heads;
pub use lines::blocks_text;
pub use text::text_words;
