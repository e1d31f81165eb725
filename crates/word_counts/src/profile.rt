//! How often the words of a program were executed.

use block_count::Counts;
use pn_types::Seq;

/// How often each word of a program's text was executed on a run.
#[derive(Drop)]
pub struct Profile {
    /// The counts of its blocks, with the ticks of each hart and how it ended.
    pub counts: Counts,
    /// A number for each word of the text, in order: how often the word was executed, or less.
    pub numbers: Seq<u64>,
    /// How many ticks the numbers don't tell. Where that is 0, each number is how often its word was executed.
    pub untold: u64,
}
