//! What is read of a profile.

use pn_types::{Proc, Seq, Text};
use report::HartPart;

/// A procedure of a profile.
#[derive(Drop)]
pub struct ReadProcedure {
    /// The procedure, with its length in bytes.
    pub proc: Proc,
    /// How often its first word was executed, or less.
    pub entered: u64,
    /// How often all its words were executed, or less.
    pub ticks: u64,
}

/// A profile that was read.
#[derive(Drop)]
pub struct ReadProfile {
    /// The ticks of all harts together.
    pub ticks: u64,
    /// How many of them no number tells.
    pub untold: u64,
    /// How many of them were outside of the text.
    pub outside: u64,
    /// The harts, by number.
    pub harts: Seq<HartPart>,
    /// The procedures, in their order.
    pub procedures: Seq<ReadProcedure>,
    /// How many words no procedure has.
    pub rest_words: u64,
    /// Their ticks.
    pub rest_ticks: u64,
    /// The lines of calls, loops and words as they are, each with its LF.
    pub others: Text,
}
