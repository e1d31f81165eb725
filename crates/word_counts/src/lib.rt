//! How often a program's own run executes each word of its text, which follows from the counts of its basic blocks.
#![tactic(auto)]

mod ends;
mod placing;
mod profile;
mod profiling;

pub use profile::Profile;
pub use profiling::profile_words;
