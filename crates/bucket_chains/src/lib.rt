//! Entries in buckets: from each entry of a list the next one of its bucket is found by a look.
#![tactic(auto)]

mod chains;

pub use chains::{BUCKETS, Chains};
