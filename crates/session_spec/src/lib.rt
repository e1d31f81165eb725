//! What a session is: the run of a program with instruments, quantum by quantum. Definitions and laws.
#![tactic(auto)]

mod data;
mod laws;

pub use data::{LatestSample, MetricFocusPair, RefusedWish};
pub use laws::{
    bars_told, bins_told, costs_stay, feed_told, opens_at_zero, printed_told, runs_told,
    samples_read, verdicts_told,
};
