//! The pairs of metric and focus that a session shows or tests, or did, each with its instrument and its samples: how they are
//! sampled and armed, how tests are dropped, and how the agenda is done.
#![tactic(auto)]

mod agenda;
mod arming;
mod dropping;
mod marking;
mod pair;
mod pairs;
mod sampling;

pub use agenda::{hand_out, sweep};
pub use arming::arm_pairs;
pub use dropping::drop_tests;
pub use marking::mark_ticks;
pub use pair::SampledPair;
pub use pairs::SampledPairs;
pub use sampling::sample_pairs;
