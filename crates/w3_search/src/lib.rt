//! The search: what it tests, how it goes on from what it found, which tests wait, which are under way, and what each showed.
#![tactic(auto)]

mod axis_set;
mod children;
mod hypotheses;
mod limits;
mod node;
mod nodes;
mod numbers;
mod place;
mod search;
mod state;
mod steps;
mod testing;

pub use children::child_node;
pub use hypotheses::Hypotheses;
pub use limits::MAX_NODES;
pub use node::{Node, NodeSample, NodeState};
pub use search::Search;
pub use testing::holds;
