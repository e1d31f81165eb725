//! Plans: what measures a metric at a focus.
#![tactic(auto)]

mod active;
mod chosen_pieces;
mod fault;
mod index;
mod lists;
mod pieces;
mod planner;
mod planning;
mod scope;
mod start;
mod statements;
mod variables;

pub use fault::{PlanError, PlanFault};
pub use index::PlanIndex;
pub use planning::plan;
pub use start::start_plan;
