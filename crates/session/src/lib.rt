//! The run of a program with instruments: quantum by quantum, instruments go in and out, and samples fold into histograms.
#![tactic(auto)]

mod admitting;
mod candidate;
mod considering;
mod failure;
mod fault;
mod inputs;
mod instrumenting;
mod known_costs;
mod later;
mod laws;
mod node_candidates;
mod node_parts;
mod opening;
mod parts;
mod planning;
mod preparing;
mod room;
mod session;
mod starting;
mod stored;
mod taking;
mod tending;

pub use fault::StartFault;
pub use inputs::Inputs;
pub use laws::parts_told;
pub use session::Session;
