//! Runs of programs from their opening to their end, with what is reported and logged of them.
#![tactic(auto)]

mod laws;
mod misfit;
mod order;
mod progress;
mod recorded;
mod replay;
mod summed;

pub use laws::{one_seeded, some_seeded, whole_quanta_fit};
pub use misfit::{Misfit, ReplayFault};
pub use order::{Rounds, take_quanta};
pub use progress::Progress;
pub use recorded::{Course, Recorded, record_end, record_run};
pub use replay::replay_run;
pub use summed::run_parts;
