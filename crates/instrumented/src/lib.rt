//! A patched machine with instruments in it.
#![tactic(auto)]

mod admitting;
mod arming;
mod handing;
mod instrumented_machine;
mod laws;
mod turning;

pub use instrumented_machine::InstrumentedMachine;
pub use laws::reads_measure;
