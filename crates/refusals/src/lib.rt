//! Why the top call has no text to give: the faults with their lines and statuses, and steps that may be refused.
#![tactic(auto)]

mod configuration;
mod fault;
mod lines;
mod log;
mod program;
mod refusal;

pub use configuration::{ConfFault, ConfKind, check_kind, directive_kind, syntax_kind};
pub use fault::Fault;
pub use lines::faults_text;
pub use log::LogCause;
pub use program::ProgramFault;
pub use refusal::{Refusal, bad_log};
