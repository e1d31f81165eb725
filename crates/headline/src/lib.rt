//! The top call: all that the program does, over files and sinks that are handed in, and what it tells where it ends with status 0.
#![tactic(auto)]

mod answering;
mod delivery;
mod laws;
mod program;
mod replying;
mod top;

pub use command_words::log_name;
pub use commands::{Found, Inputs, Texts, find, read_inputs};
pub use delivery::deliver;
pub use laws::{one_owed, owed_is_honest, session_is_readable, told_once, warm_is_whole};
pub use program::{Words, run_program};
pub use refusals::{ConfFault, ConfKind, Fault, LogCause, ProgramFault, faults_text};
pub use replying::{Reply, reply_for};
pub use top::{paradyn, serve};
pub use whole_run::Progress;
