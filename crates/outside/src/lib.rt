//! The outside of a program as three traits: [`Files`], which are read by name, [`Sink`], which is written to, and
//! [`Gate`], at which workers may be made to wait.
//!
//! Files and sinks have a meaning, the bytes that a file holds or that a sink has, where that is told, and a count of
//! their faults. A call fails only where the count rises. Files and sinks in memory tell all; those of the system tell
//! nothing, and are the edge at which proofs end.
#![tactic(auto)]

mod drop_sink;
mod gate;
mod mem_files;
mod mem_sink;
mod reading;
mod steps;
mod sure_files;
mod sure_sink;
mod system;
mod traits;
mod writing;

pub use drop_sink::DropSink;
pub use gate::{Gate, OpenGate};
pub use mem_files::MemFiles;
pub use mem_sink::MemSink;
pub use reading::{ReadFault, read_whole};
pub use sure_files::SureFiles;
pub use sure_sink::SureSink;
pub use system::{FileSink, OsFiles, StdSink};
pub use traits::{Failed, Files, Sink};
pub use writing::write_all;
