//! Reads the line table of an ELF file: DWARF 4 and 5 as GNU tools write it for 64-bit RISC-V.
#![tactic(auto)]

mod fault;
mod forms;
mod listed;
mod names;
mod numbers;
mod operations;
mod paths;
mod program;
mod reading;
mod registers;
mod sections;
mod strings;
mod unit;

pub use fault::{FaultKind, LineError, LineFault};
pub use names::text_at;
pub use paths::{Path, UnitPaths};
pub use reading::{read_line_table, read_paths};
pub use registers::{LineTable, Row};
pub use strings::{StringPlace, StringSection};
