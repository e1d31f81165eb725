//! What an ELF file for RISC-V means: the fields that count, the tests on them, and in `specs/` the image of a file or
//! its first fault.
#![tactic(auto)]

mod fault;
mod fields;
mod header;
mod laws;
mod limits;
mod load;
mod section;
mod segment;
mod symbol;

pub use fault::{ElfError, ElfFault};
pub use header::{Header, begins_as_elf, header_of};
pub use laws::limits_are;
pub use limits::MAX_PROGRAM_LEN;
pub use load::Load;
pub use section::{SectionHeader, TextRange, section_header_at};
pub use segment::{ProgramHeader, program_header_at};
pub use symbol::{MAX_NAMES_LEN, SymbolEntry, symbol_entry_at};
