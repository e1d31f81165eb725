//! Writes the image of a program as an ELF file, and so an assembly text.
#![tactic(auto)]

mod fields;
mod headers;
mod laws;
mod making;
mod places;
mod symbols;
mod writing;

pub use laws::{loaded_can_be_written, written_is_read_again};
pub use making::elf_of_text;
pub use places::Places;
pub use writing::write;
