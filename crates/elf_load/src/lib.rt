//! Reads an ELF file for RISC-V into the image of a program.
#![tactic(auto)]

mod names;
mod reading;
mod segments;
mod symbols;
mod tables;
mod text;

pub use reading::load;
