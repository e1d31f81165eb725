//! The unpatched machine: harts that execute a program's words over one memory, with no trampoline.
#![tactic(auto)]

mod hart;
mod machine;
mod program;

pub use machine::PlainMachine;
