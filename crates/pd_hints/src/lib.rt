//! What a person is told beside what `paradyn` prints: what a fault means and what to do, what of a program and a configuration would
//! mislead, and what of a report has to be heeded.
#![tactic(auto)]

mod calls;
mod causes;
mod checking;
mod code_findings;
mod configurations;
mod contents;
mod counted_names;
mod directive_faults;
mod elf_names;
mod explaining;
mod findings;
mod foci;
mod grammar;
mod lock_names;
mod meanings;
mod name_findings;
mod names;
mod nearest;
mod noting;
mod plan_findings;
mod procedure_names;
mod program_names;
mod programs;
mod remarking;
mod source_lines;
mod steps;
mod text_places;
mod texts;
mod unentered;
mod variables;

pub use checking::check;
pub use remarking::remarks;
