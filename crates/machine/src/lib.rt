//! The patched machine: harts that execute a program's words and, inside trampolines, words of the tool, while blocks are
//! written, linked, unlinked and freed.
#![tactic(auto)]

mod block_list;
mod block_row;
mod hart;
mod instruments;
mod laws;
mod machine;
mod patching;
mod performing;
mod quantum;
mod settling;
mod slots;
mod stretch;
mod tool_words;
mod turning;

pub use instruments::Sample;
pub use laws::{
    arming_sets, budget_is_kept, erasure, kept, leaves_soon, levels_go_on, measures_add,
    quanta_are_legal, readings_measure, replays_go_on, time_goes_on,
};
pub use machine::Machine;
pub use quantum::Taken;
