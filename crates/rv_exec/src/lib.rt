//! What a word does: the registers, the reservations, the output, and the execution of one word over them and the memory.
#![tactic(auto)]

mod atomics;
mod calling;
mod decoded;
mod executing;
mod flat;
mod flat_of;
mod moves;
mod outcomes;
mod output;
mod pc;
mod pc_moves;
mod regs;
mod reservations;
mod running;
mod shared;
mod steps;
mod values;

pub use decoded::Decoded;
pub use executing::{exec, run_or_execute};
pub use flat::Flat;
pub use flat_of::{flattened, narrow};
pub use moves::address;
pub use output::Output;
pub use pc::Pc;
pub use regs::Regs;
pub use reservations::Reservations;
pub use running::Caller;
pub use shared::Shared;
