//! Worked examples of the patched machine: that what its laws ask for is met by real programs, blocks and instruments, and what
//! then happens turn by turn.
#![tactic(auto)]

mod laws;

pub use laws::{
    first_turns, hart_inside, loop_counted, minis_unlinked, point_unlinked, warm_timer,
};
