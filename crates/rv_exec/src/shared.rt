//! What all harts of a program share.

use crate::output::Output;
use crate::reservations::Reservations;
use rv_mem::Mem;

/// What all harts of a program share.
#[derive(Drop)]
pub struct Shared {
    /// The memory.
    pub mem: Mem,
    /// The reservation of each hart.
    pub resv: Reservations,
    /// What the program wrote.
    pub out: Output,
}
