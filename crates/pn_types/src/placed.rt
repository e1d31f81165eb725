//! Instruments that have their place in the machine.

use crate::plan::{Open, Var};
use crate::seq::Seq;

/// Where an instrument acts.
#[derive(Clone, Copy, Drop)]
pub struct PlacedSite {
    /// The address of the program's word.
    pub at: u64,
    /// The address of the instrument's mini block there.
    pub mini: u64,
}

/// An instrument that has its place in the machine.
#[derive(Drop)]
pub struct Placed {
    /// The variables of its plan.
    pub vars: Seq<Var>,
    /// The first slot of each variable. A timer has its sum there, and its number of starts in the next slot.
    pub slots: Seq<u32>,
    /// The sites, by address.
    pub sites: Seq<PlacedSite>,
    /// The procedures at whose entries statements stand, by address.
    pub opens: Seq<Open>,
}
