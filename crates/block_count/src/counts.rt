//! What is counted of a program's blocks, and why they aren't counted.

use pn_types::{NoMemory, Seq, StopText};

/// How a hart ended, and where.
#[derive(Clone, Copy, PartialEq, Eq, Drop)]
pub struct HartStop {
    /// How it ended.
    pub stop: StopText,
    /// The address of its last word if it stopped, and else of its next one.
    pub pc: u64,
}

/// How often the blocks of a program were executed.
#[derive(Drop)]
pub struct Counts {
    /// How many words each hart executed.
    pub ticks: Seq<u64>,
    /// How each hart ended.
    pub stops: Seq<HartStop>,
    /// How often each block was executed, modulo 2^64: none where its first word can't be moved.
    pub counts: Seq<Option<u64>>,
}

/// Why the blocks of a program aren't counted.
#[derive(Clone, Copy, Debug, PartialEq, Eq, Drop)]
pub enum CountFault {
    /// This many blocks have a first word that can be moved, and a hart has fewer slots.
    TooManyBlocks(u32),
    /// Out of memory.
    NoMemory,
}

impl From<NoMemory> for CountFault {
    ghost use Rattle.std.specs.Prelude.{◌≡◌};
    ghost use Rattle.block_count.specs.declared.counts.CountFault.TheVariants.{NoMemory};

    ghost from_gives = { λ _ fault. fault ≡ NoMemory };

    fn from(_fault: NoMemory) -> CountFault {
        CountFault::NoMemory
    }
}
