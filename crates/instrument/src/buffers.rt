//! The memory for the words of a site's blocks.

ghost use Rattle.std.specs.Prelude.{◌≡◌, IfOk};

use pn_types::NoMemory;
use std::alloc::Global;
use std::marker::Model;
use tramp_spec::MarkedWord;

/// The memory for the words of a site's blocks: those of a base block, and those of a mini block, whose number contracts see.
#[derive(Drop)]
pub struct Buffers {
    /// The memory for the base block, which has seven words at most.
    pub base: Vec<MarkedWord>,
    /// The memory for the mini block.
    pub mini: Vec<MarkedWord>,
    /// How many words the mini block has.
    pub words: u32,
}

impl Model for Buffers {
    ghost use Rattle.std.specs.Prelude.{ℕ, ◌≡◌, ◌≤◌, [], vec_capacity};

    ghost Value = { ℕ };

    ghost view = { λ b. b.words };

    ghost invariant = { λ b.
        (b.base.items ≡ []) × (7 ≤ vec_capacity b.base) × (b.mini.items ≡ []) × (b.words ≤ vec_capacity b.mini) };
}

impl Buffers {
    /// Takes the memory for a mini block of `words` words, and for a base block.
    ///
    /// # Errors
    ///
    /// `NoMemory` where memory runs out.
    pub fn new(alloc: Global, words: u32) -> Result<Buffers, NoMemory>
        ensures { IfOk result (λ buffers. buffers ≡ words) }
    {
        Ok(Buffers {
            base: Vec::with_capacity(alloc, 7)?,
            mini: Vec::with_capacity(alloc, words as usize)?,
            words,
        })
    }

    /// Returns how many words the mini block has.
    pub fn words(&self) -> u32
        ensures { result ≡ self.now }
    {
        self.words
    }
}
