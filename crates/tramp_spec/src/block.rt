//! Blocks of the tool text.

use crate::mark::MarkedWord;
use pn_types::Seq;

/// A base block or mini block that is to be written into the tool text.
#[derive(Drop)]
pub struct Block {
    /// The address of the program's word for which it stands.
    pub point: u64,
    /// The address of its first word, a multiple of 4.
    pub at: u64,
    /// Its words.
    pub words: Seq<MarkedWord>,
    /// It is a base block, and not a mini block.
    pub base: bool,
}
