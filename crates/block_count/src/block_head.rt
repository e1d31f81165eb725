//! The beginning and the length of a basic block.

/// A basic block of a program: words that are executed one after another, from the first on.
#[derive(Clone, Copy, PartialEq, Eq, Drop)]
pub struct BlockHead {
    /// The address of its first word.
    pub at: u64,
    /// How many words it has.
    pub words: u32,
}
