//! A row of the tree of a search.

/// A node in the tree of what was true.
#[derive(Clone, Copy, Drop)]
pub struct TreeRow {
    /// The node's number.
    pub number: usize,
    /// How many nodes stand above it in the tree.
    pub depth: usize,
}
