//! The limits of a search.

/// The most nodes that a search has.
pub const MAX_NODES: usize = 4096;
