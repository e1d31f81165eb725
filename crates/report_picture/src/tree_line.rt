//! A line of the tree of a search.

/// What a line of the tree of what was true tells.
#[derive(Clone, Copy, Drop)]
pub enum TreeLine {
    /// The phase of the node of a number, a root, which stands on the next line.
    Phase(usize),
    /// The node of a number, how many nodes stand above it in the tree, and how many above the node behind it, or 0.
    Node(usize, usize, usize),
}
