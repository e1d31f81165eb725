//! Why a text is no focus.

/// Why a text is no focus of a tree.
#[derive(Clone, Copy, Debug, PartialEq, Eq, Drop)]
pub enum FocusFault {
    /// The text hasn't the form of a focus: the number of the first byte, from 0, at which no focus text goes on, or
    /// the text's length where it ends too early.
    Form(u64),
    /// The number of the first part, from 0, that names no node of the tree.
    NoSuchNode(u32),
}
