//! What a directive says.

use pn_types::Text;

/// What a directive does to the hypotheses of a search.
#[derive(Drop)]
pub enum DirectiveAct {
    /// Takes away the hypothesis of this name, and all that have it as an ancestor: `prune NAME;`.
    Prune(Text),
    /// Refines the hypothesis of the first name along the axis of the second no longer: `prune NAME axis NAME;`.
    PruneAxis(Text, Text),
    /// Sets the least value at which the hypothesis is true: `threshold NAME NUMBER;`.
    Threshold(Text, u32),
    /// Puts the hypothesis before all others: `first NAME;`.
    First(Text),
}

/// A directive.
#[derive(Drop)]
pub struct Directive {
    /// The line of its first word, from 1.
    pub line: u32,
    /// What it does.
    pub act: DirectiveAct,
}
