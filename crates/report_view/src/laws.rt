//! What holds of pictures and trees.

ghost use Rattle.report_view.specs.Laws.{HeightsAreShares, TreeHasEach, TreeIsOfParents};

/// A bar's height is the greatest number of eighths of the greatest value that isn't above its own value, and at most eight.
pub fn heights_are_shares()
    ensures { HeightsAreShares }
{}

/// In the tree stands each node that was true exactly once, and no other.
pub fn tree_has_each()
    ensures { TreeHasEach }
{}

/// A row of the tree that isn't a root stands below the node that it refines.
pub fn tree_is_of_parents()
    ensures { TreeIsOfParents }
{}
