//! What holds of walks and openings.

ghost use Rattle.frame_walk.specs.Laws.{ArgumentsWait, ColdBegins, OpensLow, SameStarts, WalksEnd};

/// A walk has at most 66 addresses.
pub fn walks_end()
    ensures { WalksEnd }
{}

/// The walk rests on nothing of a hart but its stop, pc, x1 and x8, and on no more than the stop where it is stopped.
pub fn same_starts()
    ensures { SameStarts }
{}

/// At an opening a statement with a condition on an argument doesn't act.
pub fn arguments_wait()
    ensures { ArgumentsWait }
{}

/// Without Opens the variables begin as they are initially.
pub fn cold_begins()
    ensures { ColdBegins }
{}

/// Opening values are far below the end of their range.
pub fn opens_low()
    ensures { OpensLow }
{}
