//! What holds of the numbers of a run.

ghost use Rattle.pn_types.specs.Limits.{LimitsAre};

/// The numbers that definitions name are these.
pub fn limits_are()
    ensures { LimitsAre }
{}
