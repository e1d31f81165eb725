//! What holds of what the report of a session shows.

ghost use Rattle.session.specs.Bins.{PartsTold};

/// The bins that a report shows of a pair follow one another from its arming on, none is empty, and each is what its metric's plan
/// measures over it, on the program's own run. Where all wishes are for the opening, and none drops a pair, each pair is armed at time 0,
/// and its bins go through the whole run.
pub fn parts_told()
    ensures { PartsTold }
{}
