//! What holds of the definitions of a shared run.

ghost use Rattle.live_run.specs.ByWorkers.{SomeShared};

/// For any inputs and any number of workers there is a whole list of quanta that they share.
pub fn some_shared()
    ensures { SomeShared }
{}
