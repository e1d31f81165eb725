//! What holds of the definitions of a whole run.

ghost use Rattle.whole_run.specs.Replayed.{WholeFit};
ghost use Rattle.whole_run.specs.Seeded.{OneSeeded, SomeSeeded};

/// For any inputs a seed has no two whole lists of quanta.
pub fn one_seeded()
    ensures { OneSeeded }
{}

/// For any inputs a seed has a whole list of quanta.
pub fn some_seeded()
    ensures { SomeSeeded }
{}

/// Quanta fit exactly where they are a whole run.
pub fn whole_quanta_fit()
    ensures { WholeFit }
{}
