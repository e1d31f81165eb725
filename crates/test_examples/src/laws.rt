//! What happens to machines of a few words.

ghost use Rattle.test_examples.specs.FirstTurns.{FirstTurns};
ghost use Rattle.test_examples.specs.HartInside.{HartInside};
ghost use Rattle.test_examples.specs.LoopCounted.{LoopCounted};
ghost use Rattle.test_examples.specs.ThreeCounters.{MinisUnlinked, PointUnlinked};
ghost use Rattle.test_examples.specs.WarmTimer.{WarmTimer};

/// Thirteen turns of three words, the first of which is patched and counted.
pub fn first_turns()
    ensures { FirstTurns }
{}

/// Three rounds of a loop of one word, which an instrument counts: it is armed, and reads 3.
pub fn loop_counted()
    ensures { LoopCounted }
{}

/// Three counters at the loop's point. While a hart is at the second's mini block, this and the first's are unlinked. The hart goes
/// through both, and nothing is freed before it is outside. Then a fourth takes their room, and three rounds later reads 3.
pub fn minis_unlinked()
    ensures { MinisUnlinked }
{}

/// The point is unlinked while a hart is at the third's mini block. It goes through all three, and then on by the program's own word.
pub fn point_unlinked()
    ensures { PointUnlinked }
{}

/// While a hart is inside a trampoline no instrument is armed or sampled. Once it has settled, both may happen.
pub fn hart_inside()
    ensures { HartInside }
{}

/// A timer of a procedure is armed while two harts stand in it. On both harts its Open acts, and starts it under a condition that holds.
/// Then the harts go round the procedure's jump, both inside the trampoline for a while, and a site there looks each time whether the
/// timer stops, which it doesn't. After three rounds of both together it reads 3.
pub fn warm_timer()
    ensures { WarmTimer }
{}
