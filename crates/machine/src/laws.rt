//! What holds of the definitions.

ghost use Rattle.machine.specs.Kept.{KeepsAlways};
ghost use Rattle.machine.specs.Leaving.{LeavesSoon};
ghost use Rattle.machine.specs.Laws.{Erasure, ReplaysGoOn};
ghost use Rattle.machine.specs.Measures.{LevelsGoOn, MeasuresAdd};
ghost use Rattle.machine.specs.Arming.{ArmingSets};
ghost use Rattle.machine.specs.Quanta.{BudgetIsKept, QuantaAreLegal, TimeGoesOn};
ghost use Rattle.machine.specs.Readings.{ReadingsMeasure};

/// Erasure. Take any image whose text is of words of 32 bits that never name x31, any number of harts and budget, and any list of
/// events each of which may happen when it comes: turns, also inside trampolines, and blocks that are written, linked,
/// unlinked and freed. The turns that execute words of the program are a legal run of the unpatched program, and after the list the
/// patched machine is that program after this run: memory, reservations and output are equal, and each hart has the program's
/// ticks, stop, pc and registers x1 to x30, those that the tool has saved or is rebuilding being taken from where they are.
pub fn erasure()
    ensures { Erasure }
{}

/// What is kept at every event: each block has its shape, and a point has at most one base block that isn't retired; each word of the
/// text is the program's or the jump into that base block; from each block that is or was linked a way leads down, through older
/// mini blocks of the same base block and each one that is live, to its tail; and a hart inside stands in such a block, isn't
/// stopped, and can still take the tick of the program's word.
pub fn kept()
    ensures { KeepsAlways }
{}

/// Readings. Take any list of events each of which may happen when it comes, and an instrument that is armed in its course, carries
/// a plan there and is in force since. Its readings for any harts together, minus those of an earlier moment since the arming at
/// which no hart was inside, are what the plan measures between the two on the unpatched program, whose run is the ticks of these
/// events. All else may happen meanwhile: slots that were another's before, other instruments at the same points, links, unlinks
/// and frees.
pub fn readings_measure()
    ensures { ReadingsMeasure }
{}

/// Arming sets slots so that they stand for the values, and each timer reads 0. No other doubleword changes.
pub fn arming_sets()
    ensures { ArmingSets }
{}

/// A hart that is inside and takes turns with no event of the tool between is stopped or outside within as many turns as the
/// blocks of its point that aren't freed have words. From the jump that enters it is one turn more.
pub fn leaves_soon()
    ensures { LeavesSoon }
{}

/// The turns of a quantum may happen when they come, and those that are ticks are the hart's.
pub fn quanta_are_legal()
    ensures { QuantaAreLegal }
{}

/// The time, which is the ticks of all harts together, goes on by the events that are ticks.
pub fn time_goes_on()
    ensures { TimeGoesOn }
{}

/// No hart has more ticks than the budget.
pub fn budget_is_kept()
    ensures { BudgetIsKept }
{}

/// Lists of events may be parted anywhere: what a list leads to, what it owns and whether it is legal go on from its first part.
pub fn replays_go_on()
    ensures { ReplaysGoOn }
{}

/// The values of a plan's variables go on where they were.
pub fn levels_go_on()
    ensures { LevelsGoOn }
{}

/// What a plan measures adds up, over times and over harts.
pub fn measures_add()
    ensures { MeasuresAdd }
{}
