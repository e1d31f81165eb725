//! Laws of the numbers of words: what holds of the definitions, whatever the run.

ghost use Rattle.word_flow.specs.Laws.{NumbersBoundExecutions, TicksKeepToBudgets};
ghost use Rattle.word_flow.specs.Transfers.{KnownWordsTellAll};

/// From counts of any words of a run and from how its harts ended follow numbers for all words of its text. None is more than the
/// executions of its word, and where they tell all ticks, each is the executions of its word.
pub fn numbers_bound_executions()
    ensures { NumbersBoundExecutions }
{}

/// A run has no more ticks than the budgets of its harts together.
pub fn ticks_keep_to_budgets()
    ensures { TicksKeepToBudgets }
{}

/// Where harts come to each word that isn't counted from the word before alone, the numbers tell all ticks.
pub fn known_words_tell_all()
    ensures { KnownWordsTellAll }
{}
