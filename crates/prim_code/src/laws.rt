//! What holds of the tool's code of statements.

ghost use Rattle.prim_code.specs.Laws.{StatementsCompile, StatementsWork};
ghost use Rattle.prim_code.specs.Rows.{StatementRows};
ghost use Rattle.prim_code.specs.Standing.{StandingKept};

/// The words of each kind of statement and condition.
pub fn statement_rows()
    ensures { StatementRows }
{}

/// Statements that fit a plan's variables name these alone, as `compile` asks, and each has fewer than 1,024 words.
pub fn statements_compile()
    ensures { StatementsCompile }
{}

/// The body of statements that fit a plan's variables is harmless. It makes slots that stand for values stand for those after the
/// statements, keeps what timers read, and leaves every other doubleword of the bank.
pub fn statements_work()
    ensures { StatementsWork }
{}

/// Slots go on standing for values where they stay, and where fewer starts are to be spared; a timer that runs reads one more
/// after each tick.
pub fn standing_kept()
    ensures { StandingKept }
{}
