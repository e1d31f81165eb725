//! What a statement does.

ghost use Rattle.std.specs.Prelude.{◌≡◌};
ghost use Rattle.mdl_parse.specs.Actions.{action_of_change, timed};

use mdl_ast::{Action, VarName};

/// What is done with a variable.
#[derive(Clone, Copy, Drop)]
pub(crate) enum Change {
    /// `++`
    Up,
    /// `--`
    Down,
    /// `=` and a number
    Put(u32),
}

/// The action that does this with a variable.
pub(crate) fn changed(var: VarName, change: Change) -> Action
    ensures { result ≡ action_of_change var change }
{
    match change {
        Change::Up => Action::Up(var),
        Change::Down => Action::Down(var),
        Change::Put(number) => Action::Put(var, number),
    }
}

/// The action that starts a timer, or stops it.
pub(crate) fn timed(start: bool, var: VarName) -> Action
    ensures { result ≡ timed start var }
{
    if start {
        Action::Start(var)
    } else {
        Action::Stop(var)
    }
}
