//! What holds of what commands find.

ghost use Rattle.commands.specs.Runnable.{FoundCanRun};

use mdl_check::checked_is_sound;

/// A session takes what is found of the program and of the configuration that files hold, or of what directives make of that.
pub fn found_can_run()
    ensures { FoundCanRun }
{
    checked_is_sound();
}
