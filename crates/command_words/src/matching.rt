//! Reads the words of a command by clap.

ghost use Rattle.std.specs.Prelude.{◌≡◌, IfOk, IsErrOf, None, drop, map, string_bytes};
ghost use Rattle.command_words.specs.Asked.{AreMatches};
ghost use Rattle.command_words.specs.Grammar.{taken_of};
ghost use Rattle.command_words.specs.Commands.{form_of};

use crate::builders::command;
use crate::commands::CommandName;
use clap::ArgMatches;
use clap::error::ErrorKind;
use std::alloc::Global;

/// Why words give no request.
#[derive(Clone, Copy, Debug, PartialEq, Eq, Drop)]
pub enum WordFault {
    /// Out of memory.
    NoMemory,
    /// They are no command.
    Usage,
}

/// Reads the words of a command, of which the first is the command's own.
///
/// # Errors
///
/// `Usage` where the words are no words of the command; `NoMemory` where memory runs out.
pub fn matches<'a>(
    alloc: Global,
    name: CommandName,
    words: &'a [String],
) -> Result<ArgMatches<'a>, WordFault>
    ensures taken { IfOk result (λ matches. AreMatches (form_of name) (drop 1 (map string_bytes words.entry.now)) matches) }
    ensures usage { IsErrOf result WordFault.Usage → taken_of (form_of name) (drop 1 (map string_bytes words.entry.now)) ≡ None }
{
    let form = name.form();
    let Ok(command) = command(alloc, &form) else {
        return Err(WordFault::NoMemory);
    };
    match command.try_get_matches_from(words) {
        Ok(matches) => Ok(matches),
        Err(fault) => match fault.kind() {
            ErrorKind::OutOfMemory => Err(WordFault::NoMemory),
            _ => Err(WordFault::Usage),
        },
    }
}
