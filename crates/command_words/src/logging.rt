//! The name that words give for the second text.

ghost use Rattle.std.specs.Prelude.{◌≡◌, map, option_map, string_bytes};
ghost use Rattle.command_words.specs.Logs.{log_given, log_of};

use crate::asking::request_from;
use crate::commands::CommandName;
use crate::given::{FormValues, Given};
use crate::walking::values_of;

/// Returns the value of `log` or of `callgrind`.
fn log_given<'a, G: Given<'a>>(given: &G) -> Option<&'a str>
    ensures { option_map (λ s. s.now) result ≡ log_given (G.given given.now) }
{
    given.value("log").or(given.value("callgrind"))
}

/// Returns the name that the words of the command line give for the second text: the log of a run, or what callgrind's tools read of a
/// profile. None exactly where they are no command or have neither a `log` nor a `callgrind` option. It takes no memory.
pub fn log_name(words: &[String]) -> Option<&str>
    ensures { option_map (λ s. s.now) result ≡ log_of (map string_bytes words.now) }
{
    let (first, others) = words.split_first()?;
    let command = CommandName::of_word(first.as_str())?;
    let form = command.form();
    let values = values_of(&form, others)?;
    let given = FormValues { form, values };
    request_from(command, &given)?;
    log_given(&given)
}
