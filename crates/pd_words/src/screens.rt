//! What is asked for where a screen shows it.

ghost use Rattle.std.specs.Prelude.{◌≡◌, IfOk, IfSome, IsSome, map, string_bytes};
ghost use Rattle.command_words.specs.Requests.{request_of};
ghost use Rattle.pd_words.specs.Wishes.{for_screen, with_table};

use crate::served::copied;
use command_words::{WordFault, read_request};
use pn_types::NoMemory;
use std::alloc::{AllocError, Global};

/// Returns words, and a table asked for.
fn with_table(alloc: Global, words: &[String]) -> Result<Vec<String>, NoMemory>
    ensures { IfOk result (λ asked. map string_bytes asked.items ≡ with_table (map string_bytes words.now)) }
{
    let mut asked = Vec::new(alloc);
    if let Some((first, others)) = words.split_first() {
        asked.push(String::from_str(alloc, first.as_str())?)?;
        asked.push(String::from_str(alloc, "--show=table")?)?;
        asked.append(&mut copied(alloc, others)?)?;
    }
    Ok(asked)
}

/// Returns the words that are served where a screen shows what they ask for: they ask for a table, where that is a request.
///
/// # Errors
///
/// `NoMemory` where memory runs out.
pub fn for_screen(alloc: Global, words: &[String], is_screen: bool) -> Result<Vec<String>, NoMemory>
    ensures words { IfOk result (λ served. map string_bytes served.items ≡ for_screen is_screen (map string_bytes words.now)) }
    ensures request { IsSome (request_of (map string_bytes words.now))
        → IfOk result (λ served. IsSome (request_of (map string_bytes served.items))) }
{
    if is_screen {
        let asked = with_table(alloc, words)?;
        match read_request(alloc, &asked) {
            Ok(_) => return Ok(asked),
            Err(WordFault::NoMemory) => return Err(AllocError),
            Err(WordFault::Usage) => {}
        }
    }
    copied(alloc, words)
}
