//! Standard input as a file among others.

use outside::{OsFiles, SureFiles};
use pn_types::NoMemory;
use std::io::{ErrorKind, Read};
use std_input::{STANDARD_INPUT, WithInput};

/// The most bytes that are read of it: one more than the longest file has that a command takes, a log.
const MOST: u64 = 268_435_497;

/// Reads standard input to its end, as far as a command can take it. There is none where a reading fails.
fn read_input(rt: &HostRuntime) -> Result<Option<Vec<u8>>, NoMemory> {
    let mut bytes = Vec::new(rt.alloc());
    match rt.stdin().take(MOST).read_to_end(&mut bytes) {
        Ok(_) => Ok(Some(bytes)),
        Err(fault) if fault.kind() == ErrorKind::OutOfMemory => Err(NoMemory {}),
        Err(_) => Ok(None),
    }
}

/// Returns whether a word is an option whose value is the next word.
fn awaits_value(word: &str) -> bool {
    word.starts_with("--") && word != "--" && !word.contains('=')
}

/// Returns whether a positional word is the name of standard input.
pub fn name_input(words: &[String]) -> bool {
    let mut is_value = false;
    for word in words {
        if word.as_str() == STANDARD_INPUT && !is_value {
            return true;
        }
        is_value = awaits_value(word.as_str());
    }
    false
}

/// Returns the files of the system. Where standard input is to be one of them, it is read.
///
/// # Errors
///
/// `NoMemory` where memory runs out.
pub fn files_with_input(
    rt: &HostRuntime,
    is_read: bool,
) -> Result<WithInput<OsFiles<HostRuntime>>, NoMemory> {
    let mut files = WithInput {
        files: OsFiles::new(*rt),
        input: None,
    };
    if is_read && let Some(bytes) = read_input(rt)? {
        let mut input = SureFiles::new(rt.alloc());
        input.give(rt.alloc(), STANDARD_INPUT, bytes)?;
        files.input = Some(input);
    }
    Ok(files)
}
