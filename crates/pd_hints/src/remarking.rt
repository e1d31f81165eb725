//! What is said beside what a call shows.

ghost use Rattle.pd_hints.specs.Readings.{OnlyReads};

use crate::calls::Call;
use crate::contents::read_contents;
use crate::explaining::explain;
use crate::noting::{notes, report_lines};
use crate::unentered::{add_unentered, has_true_node};
use command_words::{WordFault, read_request};
use headline::Texts;
use outside::Files;
use pn_types::NoMemory;
use std::alloc::{AllocError, Global};

/// Reads the program again that words name.
fn read_program<F: Files>(
    alloc: Global,
    words: &[String],
    files: &mut F,
) -> Result<Option<Vec<u8>>, NoMemory>
    ensures { OnlyReads F.holds F.faults files.old files.new }
{
    let request = match read_request(alloc, words) {
        Ok(request) => request,
        Err(WordFault::NoMemory) => return Err(AllocError),
        Err(WordFault::Usage) => return Ok(None),
    };
    match Call::of(&request) {
        Some(call) => Ok(read_contents(alloc, files, &call)?.program),
        None => Ok(None),
    }
}

/// Adds what a report says of procedures that the program doesn't enter.
fn add_doubts<F: Files>(
    alloc: Global,
    text: &mut String,
    texts: &Texts,
    words: &[String],
    files: &mut F,
) -> Result<(), NoMemory>
    ensures { OnlyReads F.holds F.faults files.old files.new }
{
    let lines = report_lines(alloc, texts.out.as_slice())?;
    let log = texts.log.as_slice();
    if log.is_empty() || !lines.iter().any(|line| has_true_node(line)) {
        return Ok(());
    }
    match read_program(alloc, words, files)? {
        Some(program) => add_unentered(alloc, text, &lines, log, &program),
        None => Ok(()),
    }
}

/// Returns what a call that ended with a status says beside its texts, of which `words` are the words that were served: what of a report or
/// a profile has to be heeded, or what a fault means and what to do. The files that the words name are read again for it. It is empty where
/// there is nothing to say.
///
/// # Errors
///
/// `NoMemory` where memory runs out.
pub fn remarks<F: Files>(
    alloc: Global,
    status: u8,
    texts: &Texts,
    words: &[String],
    files: &mut F,
) -> Result<String, NoMemory>
    ensures { OnlyReads F.holds F.faults files.old files.new }
{
    match status {
        0 => {
            let mut text = notes(alloc, texts.out.as_slice())?;
            add_doubts(alloc, &mut text, texts, words, files)?;
            Ok(text)
        }
        7 | 8 => Ok(String::new(alloc)),
        _ => explain(alloc, texts.out.as_slice(), words, files),
    }
}
