//! What a fault means, and what to do.

ghost use Rattle.pd_hints.specs.Readings.{OnlyReads};

use crate::calls::Call;
use crate::causes::cause_meaning;
use crate::configurations::add_configuration;
use crate::contents::{Contents, read_contents};
use crate::directive_faults::add_directives;
use crate::meanings::fault_meaning;
use crate::procedure_names::add_unknown_procedure;
use crate::programs::add_program;
use crate::texts::add;
use command_words::{WordFault, read_request};
use outside::Files;
use pn_types::NoMemory;
use std::alloc::{AllocError, Global};
use std::str::from_utf8;

/// How the fault of a name that no procedure has begins.
const NO_PROCEDURE: &str = "no procedure ";

/// Adds what the files of a call tell of a fault of one of them.
fn add_details(
    alloc: Global,
    text: &mut String,
    fault: &str,
    contents: &Contents,
    call: &Call<'_>,
) -> Result<(), NoMemory> {
    if let Some(fault) = fault.strip_prefix("bad program: ") {
        match &contents.program {
            Some(program) => add_program(alloc, text, fault, call.program.unwrap_or(""), program),
            None => Ok(()),
        }
    } else if let Some(fault) = fault.strip_prefix("bad configuration: ") {
        add_configuration(alloc, text, fault, contents, call)
    } else if let Some(fault) = fault.strip_prefix("bad directives: ") {
        add_directives(alloc, text, fault, contents)
    } else if let Some(name) = fault.strip_prefix(NO_PROCEDURE) {
        match &contents.program {
            Some(program) => add_unknown_procedure(alloc, text, name, program),
            None => Ok(()),
        }
    } else {
        Ok(())
    }
}

/// Reads the files of a call again, and adds what they tell of a fault of one of them.
fn look_again<F: Files>(
    alloc: Global,
    text: &mut String,
    fault: &str,
    words: &[String],
    files: &mut F,
) -> Result<(), NoMemory>
    ensures { OnlyReads F.holds F.faults files.old files.new }
{
    let request = match read_request(alloc, words) {
        Ok(request) => request,
        Err(WordFault::NoMemory) => return Err(AllocError),
        Err(WordFault::Usage) => return Ok(()),
    };
    let Some(call) = Call::of(&request) else {
        return Ok(());
    };
    let contents = read_contents(alloc, files, &call)?;
    add_details(alloc, text, fault, &contents, &call)
}

/// Returns lines that say what a fault means and what to do, of which `line` is the fixed line and `words` are the words that were
/// served. The files that these name are read again, to tell what of them is meant. It is empty where the line says all.
pub(crate) fn explain<F: Files>(
    alloc: Global,
    line: &[u8],
    words: &[String],
    files: &mut F,
) -> Result<String, NoMemory>
    ensures { OnlyReads F.holds F.faults files.old files.new }
{
    let mut text = String::new(alloc);
    let line = from_utf8(line).unwrap_or("");
    let Some(fault) = line.trim_end().strip_prefix("paradyn: ") else {
        return Ok(text);
    };
    if fault.starts_with("bad ") || fault.starts_with(NO_PROCEDURE) {
        look_again(alloc, &mut text, fault, words, files)?;
    }
    match fault
        .strip_prefix("cannot measure ")
        .and_then(|pick| pick.rsplit_once(": "))
    {
        Some((_, cause)) => add(&mut text, "{}\n", &[cause_meaning(cause)])?,
        None => text.push_str(fault_meaning(fault))?,
    }
    Ok(text)
}
