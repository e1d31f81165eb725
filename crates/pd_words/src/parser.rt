//! The parser of the words of `pd`, which is made of the tables.

use crate::commands::all_commands;
use crate::rows::{CommandRow, Kind, Values, WordRow};
use crate::words::all_words;
use clap::builder::ValueParser;
use clap::{Arg, ArgAction, Command};
use pn_types::NoMemory;
use std::alloc::Global;

const VERSION: &str = "1.0 (for rattle-kit-13f)";

const ABOUT: &str =
    "Tells where the time of a RISC-V program goes: which procedures, which locks, which harts";

/// What a status says.
pub const STATUSES: &str = "\
The status says what became of a call:
   0  what was asked for is printed
   2  the words are wrong, or a file isn't written over
   3  a file can't be read
   4  the program is bad
   5  the configuration is bad
   6  what was asked for can't be measured
   7  what was due can't be written
   8  memory ran out
   9  the log is bad
  11  the program has too many blocks
  12  the directives are bad
  13  the report is bad
  14  there is no such procedure
  15  the program has no line table, or a bad one";

/// Returns what a value is checked by.
fn check_of<'a>(values: Values) -> ValueParser<'a> {
    match values {
        Values::Alone => ValueParser::Bool,
        Values::Number(least, most) => ValueParser::Unsigned(least, most),
        Values::Words(words) => ValueParser::Names(words),
        Values::File => ValueParser::NonEmptyString,
        Values::Text => ValueParser::String,
    }
}

/// Returns what is done at a word.
fn action_of(values: Values) -> ArgAction {
    match values {
        Values::Alone => ArgAction::SetTrue,
        _ => ArgAction::Set,
    }
}

/// Returns the letter of an option's short form.
fn letter_of(row: &WordRow) -> Option<char> {
    row.letter?.chars().next()
}

/// Returns the argument of a word of a command.
fn arg_of<'a>(alloc: Global, command: &CommandRow, row: &WordRow) -> Arg<'a> {
    let mut arg = Arg::new(alloc, row.name)
        .help(row.what)
        .action(action_of(row.values))
        .value_parser(check_of(row.values))
        .required(command.needs(row));
    if matches!(row.kind, Kind::Places) {
        arg = arg.num_args(1..);
    }
    if row.kind.is_place() {
        return arg;
    }
    arg = arg.long(row.name).value_name(row.value);
    if let Some(letter) = letter_of(row) {
        arg = arg.short(letter);
    }
    if let Some(default) = row.default {
        arg = arg.default_value(default);
    }
    arg
}

fn subcommand<'a>(alloc: Global, row: &CommandRow) -> Result<Command<'a>, NoMemory> {
    let mut command = Command::new(alloc, row.word)
        .about(row.summary)
        .after_help(row.example);
    for word in all_words() {
        if row.has(word) {
            command = command.arg(arg_of(alloc, row, word))?;
        }
    }
    Ok(command)
}

/// Returns what parses the words of `pd`.
///
/// # Errors
///
/// `NoMemory` where memory runs out.
pub fn parser<'a>(alloc: Global) -> Result<Command<'a>, NoMemory> {
    let mut parser = Command::new(alloc, "pd")
        .no_binary_name(true)
        .version(VERSION)
        .about(ABOUT)
        .after_help(STATUSES)
        .arg_required_else_help(true)
        .bin_name("pd")?;
    for row in all_commands() {
        parser = parser.subcommand(subcommand(alloc, row)?)?;
    }
    Ok(parser)
}
