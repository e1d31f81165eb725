//! The texts that answer words which serve and check nothing: help, the version, the man page, completions, and what is wrong.

ghost use Rattle.std.specs.Prelude.{◌≡◌, IfOk};
ghost use Rattle.pd_words.specs.Wishes.{meaning, text_alone, CanBeServed};

use crate::commands::command_named;
use crate::completions::{BASH, ZSH, completion};
use crate::man::man_page;
use crate::parser::parser;
use crate::rows::Server;
use crate::wishes::Wish;
use clap::error::ErrorKind;
use clap::{ArgMatches, Error};
use pn_types::NoMemory;
use std::alloc::{AllocError, Global};

/// What is said where clap takes words that ask for nothing: a number or an address isn't written as `paradyn` writes them, or two
/// shapes are asked for.
const BAD_VALUE: &str = "\
error: a number is 1 to 10 decimal digits with no sign before them; an address is 0x and hexadecimal digits, with a comma before the \
next; one of --table, --words and --show is enough, as one of --ascii, --json, --csv, --svg, --html and --format; --until is above \
--from\n\nFor more information, try '--help'.\n";

/// What is said where there is no command.
const NO_COMMAND: &str = "error: there is no command\n\nFor more information, try '--help'.\n";

/// Returns the wish of wrong words.
fn wrong(alloc: Global, text: &str) -> Result<Wish, NoMemory>
    ensures meaning { IfOk result (λ wish. meaning wish ≡ text_alone) }
    ensures served { IfOk result CanBeServed }
{
    Ok(Wish::Wrong(String::from_str(alloc, text)?))
}

/// Returns the wish of words that clap doesn't take, or that ask for help or the version.
fn refused(alloc: Global, error: &Error) -> Result<Wish, NoMemory>
    ensures meaning { IfOk result (λ wish. meaning wish ≡ text_alone) }
    ensures served { IfOk result CanBeServed }
{
    let text = format!(in alloc; "{error}")?;
    match error.kind() {
        ErrorKind::OutOfMemory => Err(AllocError),
        ErrorKind::DisplayHelp
        | ErrorKind::DisplayVersion
        | ErrorKind::DisplayHelpOnMissingArgumentOrSubcommand => Ok(Wish::Print(text)),
        _ => Ok(Wish::Wrong(text)),
    }
}

/// Returns the script that completes the words of `pd` in a shell: zsh, or else bash.
fn script(alloc: Global, given: &ArgMatches<'_>) -> Result<String, NoMemory> {
    match given.get_str("SHELL") {
        Some("zsh") => completion(alloc, ZSH),
        _ => completion(alloc, BASH),
    }
}

/// Returns the wish of words in which clap found nothing wrong.
fn found(alloc: Global, found: &ArgMatches<'_>) -> Result<Wish, NoMemory>
    ensures meaning { IfOk result (λ wish. meaning wish ≡ text_alone) }
    ensures served { IfOk result CanBeServed }
{
    let Some((word, given)) = found.subcommand() else {
        return wrong(alloc, NO_COMMAND);
    };
    match command_named(word).map(|command| command.server) {
        Some(Server::Man) => Ok(Wish::Print(man_page(alloc)?)),
        Some(Server::Completions) => Ok(Wish::Print(script(alloc, given)?)),
        _ => wrong(alloc, BAD_VALUE),
    }
}

/// Returns the text that answers words which serve and check nothing. It is clap that says what is wrong with them.
///
/// # Errors
///
/// `NoMemory` where memory runs out.
pub fn answer(alloc: Global, words: &[String]) -> Result<Wish, NoMemory>
    ensures meaning { IfOk result (λ wish. meaning wish ≡ text_alone) }
    ensures served { IfOk result CanBeServed }
{
    match parser(alloc)?.try_get_matches_from(words) {
        Ok(matches) => found(alloc, &matches),
        Err(error) => refused(alloc, &error),
    }
}
