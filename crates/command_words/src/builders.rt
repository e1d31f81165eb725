//! The commands as clap's builder makes them: without words for help or the version.

ghost use Rattle.std.specs.Prelude.{◌≡◌, IfOk, false, fold, map};
ghost use Rattle.clap.specs.Words.{app_of, rule_of, with_rule};
ghost use Rattle.command_words.specs.Apps.{app_with, bare_app, option_arg, place_arg};
ghost use Rattle.command_words.specs.Walked.{form_seen, option_names};

use crate::forms::Form;
use clap::{Arg, ArgAction, Command};
use std::alloc::{AllocError, Global};

fn bare<'a>(alloc: Global, name: &'a str) -> Command<'a>
    ensures { app_of result ≡ bare_app name.entry.now }
{
    Command::new(alloc, name)
        .disable_help_flag(true)
        .disable_version_flag(true)
}

fn place<'a>(alloc: Global, name: &'a str) -> Arg<'a>
    ensures rule { rule_of result ≡ place_arg name.entry.now }
    ensures local { result.global ≡ false }
{
    Arg::new(alloc, name).required(true).action(ArgAction::Set)
}

fn option<'a>(alloc: Global, name: &'a str) -> Arg<'a>
    ensures rule { rule_of result ≡ option_arg name.entry.now }
    ensures local { result.global ≡ false }
{
    Arg::new(alloc, name).long(name).action(ArgAction::Set)
}

/// Returns the command with a positional word of each name.
fn with_places<'a>(
    alloc: Global,
    command: Command<'a>,
    names: &[&'a str],
) -> Result<Command<'a>, AllocError>
    ensures { IfOk result (λ more. app_of more ≡ fold with_rule (app_of command.entry) (map place_arg (option_names names.entry.now))) }
{
    let mut command = command;
    for name in names {
        command = command.arg(place(alloc, name))?;
    }
    Ok(command)
}

/// Returns the command with an option of each name.
fn with_options<'a>(
    alloc: Global,
    command: Command<'a>,
    names: &[&'a str],
) -> Result<Command<'a>, AllocError>
    ensures { IfOk result (λ more. app_of more ≡ fold with_rule (app_of command.entry) (map option_arg (option_names names.entry.now))) }
{
    let mut command = command;
    for name in names {
        command = command.arg(option(alloc, name))?;
    }
    Ok(command)
}

/// Returns the command that takes the words of a form.
///
/// # Errors
///
/// `AllocError` where memory runs out.
pub fn command<'a>(alloc: Global, form: &Form) -> Result<Command<'a>, AllocError>
    ensures { IfOk result (λ command. app_of command ≡ app_with (form_seen form.now)) }
{
    let command = with_places(alloc, bare(alloc, form.word), form.places)?;
    with_options(alloc, command, form.options)
}
