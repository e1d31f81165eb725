//! The man page, in roff.

use crate::commands::all_commands;
use crate::lines::{add, add_forms};
use crate::parser::STATUSES;
use crate::rows::{CommandRow, WordRow};
use crate::words::all_words;
use pn_types::NoMemory;
use std::alloc::Global;

/// How the page begins. From `.tr` on each `-` is a sign that can be copied.
const HEAD: &str = r#".TH PD 1 "" "pd 1.0" "User Commands"
.tr -\-
.ad l
.nh
.SH NAME
pd \- tells where the time of a RISC-V program goes
.SH SYNOPSIS
.B pd
.I COMMAND WORDS
[\fIOPTIONS\fR]
.SH DESCRIPTION
Runs programs of RISC-V RV64I with the extensions M and A on a machine of its own, patches them while they run with what a metric
asks for, and searches by itself for why, where and when they are slow.
.PP
What a command prints goes to standard output, or to the file of
.BR --output .
What is wrong with words goes to standard error.
.B pd help COMMAND
shows the words and the options of a command, with an example.
.SH COMMANDS
"#;

/// What stands above the words and the options.
const WORDS_HEAD: &str = r#".SH WORDS AND OPTIONS
Options may stand anywhere after the command;
.B --NAME=VALUE
and
.B -nVALUE
are taken too. Behind
.B --
all words are positional.
"#;

/// Adds a word of a command as its synopsis has it.
fn add_in_synopsis(
    page: &mut String,
    command: &CommandRow,
    word: &WordRow,
) -> Result<(), NoMemory> {
    if !word.kind.is_place() {
        return add(page, &[" [\\fB--", word.name, "\\fR]"]);
    }
    if command.needs(word) {
        add(page, &[" \\fI", word.name, "\\fR"])
    } else {
        add(page, &[" [\\fI", word.name, "\\fR]"])
    }
}

fn add_command(page: &mut String, command: &CommandRow) -> Result<(), NoMemory> {
    add(page, &[".TP\n\\fBpd ", command.word, "\\fR"])?;
    for word in all_words() {
        if command.has(word) {
            add_in_synopsis(page, command, word)?;
        }
    }
    add(
        page,
        &["\n", command.summary, ".\n.br\n", command.example, "\n"],
    )
}

/// Adds what a paragraph on a word begins with.
fn add_tag(page: &mut String, word: &WordRow) -> Result<(), NoMemory> {
    if word.kind.is_place() {
        return add(page, &[".TP\n.I ", word.name]);
    }
    add_forms(page, ".TP\n.B ", word, ", ")?;
    let blank = if word.value.is_empty() { "" } else { " " };
    add(page, &[blank, word.value])
}

fn add_word(page: &mut String, word: &WordRow) -> Result<(), NoMemory> {
    add_tag(page, word)?;
    match word.default {
        Some(default) => add(page, &["\n", word.what, ". Default: ", default, ".\n"]),
        None => add(page, &["\n", word.what, ".\n"]),
    }
}

fn add_words(page: &mut String) -> Result<(), NoMemory> {
    for word in all_words() {
        add_word(page, word)?;
    }
    Ok(())
}

/// Returns the man page, for `man -l`.
///
/// # Errors
///
/// `NoMemory` where memory runs out.
pub fn man_page(alloc: Global) -> Result<String, NoMemory> {
    let mut page = String::from_str(alloc, HEAD)?;
    for command in all_commands() {
        add_command(&mut page, command)?;
    }
    page.push_str(WORDS_HEAD)?;
    add_words(&mut page)?;
    add(&mut page, &[".SH EXIT STATUS\n.nf\n", STATUSES, "\n.fi\n"])?;
    Ok(page)
}
