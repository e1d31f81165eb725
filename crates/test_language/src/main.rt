//! Prints answers to the lines of the standard input. A line is a word that names a table, and after a space a row of it:
//!
//! - `language`: calls on numbers, tokens, configurations, foci, checks and plans ([`language`]);
//! - `command`: what words ask of `paradyn` ([`commands`]);
//! - `pd`: what a person's words ask of `pd` ([`wishes`]), and `screen`: what they ask for on a screen;
//! - `record`: logs and samples ([`records`]);
//! - `search`: searches that are taken through steps ([`searches`]).
//!
//! A line that begins with `#` says nothing.
#![tactic(auto)]

mod commands;
mod language;
mod records;
mod searches;
mod starts;
mod wishes;

use std::alloc::Global;
use std::io;

/// The tables.
#[derive(Clone, Copy)]
enum Table {
    Language,
    Command,
    Wish,
    ScreenWish,
    Record,
    Search,
}

impl Table {
    /// The table of this name.
    fn of(name: &str) -> Option<Table> {
        match name {
            "language" => Some(Table::Language),
            "command" => Some(Table::Command),
            "pd" => Some(Table::Wish),
            "screen" => Some(Table::ScreenWish),
            "record" => Some(Table::Record),
            "search" => Some(Table::Search),
            _ => None,
        }
    }
}

/// Prints the answer to a line.
fn answer(rt: &impl Print, alloc: Global, line: &str) -> io::Result<()> {
    if line.starts_with('#') {
        return Ok(());
    }
    let (name, row) = line.split_once(' ').unwrap_or((line, ""));
    match Table::of(name) {
        Some(Table::Language) => language::answer(rt, alloc, row),
        Some(Table::Command) => commands::answer(rt, alloc, row),
        Some(Table::Wish) => wishes::answer(rt, alloc, row, false),
        Some(Table::ScreenWish) => wishes::answer(rt, alloc, row, true),
        Some(Table::Record) => records::answer(rt, alloc, row),
        Some(Table::Search) => searches::answer(rt, alloc, row),
        None => println!(rt; "no table"),
    }
}

fn main(rt: HostRuntime) -> io::Result<()> {
    let alloc = rt.alloc();
    for line in rt.lines(alloc) {
        answer(&rt, alloc, line?.as_str())?;
    }
    Ok(())
}
