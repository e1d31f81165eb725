//! Does what the lines of the standard input say. A line is a word that names a table, a space, and a row of that table:
//!
//! - `admissions`: plans that are admitted up to the first refusal ([`admissions`]);
//! - `code`: calls on moved words, blocks and the store of code ([`code`]);
//! - `conformance`: what words mean, compared with what they mean elsewhere ([`conformance`]);
//! - `patched`: what is done with a patched machine, in order ([`patched`]).
//!
//! A line that begins with `#` says nothing. At the end the rows of `conformance` are counted; the status is 0 exactly where each of
//! them agrees.
#![tactic(auto)]

mod admissions;
mod code;
mod conformance;
mod patched;

use crate::conformance::Judge;
use std::alloc::Global;
use std::io::{self, BufRead, BufReader};
use std::process::ExitCode;

/// The tables.
#[derive(Clone, Copy)]
enum Table {
    Admissions,
    Code,
    Conformance,
    Patched,
}

impl Table {
    /// The table of this name.
    fn of(name: &str) -> Option<Table> {
        match name {
            "admissions" => Some(Table::Admissions),
            "code" => Some(Table::Code),
            "conformance" => Some(Table::Conformance),
            "patched" => Some(Table::Patched),
            _ => None,
        }
    }
}

/// Does what a line says, and prints what comes of it.
fn answer(rt: &impl Print, alloc: Global, judge: &mut Judge, line: &str) -> io::Result<()> {
    if line.starts_with('#') {
        return Ok(());
    }
    let (name, row) = line.split_once(' ').unwrap_or((line, ""));
    match Table::of(name) {
        Some(Table::Admissions) => admissions::answer(rt, alloc, row),
        Some(Table::Code) => code::answer(rt, alloc, row),
        Some(Table::Conformance) => judge.answer(rt, alloc, row),
        Some(Table::Patched) => patched::answer(rt, alloc, row),
        None => println!(rt; "no table"),
    }
}

fn main(rt: HostRuntime) -> io::Result<ExitCode> {
    let alloc = rt.alloc();
    let mut judge = Judge::new(alloc)?;
    for line in BufReader::new(alloc, rt.reader())?.lines(alloc) {
        answer(&rt, alloc, &mut judge, line?.as_str())?;
    }
    judge.print_counts(&rt)?;
    if judge.all_agree() {
        Ok(ExitCode::SUCCESS)
    } else {
        Ok(ExitCode::FAILURE)
    }
}
