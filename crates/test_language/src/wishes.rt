//! A row is words between single spaces, and is printed before its answer, which is what they ask of `pd`: the words that are served,
//! with what is done beside; what is checked; or a text that is printed, or says what is wrong. Of a long text there is its length
//! and its first line.

use crate::commands::words;
use pd_words::{CheckWords, Serving, Wish, read_wish};
use pn_types::NoMemory;
use std::alloc::Global;
use std::io;

/// The length from which a text is long, in bytes.
const LONG: usize = 1_500;

/// Words that are served.
fn serving_text(alloc: Global, serving: &Serving) -> Result<String, NoMemory> {
    let words = &serving.words;
    let output = &serving.output;
    let force = serving.force;
    let quiet = serving.quiet;
    format!(in alloc; "serve {words:?} output {output:?} force {force} quiet {quiet}\n")
}

/// What is checked before a run.
fn check_text(alloc: Global, check: &CheckWords) -> Result<String, NoMemory> {
    let program = &check.program;
    let conf = &check.conf;
    let harts = check.harts;
    format!(in alloc; "check {program:?} {conf:?} harts {harts}\n")
}

/// A text, or the length and the first line of a long one.
fn told(alloc: Global, kind: &str, text: &str) -> Result<String, NoMemory> {
    let length = text.len();
    if length < LONG {
        return format!(in alloc; "{kind}\n{text}");
    }
    let first = text.lines().next().unwrap_or("");
    format!(in alloc; "{kind}, {length} bytes\n{first}\n")
}

/// What words ask for.
fn wish_text(alloc: Global, words: &[String], is_screen: bool) -> Result<String, NoMemory> {
    match read_wish(alloc, words, is_screen)? {
        Wish::Print(text) => told(alloc, "print", &text),
        Wish::Wrong(text) => told(alloc, "wrong", &text),
        Wish::Serve(serving) => serving_text(alloc, &serving),
        Wish::Check(check) => check_text(alloc, &check),
    }
}

/// Prints a row, and what it asks for, on a screen or not.
///
/// # Errors
///
/// Where the output can't be written, or memory runs out.
pub fn answer(rt: &impl Print, alloc: Global, row: &str, is_screen: bool) -> io::Result<()> {
    let words = words(alloc, row)?;
    let text = wish_text(alloc, &words, is_screen)?;
    let name = if is_screen { "screen" } else { "pd" };
    print!(rt; "$ {name} {row}\n{text}")
}
