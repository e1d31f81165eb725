//! The calls on texts.

ghost use Rattle.std.specs.Prelude.{◌≤◌, IfOk, vec_len};

use percent_encoding::{CONTROLS, PercentEncode, percent_decode_str, percent_encode};
use pn_text::{Scanner, next_line, number};
use pn_types::NoMemory;
use std::alloc::Global;
use std::io;

/// The most bytes that a text has: those after are left out.
const MAX_LEN: usize = 65_536;

/// Returns what stands before the first space, and after it.
pub fn split(text: &str) -> (&str, &str) {
    match text.split_once(' ') {
        Some((word, rest)) => (word, rest),
        None => (text, ""),
    }
}

/// Returns the bytes that a text stands for.
///
/// # Errors
///
/// `NoMemory` where memory runs out.
pub fn bytes_of(alloc: Global, text: &str) -> Result<Vec<u8>, NoMemory>
    ensures { IfOk result (λ bytes. vec_len bytes ≤ MAX_LEN) }
{
    let mut bytes = Vec::new(alloc);
    percent_decode_str(text).append_to(&mut bytes)?;
    bytes.truncate(MAX_LEN);
    Ok(bytes)
}

/// Returns the text that stands for these bytes.
pub fn shown(bytes: &[u8]) -> PercentEncode<'_> {
    percent_encode(bytes, CONTROLS)
}

/// Prints the number that a text spells.
///
/// # Errors
///
/// Where the output can't be written, or memory runs out.
pub fn print_number(rt: &impl Print, alloc: Global, rest: &str) -> io::Result<()> {
    let (limit, text) = split(rest);
    let found = number(&bytes_of(alloc, text)?, limit.parse().unwrap_or(0));
    println!(rt; "{found:?}")
}

/// Prints the lines of a text.
///
/// # Errors
///
/// Where the output can't be written, or memory runs out.
pub fn print_lines(rt: &impl Print, alloc: Global, rest: &str) -> io::Result<()> {
    let bytes = bytes_of(alloc, rest)?;
    let mut rest = bytes.as_slice();
    'lines: while let Some((line, behind)) = next_line(rest) {
        let line = shown(line);
        println!(rt; "[{line}]")?;
        rest = behind;
    }
    Ok(())
}

/// Prints the tokens of a text.
///
/// # Errors
///
/// Where the output can't be written, or memory runs out.
pub fn print_tokens(rt: &impl Print, alloc: Global, rest: &str) -> io::Result<()> {
    let bytes = bytes_of(alloc, rest)?;
    let mut scanner = Scanner::new(&bytes);
    for _ in 0..=bytes.len() {
        let token = scanner.next();
        println!(rt; "{token:?}")?;
        if !matches!(token, Ok(Some(_))) {
            break;
        }
    }
    let again = scanner.next();
    let place = scanner.place();
    println!(rt; "then {again:?} at {place:?}")
}
