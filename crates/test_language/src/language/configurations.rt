//! The calls on configurations.

use crate::language::texts::{bytes_of, shown};
use mdl_ast::Conf;
use mdl_parse::{ParseError, parse, print};
use mdl_shipped::shipped;
use std::alloc::Global;
use std::io;

/// Returns the configuration that a text spells.
///
/// # Errors
///
/// The first fault of the text, or out of memory.
pub fn conf_of(alloc: Global, text: &str) -> Result<Conf, ParseError> {
    match bytes_of(alloc, text) {
        Ok(bytes) => parse(alloc, &bytes),
        Err(_) => Err(ParseError::NoMemory),
    }
}

/// Prints the configuration that a text spells.
///
/// # Errors
///
/// Where the output can't be written, or memory runs out.
pub fn print_parsed(rt: &impl Print, alloc: Global, text: &str) -> io::Result<()> {
    match conf_of(alloc, text) {
        Ok(conf) => {
            let count = conf.items.as_slice().len();
            println!(rt; "{count} items")
        }
        Err(error) => println!(rt; "{error:?}"),
    }
}

/// Prints the canonical text of a configuration.
fn print_canonical(rt: &impl Print, alloc: Global, conf: &Conf) -> io::Result<()> {
    let printed = print(alloc, conf)?;
    let text = shown(&printed);
    println!(rt; "{text}")
}

/// Prints the canonical text of the configuration that a text spells.
///
/// # Errors
///
/// Where the output can't be written, or memory runs out.
pub fn print_printed(rt: &impl Print, alloc: Global, text: &str) -> io::Result<()> {
    match conf_of(alloc, text) {
        Ok(conf) => print_canonical(rt, alloc, &conf),
        Err(error) => println!(rt; "{error:?}"),
    }
}

/// Whether the configuration is printed so.
fn is_printed(alloc: Global, conf: &Conf, printed: &[u8]) -> bool {
    match print(alloc, conf) {
        Ok(text) => text.as_slice() == printed,
        Err(_) => false,
    }
}

/// Whether the text is a configuration that is printed so. One of more than 65,536 bytes counts as none.
fn spells(alloc: Global, text: &[u8], printed: &[u8]) -> bool {
    if text.len() > 65_536 {
        return false;
    }
    match parse(alloc, text) {
        Ok(conf) => is_printed(alloc, &conf, printed),
        Err(_) => false,
    }
}

/// Prints whether a text and what is printed are printed so.
fn print_spelled(rt: &impl Print, alloc: Global, text: &str, printed: &[u8]) -> io::Result<()> {
    let bytes = bytes_of(alloc, text)?;
    let same = spells(alloc, &bytes, printed);
    let again = spells(alloc, printed, printed);
    println!(rt; "same {same} again {again}")
}

/// What is shipped, as it is printed.
fn shipped_text(alloc: Global) -> io::Result<Vec<u8>> {
    let conf = shipped(alloc)?;
    Ok(print(alloc, &conf)?)
}

/// Prints whether the shipped configuration is printed as the one that a text spells.
///
/// # Errors
///
/// Where the output can't be written, or memory runs out.
pub fn print_shipped(rt: &impl Print, alloc: Global, text: &str) -> io::Result<()> {
    let printed = shipped_text(alloc)?;
    print_spelled(rt, alloc, text, &printed)
}
