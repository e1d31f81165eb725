//! The calls on configurations beside a small shipped one.

use crate::language::configurations::conf_of;
use crate::language::programs::one_procedure;
use crate::language::texts::shown;
use mdl_ast::Conf;
use mdl_check::{CheckError, Checked, check, prefixes};
use mdl_parse::{ParseError, parse};
use resource_tree::Tree;
use std::alloc::Global;
use std::io;

/// What is shipped here: a prefix and a metric.
fn shipped(alloc: Global) -> Result<Conf, ParseError> {
    parse(
        alloc,
        b"sync lock_; metric calls { units \"units\"; base is counter { foreach func in $all { prepend entry (* calls++; *) } } }",
    )
}

/// Checks a configuration, where neither has more than 1,000 items.
///
/// # Errors
///
/// The fault of the first faulty item, or out of memory.
#[tactic(auto, using(mdl_check::proofs::Few::placed_counted))]
pub fn checked(
    alloc: Global,
    conf: &Conf,
    shipped: &Conf,
    tree: &Tree,
) -> Result<Checked, CheckError> {
    if shipped.items.as_slice().len() > 1000 || conf.items.as_slice().len() > 1000 {
        return Err(CheckError::NoMemory);
    }
    check(alloc, conf, shipped, tree)
}

/// Prints the lines of the metrics, and the wishes.
fn print_checked(rt: &impl Print, checked: &Checked) -> io::Result<()> {
    for metric in checked.metrics.as_slice() {
        let name = shown(metric.name.bytes());
        let line = metric.line;
        println!(rt; "metric {name} line {line}")?;
    }
    for wish in checked.wishes.as_slice() {
        println!(rt; "{wish:?}")?;
    }
    Ok(())
}

/// Prints the check on the program of one procedure `main` in two harts.
fn print_beside(rt: &impl Print, alloc: Global, conf: &Conf, shipped: &Conf) -> io::Result<()> {
    let Some(tree) = one_procedure(alloc) else {
        return println!(rt; "no tree");
    };
    match checked(alloc, conf, shipped, &tree) {
        Ok(checked) => print_checked(rt, &checked),
        Err(error) => println!(rt; "{error:?}"),
    }
}

fn print_answer(rt: &impl Print, alloc: Global, conf: &Conf) -> io::Result<()> {
    match shipped(alloc) {
        Ok(shipped) => print_beside(rt, alloc, conf, &shipped),
        Err(error) => println!(rt; "shipped {error:?}"),
    }
}

/// Prints the check of the configuration that a text spells.
///
/// # Errors
///
/// Where the output can't be written, or memory runs out.
pub fn print_check(rt: &impl Print, alloc: Global, text: &str) -> io::Result<()> {
    match conf_of(alloc, text) {
        Ok(conf) => print_answer(rt, alloc, &conf),
        Err(error) => println!(rt; "{error:?}"),
    }
}

fn print_listed(rt: &impl Print, alloc: Global, conf: &Conf, shipped: &Conf) -> io::Result<()> {
    let prefixes = prefixes(alloc, conf, shipped)?;
    for prefix in &prefixes {
        let prefix = shown(prefix.bytes());
        println!(rt; "{prefix}")?;
    }
    Ok(())
}

fn print_prefixes_of(rt: &impl Print, alloc: Global, conf: &Conf) -> io::Result<()> {
    match shipped(alloc) {
        Ok(shipped) => print_listed(rt, alloc, conf, &shipped),
        Err(error) => println!(rt; "shipped {error:?}"),
    }
}

/// Prints the prefixes of the configuration that a text spells.
///
/// # Errors
///
/// Where the output can't be written, or memory runs out.
pub fn print_prefixes(rt: &impl Print, alloc: Global, text: &str) -> io::Result<()> {
    match conf_of(alloc, text) {
        Ok(conf) => print_prefixes_of(rt, alloc, &conf),
        Err(error) => println!(rt; "{error:?}"),
    }
}
