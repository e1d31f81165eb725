//! The calls on trees and foci.

use crate::language::programs::{named_by_number, one_procedure, three_modules};
use crate::language::texts::{bytes_of, shown, split};
use pn_types::{Axis, CodePart, Focus, NoMemory};
use resource_tree::Tree;
use std::alloc::Global;
use std::io;

/// The tree of this name.
fn tree(alloc: Global, name: &str) -> Option<Tree> {
    match name {
        "one" => one_procedure(alloc),
        _ => three_modules(alloc),
    }
}

/// The hierarchy of this name.
fn axis(name: &str) -> Axis {
    match name {
        "Code" => Axis::Code,
        "Machine" => Axis::Machine,
        _ => Axis::SyncObject,
    }
}

/// Prints what a focus selects.
fn print_selected(rt: &impl Print, alloc: Global, tree: &Tree, focus: &Focus) -> io::Result<()> {
    let procs = tree.procs(alloc, focus)?;
    let harts = tree.harts(focus);
    let object = tree.object_at(focus);
    println!(rt; "selects {procs:?} {harts:?} {object:?}")
}

fn print_focus_in(rt: &impl Print, alloc: Global, tree: &Tree, text: &str) -> io::Result<()> {
    let text = bytes_of(alloc, text)?;
    let focus = tree.focus(&text);
    println!(rt; "{focus:?}")?;
    match tree.selected(&text) {
        Some(focus) => print_selected(rt, alloc, tree, &focus),
        None => println!(rt; "selects nothing"),
    }
}

/// Prints the focus of a text in a tree, and what it selects.
///
/// # Errors
///
/// Where the output can't be written, or memory runs out.
pub fn print_focus(rt: &impl Print, alloc: Global, rest: &str) -> io::Result<()> {
    let (name, text) = split(rest);
    match tree(alloc, name) {
        Some(tree) => print_focus_in(rt, alloc, &tree, text),
        None => println!(rt; "no tree"),
    }
}

/// The focus that a text selects.
fn selected(alloc: Global, tree: &Tree, text: &str) -> Option<Focus> {
    match bytes_of(alloc, text) {
        Ok(bytes) => tree.selected(&bytes),
        Err(_) => None,
    }
}

fn print_canonical(rt: &impl Print, alloc: Global, tree: &Tree, focus: &Focus) -> io::Result<()> {
    let written = tree.focus_text(alloc, focus)?;
    let text = shown(written.bytes());
    let again = tree.focus(written.bytes());
    println!(rt; "{text}")?;
    println!(rt; "{again:?}")
}

fn print_written_in(rt: &impl Print, alloc: Global, tree: &Tree, text: &str) -> io::Result<()> {
    match selected(alloc, tree, text) {
        Some(focus) => print_canonical(rt, alloc, tree, &focus),
        None => println!(rt; "no focus"),
    }
}

/// The same for a copy of the tree.
fn print_copied(rt: &impl Print, alloc: Global, tree: &Tree, text: &str) -> io::Result<()> {
    let copy = tree.copy(alloc)?;
    print_written_in(rt, alloc, &copy, text)
}

/// Prints the canonical text of the focus of a text, and the focus of that.
///
/// # Errors
///
/// Where the output can't be written, or memory runs out.
pub fn print_written(rt: &impl Print, alloc: Global, rest: &str) -> io::Result<()> {
    let (name, text) = split(rest);
    match tree(alloc, name) {
        Some(tree) => print_copied(rt, alloc, &tree, text),
        None => println!(rt; "no tree"),
    }
}

fn print_child_in(rt: &impl Print, alloc: Global, tree: &Tree, rest: &str) -> io::Result<()> {
    let (axis_name, rest) = split(rest);
    let (number, text) = split(rest);
    match selected(alloc, tree, text) {
        Some(focus) => {
            let child = tree.child(&focus, axis(axis_name), number.parse().unwrap_or(0));
            println!(rt; "{child:?}")
        }
        None => println!(rt; "no focus"),
    }
}

/// Prints a child of a focus.
///
/// # Errors
///
/// Where the output can't be written, or memory runs out.
pub fn print_child(rt: &impl Print, alloc: Global, rest: &str) -> io::Result<()> {
    let (name, rest) = split(rest);
    match tree(alloc, name) {
        Some(tree) => print_child_in(rt, alloc, &tree, rest),
        None => println!(rt; "no tree"),
    }
}

/// A focus that selects this in the code.
fn code(code: CodePart) -> Focus {
    Focus {
        code,
        hart: None,
        object: None,
    }
}

/// Whether the procedure of this number is found by its path, and among its module's children.
fn is_found(alloc: Global, tree: &Tree, number: u32) -> Result<bool, NoMemory> {
    let module_no = number % 7;
    let path = format!(in alloc; "/Code/m{module_no}/f{number}")?;
    let focus = code(CodePart::Procedure(number));
    let module = code(CodePart::Module(module_no));
    Ok(
        tree.focus(path.as_bytes()) == Ok(focus)
            && tree.child(&module, Axis::Code, number / 7) == Some(focus),
    )
}

/// How many of `count` procedures are found.
fn found(alloc: Global, tree: &Tree, count: u32) -> Result<u32, NoMemory> {
    let mut found: u32 = 0;
    for number in 0..count {
        if is_found(alloc, tree, number)? {
            found += 1;
        }
    }
    Ok(found)
}

/// Prints how many procedures of a program are found by their paths and among their module's children.
///
/// # Errors
///
/// Where the output can't be written, or memory runs out.
pub fn print_names(rt: &impl Print, alloc: Global, rest: &str) -> io::Result<()> {
    let count = rest.parse::<u32>().unwrap_or(0);
    let Some(tree) = named_by_number(alloc, count) else {
        return println!(rt; "no tree");
    };
    let found = found(alloc, &tree, count)?;
    println!(rt; "{found} found")
}
