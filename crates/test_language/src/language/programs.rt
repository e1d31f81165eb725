//! Small programs.

use pn_types::{MAX_HARTS, NoMemory, Proc, SymKind, Symbol, Text};
use resource_tree::Tree;
use std::alloc::Global;

/// A text of these bytes.
fn text(alloc: Global, bytes: &[u8]) -> Result<Text, NoMemory> {
    Ok(Text::from_vec(Vec::from_slice(alloc, bytes)?))
}

/// A procedure of one word.
fn procedure(alloc: Global, module: &[u8], name: &[u8], start: u64) -> Result<Proc, NoMemory> {
    Ok(Proc {
        name: text(alloc, name)?,
        module: text(alloc, module)?,
        start,
        len: 4,
    })
}

/// An object symbol.
fn object(alloc: Global, name: &[u8], at: u64) -> Result<Symbol, NoMemory> {
    Ok(Symbol {
        name: text(alloc, name)?,
        kind: SymKind::Object,
        at,
        size: 8,
        module: text(alloc, b"program")?,
    })
}

/// Returns the tree of a program that isn't large.
pub fn tree_of(
    alloc: Global,
    procs: &[Proc],
    objects: &[Symbol],
    harts: u32,
    prefixes: &[Text],
) -> Option<Tree> {
    if procs.len() > 100_000 || objects.len() > 100_000 || harts > MAX_HARTS {
        return None;
    }
    Tree::build(alloc, procs, objects, harts, prefixes).ok()
}

/// A procedure's module, name and address.
type Named = (&'static str, &'static str, u64);

/// Procedures of three modules by turns.
const PROCEDURES: [Named; 5] = [
    ("b.c", "f", 0),
    ("program", "main", 4),
    ("b.c", "g", 8),
    ("a.c", "f", 12),
    ("program", "f", 16),
];

/// The procedure of a small program.
const MAIN: [Named; 1] = [("program", "main", 0x10000)];

/// Objects some of which have no prefix, a bad name or a name that is taken: the name and the address of each.
const OBJECTS: [(&str, u64); 7] = [
    ("lock_b", 0x20000),
    ("count", 0x20008),
    ("lock_a", 0x20010),
    ("lock b", 0x20018),
    ("lock_b", 0x20020),
    ("queue", 0x20028),
    ("que", 0x20030),
];

fn procedures(alloc: Global, table: &[Named]) -> Result<Vec<Proc>, NoMemory> {
    let mut procs = Vec::new(alloc);
    for (module, name, start) in table {
        procs.push(procedure(alloc, module.as_bytes(), name.as_bytes(), *start)?)?;
    }
    Ok(procs)
}

/// Returns the procedure `main` alone.
///
/// # Errors
///
/// `NoMemory` where memory runs out.
pub fn main_alone(alloc: Global) -> Result<Vec<Proc>, NoMemory> {
    procedures(alloc, &MAIN)
}

fn objects(alloc: Global) -> Result<Vec<Symbol>, NoMemory> {
    let mut objects = Vec::new(alloc);
    for (name, at) in OBJECTS {
        objects.push(object(alloc, name.as_bytes(), at)?)?;
    }
    Ok(objects)
}

fn prefixes(alloc: Global) -> Result<Vec<Text>, NoMemory> {
    let mut prefixes = Vec::new(alloc);
    for prefix in ["lock_", "queue"] {
        prefixes.push(text(alloc, prefix.as_bytes())?)?;
    }
    Ok(prefixes)
}

fn with_objects(alloc: Global, procs: &[Proc], objects: &[Symbol]) -> Option<Tree> {
    let prefixes = prefixes(alloc).ok()?;
    tree_of(alloc, procs, objects, MAX_HARTS, &prefixes)
}

fn with_procedures(alloc: Global, procs: &[Proc]) -> Option<Tree> {
    let objects = objects(alloc).ok()?;
    with_objects(alloc, procs, &objects)
}

/// Returns a program of three modules with three objects in 32 harts.
pub fn three_modules(alloc: Global) -> Option<Tree> {
    let procs = procedures(alloc, &PROCEDURES).ok()?;
    with_procedures(alloc, &procs)
}

/// Returns a program of one procedure `main` in two harts.
pub fn one_procedure(alloc: Global) -> Option<Tree> {
    let procs = main_alone(alloc).ok()?;
    tree_of(alloc, &procs, &[], 2, &[])
}

/// Procedure `f0`, `f1` and so on, of the modules `m0` to `m6` by turns.
fn numbered(alloc: Global, number: u32) -> Result<Proc, NoMemory> {
    let module_no = number % 7;
    let name = format!(in alloc; "f{number}")?;
    let module_name = format!(in alloc; "m{module_no}")?;
    procedure(
        alloc,
        module_name.as_bytes(),
        name.as_bytes(),
        number as u64,
    )
}

/// Procedures of seven modules, `count` of them.
fn seven_modules(alloc: Global, count: u32) -> Result<Vec<Proc>, NoMemory> {
    let mut procs = Vec::new(alloc);
    for number in 0..count {
        procs.push(numbered(alloc, number)?)?;
    }
    Ok(procs)
}

/// Returns the resources of a program of `count` procedures in one hart.
pub fn named_by_number(alloc: Global, count: u32) -> Option<Tree> {
    let procs = seven_modules(alloc, count).ok()?;
    tree_of(alloc, &procs, &[], 1, &[])
}
