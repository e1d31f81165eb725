//! Each row is printed before its answer. It is the name of a call, and after single spaces its values and the text that it is
//! given, in which `%` and two hexadecimal digits are a byte.
//!
//! - `number LIMIT TEXT`: the number that the text spells. `lines TEXT`: its lines.
//! - `tokens TEXT`: its tokens up to the end or a fault, then what the next call says, and the place.
//! - `parse TEXT`: how many items the configuration has, or its first fault. `print TEXT`: its canonical text.
//! - `ships TEXT`: whether what is shipped is printed as this configuration is, also when what is printed is read again.
//! - `focus TREE TEXT`: the focus of a text in the tree of a program, and what it selects; `written TREE TEXT`: its
//!   canonical text, and the focus of that. `child TREE AXIS NUMBER TEXT`: the child of a focus. The trees are `three` (of
//!   three modules) and `one` (of one procedure).
//! - `names COUNT`: in a program of COUNT procedures, how many have a path that is found, and stand among their module's children.
//! - `check TEXT`: the check of a configuration beside a small shipped one. `prefixes TEXT`: its prefixes.
//! - `plan METRIC`, `plan METRIC OBJECT`: the plan of a shipped metric for all objects or one.

mod checks;
mod configurations;
mod foci;
mod plans;
mod programs;
mod texts;

use std::alloc::Global;
use std::io;

/// Prints a row and the answer of its call.
///
/// # Errors
///
/// Where the output can't be written, or memory runs out.
pub fn answer(rt: &impl Print, alloc: Global, row: &str) -> io::Result<()> {
    let (call, rest) = texts::split(row);
    println!(rt; "{row}")?;
    match call {
        "number" => texts::print_number(rt, alloc, rest),
        "lines" => texts::print_lines(rt, alloc, rest),
        "tokens" => texts::print_tokens(rt, alloc, rest),
        "parse" => configurations::print_parsed(rt, alloc, rest),
        "print" => configurations::print_printed(rt, alloc, rest),
        "ships" => configurations::print_shipped(rt, alloc, rest),
        "focus" => foci::print_focus(rt, alloc, rest),
        "written" => foci::print_written(rt, alloc, rest),
        "child" => foci::print_child(rt, alloc, rest),
        "names" => foci::print_names(rt, alloc, rest),
        "check" => checks::print_check(rt, alloc, rest),
        "prefixes" => checks::print_prefixes(rt, alloc, rest),
        "plan" => plans::print_plan(rt, alloc, rest),
        _ => println!(rt; "no call"),
    }
}
