//! Takes searches through tables of steps, of which each step is printed before its answer. A row of the standard input is the name
//! of such a table: `tests`, `small`, `phases` or `full`.
//!
//! What is returned to a step of a search is the state after it: the nodes that wait, those whose instruments are to be
//! dropped, and what came of each node, with how many samples it has. Where there are more than 16 nodes, it is how many
//! wait, and of how many the test ended in each way. A step that can't be taken is `no step`.

mod inputs;
mod printing;
mod rows;
mod steps;

use inputs::Cases;
use rows::{FULL, PHASES, Row, SMALL, TESTS};
use std::alloc::Global;
use std::io;
use w3_search::Search;

/// Takes a step of the search, and prints the state after it.
fn print_step(rt: &impl Print, search: &mut Search, row: &Row) -> io::Result<()> {
    if steps::take(search, row) {
        printing::print_state(rt, search)
    } else {
        println!(rt; "no step")
    }
}

/// Prints the answer to a step.
fn print_answer(rt: &impl Print, alloc: Global, cases: &mut Cases, row: &Row) -> io::Result<()> {
    if let Row::Begin(case) = row {
        inputs::begin(alloc, cases, *case)?;
    }
    match (row, cases.inputs.last(), cases.searches.last_mut()) {
        (Row::Holds(value, ticks, threshold), _, _) => {
            printing::print_test(rt, *value, *ticks, *threshold)
        }
        (Row::Child(of, number), Some(inputs), _) => {
            printing::print_child(rt, inputs, *of, *number)
        }
        (Row::Nodes(from, to), _, Some(search)) => {
            printing::print_nodes(rt, search.nodes(), *from, *to)
        }
        (_, _, Some(search)) => print_step(rt, search, row),
        _ => println!(rt; "no search"),
    }
}

/// Prints the rows, each with its answer.
fn print_rows(rt: &impl Print, alloc: Global, rows: &[Row]) -> io::Result<()> {
    let mut cases = Cases {
        inputs: Vec::new(alloc),
        searches: Vec::new(alloc),
    };
    for row in rows {
        println!(rt; "{row:?}")?;
        print_answer(rt, alloc, &mut cases, row)?;
    }
    Ok(())
}

/// Prints the steps of the table of this name, each with its answer.
///
/// # Errors
///
/// Where the output can't be written, or memory runs out.
pub fn answer(rt: &impl Print, alloc: Global, name: &str) -> io::Result<()> {
    match name {
        "tests" => print_rows(rt, alloc, &TESTS),
        "small" => print_rows(rt, alloc, &SMALL),
        "phases" => print_rows(rt, alloc, &PHASES),
        "full" => print_rows(rt, alloc, &FULL),
        _ => println!(rt; "no search"),
    }
}
