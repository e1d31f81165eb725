//! The rows of the search.

ghost use Rattle.std.specs.Prelude.{◌≡◌, ◌++◌, ◌∷◌, [], if◌then◌else◌, IfOk, OnOk, codes};
ghost use Rattle.report_json.specs.Fields.{bar_cause, of_verdict, seen_by, state_word};
ghost use Rattle.report_csv.specs.Cells.{line, lines, optional, row};
ghost use Rattle.report_csv.specs.Report.{node_row, node_rows, optional_cause, search_row, search_rows};
ghost use Rattle.report_csv.specs.Writers.{IsBetween, cell_bytes, written};

use crate::cells::{BLANK, Cells, add_row, cause, number, optional, text};
use csv::Writer;
use pn_types::NoMemory;
use report::{NodePart, SearchPart};
use report_json::{bar_cause, of_verdict, parent_of, seen_by, state_word};
use std::alloc::Global;
use w3_search::NodeState;

/// Returns that there are as many nodes as there may be, or nothing.
fn full_word(full: bool) -> &'static [u8]
    ensures { result.now ≡ (if full then codes "full" else []) }
{
    if full { b"full" } else { b"" }
}

/// Adds the search.
fn add_head(alloc: Global, out: &mut Writer<Vec<u8>>, part: &SearchPart) -> Result<(), NoMemory>
    requires { IsBetween out.old }
    ensures between { OnOk result (IsBetween out.new) }
    ensures text { OnOk result (written out.new ≡ written out.old ++ line (row (search_row part.now))) }
{
    add_row(
        out,
        &Cells {
            kind: b"search",
            state: text(alloc, full_word(part.full))?,
            samples: number(alloc, part.window as u64)?,
            ..BLANK
        },
    )
}

/// Returns the cell of what came of a node.
fn word(alloc: Global, state: NodeState) -> Result<Option<Vec<u8>>, NoMemory>
    ensures { IfOk result (λ cell. cell_bytes cell ≡ state_word state) }
{
    text(alloc, state_word(state).as_bytes())
}

/// Returns the cell of how many samples a node has that waits, where it took so many.
fn seen(alloc: Global, state: NodeState, taken: u32) -> Result<Option<Vec<u8>>, NoMemory>
    ensures { IfOk result (λ cell. cell_bytes cell ≡ optional (seen_by state taken)) }
{
    optional(alloc, seen_by(state, taken))
}

/// Returns the cell of a number of a node that has a verdict.
fn verdict(alloc: Global, state: NodeState, number: u64) -> Result<Option<Vec<u8>>, NoMemory>
    ensures { IfOk result (λ cell. cell_bytes cell ≡ optional (of_verdict state number)) }
{
    optional(alloc, of_verdict(state, number))
}

/// Returns the cell of why a node can't be tested.
fn bar(alloc: Global, state: NodeState) -> Result<Option<Vec<u8>>, NoMemory>
    ensures { IfOk result (λ cell. cell_bytes cell ≡ optional_cause (bar_cause state)) }
{
    match bar_cause(state) {
        None => Ok(None),
        Some(found) => cause(alloc, found),
    }
}

/// Adds a node.
fn add_node(
    alloc: Global,
    out: &mut Writer<Vec<u8>>,
    at: usize,
    part: &NodePart,
) -> Result<(), NoMemory>
    requires { IsBetween out.old }
    ensures between { OnOk result (IsBetween out.new) }
    ensures text { OnOk result (written out.new ≡ written out.old ++ line (row (node_row at part.now))) }
{
    let node = &part.node;
    let state = node.state;
    add_row(
        out,
        &Cells {
            kind: b"node",
            number: number(alloc, at as u64)?,
            name: text(alloc, part.hypothesis.bytes())?,
            focus: text(alloc, part.focus.bytes())?,
            phase: text(alloc, part.phase.bytes())?,
            parent: optional(alloc, parent_of(node))?,
            state: word(alloc, state)?,
            samples: seen(alloc, state, node.seen)?,
            from: verdict(alloc, state, node.from)?,
            to: verdict(alloc, state, node.to)?,
            value: verdict(alloc, state, node.value)?,
            ticks: verdict(alloc, state, node.ticks)?,
            text: bar(alloc, state)?,
            ..BLANK
        },
    )
}

/// Adds the nodes, by number.
fn add_nodes(alloc: Global, out: &mut Writer<Vec<u8>>, parts: &[NodePart]) -> Result<(), NoMemory>
    requires { IsBetween out.old }
    ensures between { OnOk result (IsBetween out.new) }
    ensures text { OnOk result (written out.new ≡ written out.old ++ lines (node_rows 0 parts.now)) }
{
    for (number, part) in parts.iter().enumerate() {
        add_node(alloc, out, number, part)?;
    }
    Ok(())
}

/// Adds the search and its nodes, if there was one.
pub(crate) fn add_search(
    alloc: Global,
    out: &mut Writer<Vec<u8>>,
    part: &Option<SearchPart>,
) -> Result<(), NoMemory>
    requires { IsBetween out.old }
    ensures between { OnOk result (IsBetween out.new) }
    ensures text { OnOk result (written out.new ≡ written out.old ++ lines (search_rows part.now)) }
{
    match part {
        None => Ok(()),
        Some(part) => {
            add_head(alloc, out, part)?;
            add_nodes(alloc, out, part.nodes.as_slice())
        }
    }
}
