//! The lines of a report on the search.

use crate::comparison::compare;
use pn_types::{Axis, BarCause, CodePart, Focus, NoMemory, Seq, StopText, Text};
use report::{HartPart, NodePart, ReportParts, SearchPart, report};
use std::alloc::Global;
use w3_search::{MAX_NODES, Node, NodeState};

const ROOT: &str = "/Code,/Machine,/SyncObject";

/// A node: the names that are printed of it, the node that it refines, what came of it, and its samples.
#[derive(Clone, Copy, Drop)]
struct Row {
    phase: &'static str,
    parent: Option<u32>,
    hypothesis: &'static str,
    focus: &'static str,
    state: NodeState,
    seen: u32,
    value: u64,
    ticks: u64,
    from: u64,
    to: u64,
}

/// A root that waits.
const WAITS: Row = Row {
    phase: "global",
    parent: None,
    hypothesis: "Never",
    focus: ROOT,
    state: NodeState::Waiting,
    seen: 0,
    value: 0,
    ticks: 0,
    from: 0,
    to: 0,
};

/// The nodes of a search in two phases, in which a lock can't be watched for its cost.
const TWO_PHASES: [Row; 7] = [
    Row {
        state: NodeState::Rejected,
        seen: 3,
        ticks: 300,
        to: 300,
        ..WAITS
    },
    Row {
        hypothesis: "Wait",
        state: NodeState::Barred(BarCause::OverCost(26)),
        ..WAITS
    },
    Row {
        hypothesis: "First",
        state: NodeState::Confirmed,
        seen: 3,
        value: 31,
        ticks: 300,
        to: 300,
        ..WAITS
    },
    Row {
        parent: Some(2),
        hypothesis: "First",
        focus: "/Code,/Machine/hart0,/SyncObject",
        state: NodeState::Unfinished(2),
        seen: 2,
        value: 21,
        ticks: 200,
        from: 400,
        to: 600,
        ..WAITS
    },
    Row {
        phase: "late",
        state: NodeState::Unfinished(1),
        seen: 1,
        ticks: 100,
        from: 700,
        to: 800,
        ..WAITS
    },
    Row {
        phase: "late",
        hypothesis: "Wait",
        state: NodeState::Barred(BarCause::OverCost(26)),
        ..WAITS
    },
    Row {
        phase: "late",
        hypothesis: "First",
        state: NodeState::Unfinished(1),
        seen: 1,
        value: 10,
        ticks: 100,
        from: 700,
        to: 800,
        ..WAITS
    },
];

/// The lines of these nodes.
const TWO_PHASES_TEXT: &str = "search nodes 7\n\
    node 0 phase global parent none Never /Code,/Machine,/SyncObject false value 0 ticks 300 from 0 to 300\n\
    node 1 phase global parent none Wait /Code,/Machine,/SyncObject barred over cost 26\n\
    node 2 phase global parent none First /Code,/Machine,/SyncObject true value 31 ticks 300 from 0 to 300\n\
    node 3 phase global parent 2 First /Code,/Machine/hart0,/SyncObject waiting seen 2 of 3\n\
    node 4 phase late parent none Never /Code,/Machine,/SyncObject waiting seen 1 of 3\n\
    node 5 phase late parent none Wait /Code,/Machine,/SyncObject barred over cost 26\n\
    node 6 phase late parent none First /Code,/Machine,/SyncObject waiting seen 1 of 3\n";

/// What is printed of a node with two samples, in each state.
const STATES: [(NodeState, &str); 14] = [
    (NodeState::Waiting, "waiting seen 2 of 3"),
    (NodeState::Active, "waiting seen 2 of 3"),
    (NodeState::Unfinished(2), "waiting seen 2 of 3"),
    (
        NodeState::Confirmed,
        "true value 120 ticks 200 from 300 to 500",
    ),
    (
        NodeState::Rejected,
        "false value 120 ticks 200 from 300 to 500",
    ),
    (
        NodeState::Barred(BarCause::NoConstraint(Axis::Code)),
        "barred no constraint for Code",
    ),
    (
        NodeState::Barred(BarCause::NoConstraint(Axis::Machine)),
        "barred no constraint for Machine",
    ),
    (
        NodeState::Barred(BarCause::NoConstraint(Axis::SyncObject)),
        "barred no constraint for SyncObject",
    ),
    (
        NodeState::Barred(BarCause::TooManySites(5000)),
        "barred too many sites 5000",
    ),
    (
        NodeState::Barred(BarCause::TooManyStmts(0x10014)),
        "barred too many statements at 0x10014",
    ),
    (
        NodeState::Barred(BarCause::OverCost(10)),
        "barred over cost 10",
    ),
    (
        NodeState::Barred(BarCause::NoSlot(3)),
        "barred no slot for 3",
    ),
    (
        NodeState::Barred(BarCause::NoRoom(6)),
        "barred no room for 6 words",
    ),
    (
        NodeState::Barred(BarCause::Unmovable(0x1002c)),
        "barred unmovable at 0x1002c",
    ),
];

fn text(alloc: Global, name: &str) -> Result<Text, NoMemory> {
    Ok(Text::from_vec(Vec::from_slice(alloc, name.as_bytes())?))
}

/// Returns what a report says of the node of a row. The numbers of its phase and hypothesis and the parts of its focus aren't
/// printed.
fn node_part(alloc: Global, row: &Row) -> Result<NodePart, NoMemory> {
    Ok(NodePart {
        phase: text(alloc, row.phase)?,
        hypothesis: text(alloc, row.hypothesis)?,
        focus: text(alloc, row.focus)?,
        node: Node {
            phase: 0,
            parent: row.parent,
            hypothesis: 0,
            focus: Focus {
                code: CodePart::All,
                hart: None,
                object: None,
            },
            state: row.state,
            seen: row.seen,
            from: row.from,
            to: row.to,
            value: row.value,
            ticks: row.ticks,
        },
    })
}

/// Returns what a report says of nodes whose tests take three samples.
fn search_part(alloc: Global, full: bool, rows: &[Row]) -> Result<SearchPart, NoMemory> {
    let mut nodes = Vec::new(alloc);
    for row in rows {
        nodes.push(node_part(alloc, row)?)?;
    }
    Ok(SearchPart {
        full,
        window: 3,
        nodes: Seq::from_vec(nodes),
    })
}

/// Returns the report of a run of one hart, with this search.
fn report_with(alloc: Global, search: Option<SearchPart>) -> Result<Vec<u8>, NoMemory> {
    let hart = HartPart {
        ticks: 800,
        stop: StopText::Budget,
        pc: 0x1000c,
    };
    let parts = ReportParts {
        harts: Seq::from_vec(vec![in alloc; hart]?),
        samples: 8,
        output: Text::from_vec(Vec::new(alloc)),
        refused: Seq::from_vec(Vec::new(alloc)),
        shown: Seq::from_vec(Vec::new(alloc)),
        search,
    };
    report(alloc, &parts, 0)
}

/// What stands in these reports before the search.
const BEFORE: &str = "paradyn report 1\n\
    harts 1 ticks 800 samples 8 skipped 0\n\
    hart 0 ticks 800 budget at 0x1000c\n\
    output 0\n\
    \n";

/// Returns the report with these lines on the search.
fn expected(alloc: Global, lines: &[&str]) -> Result<Vec<u8>, NoMemory> {
    let mut bytes = Vec::from_slice(alloc, BEFORE.as_bytes())?;
    for line in lines {
        bytes.extend_from_slice(line.as_bytes())?;
    }
    Ok(bytes)
}

/// Returns the report of the search in two phases.
fn report_two_phases(alloc: Global) -> Result<Vec<u8>, NoMemory> {
    let search = search_part(alloc, false, &TWO_PHASES)?;
    report_with(alloc, Some(search))
}

#[test]
fn lines_of_a_search_are_written(rt: HostRuntime) {
    let alloc = rt.alloc();
    let reports = [report_with(alloc, None), report_two_phases(alloc)];
    let due = [expected(alloc, &[]), expected(alloc, &[TWO_PHASES_TEXT])];
    compare(&rt, reports, due);
}

/// Returns the report of a node with two samples in this state.
fn report_state(alloc: Global, state: NodeState) -> Result<Vec<u8>, NoMemory> {
    let row = Row {
        state,
        seen: 2,
        value: 120,
        ticks: 200,
        from: 300,
        to: 500,
        ..WAITS
    };
    let search = search_part(alloc, false, &[row])?;
    report_with(alloc, Some(search))
}

/// Returns what is due of the first state of which something else is written.
fn first_other(alloc: Global) -> Result<Option<&'static str>, NoMemory> {
    let start = "search nodes 1\nnode 0 phase global parent none Never /Code,/Machine,/SyncObject ";
    for (state, text) in STATES {
        if report_state(alloc, state)? != expected(alloc, &[start, text, "\n"])? {
            return Ok(Some(text));
        }
    }
    Ok(None)
}

#[test]
fn each_state_is_written(rt: HostRuntime) {
    compare(&rt, first_other(rt.alloc()), Ok(None));
}

/// Returns whether the report of a full search begins as it says so, and ends with its last node.
fn report_full(alloc: Global) -> Result<[bool; 2], NoMemory> {
    let mut rows = Vec::new(alloc);
    for _ in 0..MAX_NODES {
        rows.push(WAITS)?;
    }
    let search = search_part(alloc, true, &rows)?;
    let written = report_with(alloc, Some(search))?;
    let start = expected(alloc, &["search nodes 4096 full\nnode 0 phase global "])?;
    let last =
        b"\nnode 4095 phase global parent none Never /Code,/Machine,/SyncObject waiting seen 0 of 3\n";
    Ok([written.starts_with(&start), written.ends_with(last)])
}

#[test]
fn a_full_search_says_so(rt: HostRuntime) {
    compare(&rt, report_full(rt.alloc()), Ok([true; 2]));
}
