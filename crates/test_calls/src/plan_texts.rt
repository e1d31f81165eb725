//! The points of a program of two procedures, and a plan.

use crate::comparison::compare;
use pn_types::{Act, Cmp, Cond, Left, NoMemory, Plan, Point, Proc, Seq, Site, Stmt, Text, Var};
use report::{plan_text, points_text};
use std::alloc::Global;

fn text(alloc: Global, bytes: &[u8]) -> Result<Text, NoMemory> {
    Ok(Text::from_vec(Vec::from_slice(alloc, bytes)?))
}

fn procedure(alloc: Global, name: &[u8], start: u64, len: u64) -> Result<Proc, NoMemory> {
    Ok(Proc {
        name: text(alloc, name)?,
        module: text(alloc, b"program")?,
        start,
        len,
    })
}

/// Returns a point with its kinds in the order entry, after, return and call.
fn point(at: u64, proc_no: u32, kinds: (bool, bool, bool, bool)) -> Point {
    let (entry, after, ret, call) = kinds;
    Point {
        at,
        proc_no,
        entry,
        after,
        ret,
        call,
    }
}

/// Returns the text of the points of main, which calls f twice, and of f.
fn write_points(alloc: Global) -> Result<Vec<u8>, NoMemory> {
    let main = procedure(alloc, b"main", 0x10000, 16)?;
    let f = procedure(alloc, b"f", 0x10010, 4)?;
    let points = [
        point(0x10000, 0, (true, false, false, true)),
        point(0x10004, 0, (false, true, false, true)),
        point(0x10008, 0, (false, true, false, false)),
        point(0x10010, 1, (true, false, true, false)),
    ];
    points_text(alloc, &[main, f], &points, 0)
}

#[test]
fn points_are_written(rt: HostRuntime) {
    let expected = b"points 4 skipped 0\n\
        0x10000 program/main entry call\n\
        0x10004 program/main after call\n\
        0x10008 program/main after\n\
        0x10010 program/f entry return\n";
    let alloc = rt.alloc();
    compare(&rt, write_points(alloc), Vec::from_slice(alloc, expected));
}

fn variable(alloc: Global, name: &[u8], timer: bool) -> Result<Var, NoMemory> {
    Ok(Var {
        name: text(alloc, name)?,
        timer,
        initially: 0,
    })
}

fn statement(alloc: Global, act: Act) -> Stmt {
    Stmt {
        conds: Seq::from_vec(Vec::new(alloc)),
        act,
    }
}

fn site(alloc: Global, at: u64, first: Stmt, second: Stmt) -> Result<Site, NoMemory> {
    let stmts = Seq::from_vec(vec![in alloc; first, second]?);
    Ok(Site { at, stmts })
}

/// Returns the time of waiting in a procedure.
fn plan(alloc: Global) -> Result<Plan, NoMemory> {
    let timer = variable(alloc, b"sync_wait", true)?;
    let counter = variable(alloc, b"in_proc", false)?;
    let inside = Cond {
        left: Left::Counter(1),
        cmp: Cmp::Ne,
        right: 0,
    };
    let start = Stmt {
        conds: Seq::from_vec(vec![in alloc; inside]?),
        act: Act::Start(0),
    };
    let entry = site(alloc, 0x10014, statement(alloc, Act::Up(1)), start)?;
    let stop = statement(alloc, Act::Stop(0));
    let ret = site(alloc, 0x1002c, stop, statement(alloc, Act::Down(1)))?;
    Ok(Plan {
        vars: Seq::from_vec(vec![in alloc; timer, counter]?),
        sites: Seq::from_vec(vec![in alloc; entry, ret]?),
        opens: Seq::from_vec(Vec::new(alloc)),
    })
}

const FOCUS: &[u8] = b"/Code/program/lock_acquire,/Machine,/SyncObject";

/// Returns the text of the plan.
fn write_plan(alloc: Global) -> Result<Vec<u8>, NoMemory> {
    let plan = plan(alloc)?;
    plan_text(alloc, b"sync_wait", FOCUS, 40, &plan)
}

#[test]
fn plans_are_written(rt: HostRuntime) {
    let expected = b"plan sync_wait /Code/program/lock_acquire,/Machine,/SyncObject words 40\n\
        variable sync_wait timer initially 0\n\
        variable in_proc counter initially 0\n\
        at 0x10014 in_proc++;\n\
        at 0x10014 if (in_proc != 0) start(sync_wait);\n\
        at 0x1002c stop(sync_wait);\n\
        at 0x1002c in_proc--;\n";
    let alloc = rt.alloc();
    compare(&rt, write_plan(alloc), Vec::from_slice(alloc, expected));
}
