//! The call for plans.

use crate::language::checks::checked;
use crate::language::programs::{main_alone, tree_of};
use crate::language::texts::{shown, split};
use mdl_ast::Conf;
use mdl_check::Checked;
use mdl_parse::parse;
use mdl_plan::{PlanIndex, plan};
use mdl_shipped::shipped;
use pn_types::{CodePart, Focus, Plan, Point, Proc, Seq};
use resource_tree::Tree;
use std::alloc::Global;
use std::io;

/// The points of a procedure of two words that calls first and returns then.
const POINTS: [Point; 2] = [
    Point {
        at: 0x10000,
        proc_no: 0,
        entry: true,
        after: false,
        ret: false,
        call: true,
    },
    Point {
        at: 0x10004,
        proc_no: 0,
        entry: false,
        after: true,
        ret: true,
        call: false,
    },
];

/// Prints the names of the variables, and how many statements each site has.
fn print_sites(rt: &impl Print, plan: &Plan) -> io::Result<()> {
    for var in plan.vars.as_slice() {
        let name = shown(var.name.bytes());
        println!(rt; "variable {name}")?;
    }
    for site in plan.sites.as_slice() {
        let at = site.at;
        let count = site.stmts.as_slice().len();
        println!(rt; "at {at:#x} statements {count}")?;
    }
    Ok(())
}

/// Prints the ranges of the procedures that are told, and how many statements each has.
fn print_opens(rt: &impl Print, plan: &Plan) -> io::Result<()> {
    for range in plan.opens.as_slice() {
        let start = range.start;
        let len = range.len;
        let count = range.stmts.as_slice().len();
        println!(rt; "open {start:#x} length {len} statements {count}")?;
    }
    Ok(())
}

fn print_parts(rt: &impl Print, plan: &Plan) -> io::Result<()> {
    print_sites(rt, plan)?;
    print_opens(rt, plan)
}

/// A metric at a focus of a program.
#[derive(Clone, Copy)]
struct Asked<'a> {
    metric: u32,
    focus: Focus,
    tree: &'a Tree,
    index: &'a PlanIndex,
}

fn print_planned(
    rt: &impl Print,
    alloc: Global,
    checked: &Checked,
    asked: &Asked<'_>,
) -> io::Result<()> {
    if asked.metric as usize >= checked.metrics.as_slice().len() {
        return println!(rt; "no metric");
    }
    match plan(
        alloc,
        checked,
        asked.metric,
        &asked.focus,
        asked.tree,
        asked.index,
    ) {
        Ok(plan) => print_parts(rt, &plan),
        Err(error) => println!(rt; "{error:?}"),
    }
}

fn print_for(
    rt: &impl Print,
    alloc: Global,
    conf: &Conf,
    shipped: &Conf,
    asked: &Asked<'_>,
) -> io::Result<()> {
    match checked(alloc, conf, shipped, asked.tree) {
        Ok(checked) => print_planned(rt, alloc, &checked, asked),
        Err(error) => println!(rt; "{error:?}"),
    }
}

fn print_shipped(rt: &impl Print, alloc: Global, conf: &Conf, asked: &Asked<'_>) -> io::Result<()> {
    let shipped = shipped(alloc)?;
    print_for(rt, alloc, conf, &shipped, asked)
}

fn print_asked(rt: &impl Print, alloc: Global, asked: &Asked<'_>) -> io::Result<()> {
    match parse(alloc, b"include metrics;") {
        Ok(conf) => print_shipped(rt, alloc, &conf, asked),
        Err(error) => println!(rt; "{error:?}"),
    }
}

fn print_over(
    rt: &impl Print,
    alloc: Global,
    metric: u32,
    focus: Focus,
    procs: Vec<Proc>,
) -> io::Result<()> {
    let Some(tree) = tree_of(alloc, &procs, &[], 1, &[]) else {
        return println!(rt; "no tree");
    };
    if procs.len() > 1 {
        return println!(rt; "no program");
    }
    let points = Vec::from_slice(alloc, &POINTS)?;
    let index = PlanIndex::new(alloc, Seq::from_vec(procs), Seq::from_vec(points))?;
    let asked = Asked {
        metric,
        focus,
        tree: &tree,
        index: &index,
    };
    print_asked(rt, alloc, &asked)
}

/// Prints the plan of a metric at a focus.
///
/// # Errors
///
/// Where the output can't be written, or memory runs out.
pub fn print_plan(rt: &impl Print, alloc: Global, rest: &str) -> io::Result<()> {
    let (metric, object) = split(rest);
    let focus = Focus {
        code: CodePart::All,
        hart: None,
        object: object.parse().ok(),
    };
    let procs = main_alone(alloc)?;
    print_over(rt, alloc, metric.parse().unwrap_or(0), focus, procs)
}
