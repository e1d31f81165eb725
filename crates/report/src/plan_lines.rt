//! The text of a plan.

ghost use Rattle.std.specs.Prelude.{◌≡◌, ◌++◌, if◌then◌else◌, codes, flat_map, OnOk, IfOk};
ghost use Rattle.std.specs.Fmt.{decimal};
ghost use Rattle.report.specs.PlanTexts.{var_name, left_text, cond_text, act_text, stmt_line, site_lines, var_line, plan_head, plan_text};

use pn_types::{Act, Cond, Left, NoMemory, Plan, Site, Stmt, Var};
use std::alloc::Global;

/// The first line.
fn add_head(
    alloc: Global,
    out: &mut Vec<u8>,
    metric: &[u8],
    focus: &[u8],
    words: u64,
) -> Result<(), NoMemory>
    ensures { OnOk result (out.new.items ≡ out.old.items ++ plan_head metric.now focus.now words) }
{
    out.extend_from_slice(b"plan ")?;
    out.extend_from_slice(metric)?;
    out.extend_from_slice(b" ")?;
    out.extend_from_slice(focus)?;
    let rest = format!(in alloc; " words {words}\n")?;
    out.extend_from_slice(rest.as_bytes())
}

/// Whether a variable is a timer.
fn add_kind(out: &mut Vec<u8>, timer: bool) -> Result<(), NoMemory>
    ensures { OnOk result (out.new.items ≡ out.old.items ++ (if timer then codes " timer" else codes " counter")) }
{
    if timer {
        out.extend_from_slice(b" timer")
    } else {
        out.extend_from_slice(b" counter")
    }
}

/// What a variable is at first.
fn add_initially(alloc: Global, out: &mut Vec<u8>, initially: u32) -> Result<(), NoMemory>
    ensures { OnOk result (out.new.items ≡ out.old.items ++ (codes " initially " ++ (decimal initially ++ codes "\n"))) }
{
    let rest = format!(in alloc; " initially {initially}\n")?;
    out.extend_from_slice(rest.as_bytes())
}

/// The line of a variable.
fn add_var(alloc: Global, out: &mut Vec<u8>, var: &Var) -> Result<(), NoMemory>
    ensures { OnOk result (out.new.items ≡ out.old.items ++ var_line var.now) }
{
    out.extend_from_slice(b"variable ")?;
    out.extend_from_slice(var.name.bytes())?;
    add_kind(out, var.timer)?;
    add_initially(alloc, out, var.initially)
}

/// The lines of all variables.
fn add_vars(alloc: Global, out: &mut Vec<u8>, vars: &[Var]) -> Result<(), NoMemory>
    ensures { OnOk result (out.new.items ≡ out.old.items ++ flat_map var_line vars.now) }
{
    for var in vars {
        add_var(alloc, out, var)?;
    }
    Ok(())
}

/// The name of the variable of a number, if there is one.
fn add_name(out: &mut Vec<u8>, vars: &[Var], number: u32) -> Result<(), NoMemory>
    ensures { OnOk result (out.new.items ≡ out.old.items ++ var_name vars.now number) }
{
    match vars.get(number as usize) {
        Some(var) => out.extend_from_slice(var.name.bytes()),
        None => Ok(()),
    }
}

/// An argument of the procedure.
fn add_argument(alloc: Global, out: &mut Vec<u8>, number: u8) -> Result<(), NoMemory>
    ensures { OnOk result (out.new.items ≡ out.old.items ++ (codes "$arg[" ++ (decimal number ++ codes "]"))) }
{
    let argument = format!(in alloc; "$arg[{number}]")?;
    out.extend_from_slice(argument.as_bytes())
}

/// The left side of a condition.
fn add_left(alloc: Global, out: &mut Vec<u8>, vars: &[Var], left: Left) -> Result<(), NoMemory>
    ensures { OnOk result (out.new.items ≡ out.old.items ++ left_text vars.now left) }
{
    match left {
        Left::Counter(number) => add_name(out, vars, number),
        Left::Argument(number) => add_argument(alloc, out, number),
    }
}

/// A condition, and the space after it.
fn add_cond(alloc: Global, out: &mut Vec<u8>, vars: &[Var], cond: &Cond) -> Result<(), NoMemory>
    ensures { OnOk result (out.new.items ≡ out.old.items ++ cond_text vars.now cond.now) }
{
    out.extend_from_slice(b"if (")?;
    add_left(alloc, out, vars, cond.left)?;
    out.extend_from_slice(b" ")?;
    out.extend_from_slice(cond.cmp.text())?;
    let right = cond.right;
    let rest = format!(in alloc; " {right}) ")?;
    out.extend_from_slice(rest.as_bytes())
}

/// All conditions of a statement.
fn add_conds(alloc: Global, out: &mut Vec<u8>, vars: &[Var], conds: &[Cond]) -> Result<(), NoMemory>
    ensures { OnOk result (out.new.items ≡ out.old.items ++ flat_map (cond_text vars.now) conds.now) }
{
    for cond in conds {
        add_cond(alloc, out, vars, cond)?;
    }
    Ok(())
}

/// The name of a variable between two texts.
fn add_around(
    out: &mut Vec<u8>,
    before: &[u8],
    vars: &[Var],
    number: u32,
    behind: &[u8],
) -> Result<(), NoMemory>
    ensures { OnOk result (out.new.items ≡ out.old.items ++ (before.now ++ (var_name vars.now number ++ behind.now))) }
{
    out.extend_from_slice(before)?;
    add_name(out, vars, number)?;
    out.extend_from_slice(behind)
}

/// A counter becomes a number.
fn add_put(
    alloc: Global,
    out: &mut Vec<u8>,
    vars: &[Var],
    counter: u32,
    number: u32,
) -> Result<(), NoMemory>
    ensures { OnOk result (out.new.items ≡ out.old.items ++ (var_name vars.now counter ++ (codes " = " ++ (decimal number ++ codes ";")))) }
{
    add_name(out, vars, counter)?;
    let rest = format!(in alloc; " = {number};")?;
    out.extend_from_slice(rest.as_bytes())
}

/// What a statement does.
fn add_act(alloc: Global, out: &mut Vec<u8>, vars: &[Var], act: Act) -> Result<(), NoMemory>
    ensures { OnOk result (out.new.items ≡ out.old.items ++ act_text vars.now act) }
{
    match act {
        Act::Up(counter) => add_around(out, b"", vars, counter, b"++;"),
        Act::Down(counter) => add_around(out, b"", vars, counter, b"--;"),
        Act::Put(counter, number) => add_put(alloc, out, vars, counter, number),
        Act::Start(timer) => add_around(out, b"start(", vars, timer, b");"),
        Act::Stop(timer) => add_around(out, b"stop(", vars, timer, b");"),
    }
}

/// The line of a statement at an address.
fn add_stmt(
    alloc: Global,
    out: &mut Vec<u8>,
    vars: &[Var],
    at: u64,
    stmt: &Stmt,
) -> Result<(), NoMemory>
    ensures { OnOk result (out.new.items ≡ out.old.items ++ stmt_line vars.now at stmt.now) }
{
    let address = format!(in alloc; "at 0x{at:x} ")?;
    out.extend_from_slice(address.as_bytes())?;
    add_conds(alloc, out, vars, stmt.conds.as_slice())?;
    add_act(alloc, out, vars, stmt.act)?;
    out.extend_from_slice(b"\n")
}

/// The lines of all statements of a site.
fn add_site(alloc: Global, out: &mut Vec<u8>, vars: &[Var], site: &Site) -> Result<(), NoMemory>
    ensures { OnOk result (out.new.items ≡ out.old.items ++ site_lines vars.now site.now) }
{
    for stmt in site.stmts.as_slice() {
        add_stmt(alloc, out, vars, site.at, stmt)?;
    }
    Ok(())
}

/// The lines of all sites.
fn add_sites(alloc: Global, out: &mut Vec<u8>, vars: &[Var], sites: &[Site]) -> Result<(), NoMemory>
    ensures { OnOk result (out.new.items ≡ out.old.items ++ flat_map (site_lines vars.now) sites.now) }
{
    for site in sites {
        add_site(alloc, out, vars, site)?;
    }
    Ok(())
}

/// Returns the text of the plan of a metric at a focus: a line `plan METRIC FOCUS words N`, where N is its predicted cost in
/// words; then for each variable a line `variable NAME timer initially N` or `variable NAME counter initially N`; and
/// then for each statement, in the order of the sites, a line `at 0xADDRESS STATEMENT`. A statement has the form that it
/// has in a configuration, as `if (in_proc != 0) start(sync_wait);`: its conditions, the outermost first, each with its
/// number in decimal, and what it does. Variables have their names in the plan. Where a variable's number is none of the
/// plan's, nothing stands in place of its name.
///
/// # Errors
///
/// `NoMemory` where memory runs out.
pub fn plan_text(
    alloc: Global,
    metric: &[u8],
    focus: &[u8],
    words: u64,
    plan: &Plan,
) -> Result<Vec<u8>, NoMemory>
    ensures { IfOk result (λ text. text.items ≡ plan_text metric.now focus.now words plan.now) }
{
    let vars = plan.vars.as_slice();
    let mut out = Vec::new(alloc);
    add_head(alloc, &mut out, metric, focus, words)?;
    add_vars(alloc, &mut out, vars)?;
    add_sites(alloc, &mut out, vars, plan.sites.as_slice())?;
    Ok(out)
}
