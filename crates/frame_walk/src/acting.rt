//! What statements make of values where there are no arguments.

ghost use Rattle.std.specs.Prelude.{◌≡◌, ◌<◌, ◌≤◌, ◌+◌, [], length};
ghost use Rattle.tramp_spec.specs.Values.{values_after_act, all_hold, compares, values_after, values_behind};

use crate::values::Values;
use pn_types::{Act, Cmp, Cond, Left, Stmt};

/// Whether two numbers compare so, without a sign.
fn compares(cmp: Cmp, left: u64, right: u64) -> bool
    ensures { result ≡ compares cmp left right }
{
    match cmp {
        Cmp::Eq => left == right,
        Cmp::Ne => left != right,
        Cmp::Lt => left < right,
        Cmp::Le => left <= right,
        Cmp::Gt => left > right,
        Cmp::Ge => left >= right,
    }
}

/// Whether all conditions hold.
fn all_hold(conds: &[Cond], values: &Values) -> bool
    ensures { result ≡ all_hold conds.now [] values.now.values }
{
    for cond in conds {
        match cond.left {
            Left::Argument(_) => return false,
            Left::Counter(v) => {
                if !compares(cond.cmp, values.get(v as usize), cond.right as u64) {
                    return false;
                }
            }
        }
    }
    true
}

/// Does what a statement does that acts.
fn perform(act: Act, values: &mut Values)
    requires { values.old.acts < 2112 }
    ensures values { values.new.values ≡ values_after_act act values.old.values }
    ensures acts { values.new.acts ≡ values.old.acts + 1 }
{
    match act {
        Act::Up(v) => values.set(v as usize, values.get(v as usize).wrapping_add(1)),
        Act::Down(v) => values.set(v as usize, values.get(v as usize).saturating_sub(1)),
        Act::Put(v, n) => values.set(v as usize, n as u64),
        Act::Start(v) => values.set(v as usize, values.get(v as usize) + 1),
        Act::Stop(v) => values.set(v as usize, values.get(v as usize).saturating_sub(1)),
    }
}

/// Lets a statement act, where all its conditions hold.
fn pass(stmt: &Stmt, values: &mut Values)
    requires { values.old.acts < 2112 }
    ensures values { values.new.values ≡ values_behind stmt.now [] values.old.values }
    ensures acts { values.new.acts ≤ values.old.acts + 1 }
{
    if all_hold(stmt.conds.as_slice(), values) {
        perform(stmt.act, values);
    }
}

/// Lets statements act, one after another.
pub fn pass_all(stmts: &[Stmt], values: &mut Values)
    requires few { length stmts.now ≤ 32 }
    requires left { values.old.acts + 32 ≤ 2112 }
    ensures values { values.new.values ≡ values_after stmts.now [] values.old.values }
    ensures acts { values.new.acts ≤ values.old.acts + 32 }
{
    for stmt in stmts {
        pass(stmt, values);
    }
}
