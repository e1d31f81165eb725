//! The Opens of plans, copied and compared.

ghost use Rattle.std.specs.Prelude.{◌≡◌, IfOk};
ghost use Rattle.std.specs.Cmp.Lexicographic.{pointwise};
ghost use Rattle.instrument.specs.Opens as table;

use pn_types::{Act, Cond, NoMemory, Open, Seq, Stmt};
use std::alloc::Global;

/// Returns whether two acts are the same.
fn is_act(one: Act, other: Act) -> bool
    ensures { result ≡ table.is_act one other }
{
    one == other
}

/// Returns whether two conditions are the same.
fn is_cond(one: Cond, other: Cond) -> bool
    ensures { result ≡ table.is_cond one other }
{
    one == other
}

/// Returns whether conditions are the same.
fn are_conds(ones: &[Cond], others: &[Cond]) -> bool
    ensures { result ≡ pointwise table.is_cond ones.now others.now }
{
    if ones.len() != others.len() {
        return false;
    }
    for place in 0..ones.len() {
        if !is_cond(ones[place], others[place]) {
            return false;
        }
    }
    true
}

/// Returns whether two statements are the same.
fn is_stmt(one: &Stmt, other: &Stmt) -> bool
    ensures { result ≡ table.is_stmt one.now other.now }
{
    are_conds(one.conds.as_slice(), other.conds.as_slice()) && is_act(one.act, other.act)
}

/// Returns whether statements are the same.
fn are_stmts(ones: &[Stmt], others: &[Stmt]) -> bool
    ensures { result ≡ pointwise table.is_stmt ones.now others.now }
{
    if ones.len() != others.len() {
        return false;
    }
    for place in 0..ones.len() {
        if !is_stmt(&ones[place], &others[place]) {
            return false;
        }
    }
    true
}

/// Returns whether two Opens are the same.
fn is_open(one: &Open, other: &Open) -> bool
    ensures { result ≡ table.is_open one.now other.now }
{
    one.start == other.start
        && one.len == other.len
        && are_stmts(one.stmts.as_slice(), other.stmts.as_slice())
}

/// Returns whether Opens are the same.
pub fn are_opens(ones: &[Open], others: &[Open]) -> bool
    ensures { result ≡ pointwise table.is_open ones.now others.now }
{
    if ones.len() != others.len() {
        return false;
    }
    for place in 0..ones.len() {
        if !is_open(&ones[place], &others[place]) {
            return false;
        }
    }
    true
}

/// Returns a copy of a statement.
fn copy_stmt(alloc: Global, stmt: &Stmt) -> Result<Stmt, NoMemory>
    ensures { IfOk result (λ copy. copy ≡ stmt.now) }
{
    let conds = Vec::from_slice(alloc, stmt.conds.as_slice())?;
    Ok(Stmt {
        conds: Seq::from_vec(conds),
        act: stmt.act,
    })
}

/// Returns a copy of statements.
fn copy_stmts(alloc: Global, stmts: &[Stmt]) -> Result<Seq<Stmt>, NoMemory>
    ensures { IfOk result (λ copies. copies ≡ stmts.now) }
{
    let mut copies = Vec::new(alloc);
    for stmt in stmts {
        copies.push(copy_stmt(alloc, stmt)?)?;
    }
    Ok(Seq::from_vec(copies))
}

/// Returns a copy of an Open.
fn copy_open(alloc: Global, range: &Open) -> Result<Open, NoMemory>
    ensures { IfOk result (λ copy. copy ≡ range.now) }
{
    Ok(Open {
        start: range.start,
        len: range.len,
        stmts: copy_stmts(alloc, range.stmts.as_slice())?,
    })
}

/// Returns a copy of Opens.
///
/// # Errors
///
/// `NoMemory` where memory runs out.
pub fn copy_opens(alloc: Global, opens: &[Open]) -> Result<Seq<Open>, NoMemory>
    ensures { IfOk result (λ copies. copies ≡ opens.now) }
{
    let mut copies = Vec::new(alloc);
    for range in opens {
        copies.push(copy_open(alloc, range)?)?;
    }
    Ok(Seq::from_vec(copies))
}
