//! Statements as words.

ghost use Rattle.std.specs.Prelude.{◌≡◌, ◌+◌, ◌<◌, ◌≤◌, ◌^◌, ◌++◌, List, length, vec_len, vec_capacity};
ghost use Rattle.rv_word.specs.declared.instr.Instr.{Instr};
ghost use Rattle.tramp_spec.specs.MovedWords.{tools};
ghost use Rattle.tramp_spec.specs.Statements as table;
ghost use Rattle.prim_code.specs.Counts as counts;
ghost use Rattle.prim_code.specs.Named as named;

use crate::acts::{down, put, start, stop, up};
use crate::conditions::{argument_words, counter_words};
use crate::counting::{cond_words, stmt_words};
use pn_types::{Act, Cond, Left, Stmt};
use rv_word::{Instr, encode};
use tramp_spec::MarkedWord;

/// Appends the words of instructions.
fn append(out: &mut Vec<MarkedWord>, instrs: &[Instr])
    requires { vec_len out.old + length instrs.now ≤ vec_capacity out.old }
    ensures words { out.new.items ≡ out.old.items ++ tools instrs.now }
    ensures len { vec_len out.new ≡ vec_len out.old + length instrs.now }
    ensures capacity { vec_capacity out.new ≡ vec_capacity out.old }
{
    for instr in instrs {
        out.push_reserved(MarkedWord::tool(encode(instr)));
    }
}

/// The first slot of a variable.
fn slot_of(slots: &[u32], variable: u32) -> u64
    requires { variable < length slots.now }
    ensures slot { result ≡ table.slot_of slots.now variable }
    ensures narrow { result < 2 ^ 32 }
{
    u64::from(slots[variable as usize])
}

/// Appends a condition's words, before a rest of `rest` words.
fn append_cond(cond: &Cond, slots: &[u32], rest: u32, out: &mut Vec<MarkedWord>)
    requires named { named.IsLeftBelow (length slots.now) cond.now.left }
    requires room { vec_len out.old + counts.cond_words cond.now ≤ vec_capacity out.old }
    ensures words { (after : List Instr) → length after ≡ rest
        → out.new.items ++ tools after
        ≡ out.old.items ++ tools (table.guarded slots.now cond.now.left cond.now.cmp cond.now.right after) }
    ensures len { vec_len out.new ≡ vec_len out.old + counts.cond_words cond.now }
    ensures capacity { vec_capacity out.new ≡ vec_capacity out.old }
{
    let Cond { left, cmp, right } = *cond;
    match left {
        Left::Counter(counter) => {
            append(
                out,
                &counter_words(slot_of(slots, counter), cmp, right, rest),
            );
        }
        Left::Argument(argument) => append(out, &argument_words(argument, cmp, right, rest)),
    }
}

/// Appends an act's words.
fn append_act(act: Act, slots: &[u32], out: &mut Vec<MarkedWord>)
    requires named { named.changed_variable act < length slots.now }
    requires room { vec_len out.old + counts.act_words act ≤ vec_capacity out.old }
    ensures words { out.new.items ≡ out.old.items ++ tools (table.act_code slots.now act) }
    ensures len { vec_len out.new ≡ vec_len out.old + counts.act_words act }
    ensures capacity { vec_capacity out.new ≡ vec_capacity out.old }
{
    match act {
        Act::Up(counter) => append(out, &up(slot_of(slots, counter))),
        Act::Down(counter) => append(out, &down(slot_of(slots, counter))),
        Act::Put(counter, n) => append(out, &put(slot_of(slots, counter), n)),
        Act::Start(timer) => append(out, &start(slot_of(slots, timer))),
        Act::Stop(timer) => append(out, &stop(slot_of(slots, timer))),
    }
}

/// Appends a statement's words.
fn append_stmt(stmt: &Stmt, slots: &[u32], out: &mut Vec<MarkedWord>)
    requires named { named.IsStmtBelow (length slots.now) stmt.now }
    requires count { counts.stmt_words stmt.now < 2 ^ 32 }
    requires room { vec_len out.old + counts.stmt_words stmt.now ≤ vec_capacity out.old }
    ensures words { out.new.items ≡ out.old.items
        ++ tools (table.under slots.now stmt.now.conds (table.act_code slots.now stmt.now.act)) }
    ensures len { vec_len out.new ≡ vec_len out.old + counts.stmt_words stmt.now }
    ensures capacity { vec_capacity out.new ≡ vec_capacity out.old }
{
    let mut rest = stmt_words(stmt);
    let mut conds = stmt.conds.as_slice();
    while let Some((cond, inner)) = conds.split_first() {
        rest -= cond_words(cond);
        append_cond(cond, slots, rest, out);
        conds = inner;
    }
    append_act(stmt.act, slots, out);
}

/// Appends the words of statements, the variable of each number having its slot, or the first of its two, in `slots`. The
/// vector has room for them, so no memory is taken.
pub fn compile(stmts: &[Stmt], slots: &[u32], out: &mut Vec<MarkedWord>)
    requires named { named.AreBelow (length slots.now) stmts.now }
    requires count { counts.word_count stmts.now < 2 ^ 32 }
    requires room { vec_len out.old + counts.word_count stmts.now ≤ vec_capacity out.old }
    ensures words { out.new.items ≡ out.old.items ++ table.body_of slots.now stmts.now }
    ensures len { vec_len out.new ≡ vec_len out.old + counts.word_count stmts.now }
    ensures capacity { vec_capacity out.new ≡ vec_capacity out.old }
{
    for stmt in stmts {
        append_stmt(stmt, slots, out);
    }
}
