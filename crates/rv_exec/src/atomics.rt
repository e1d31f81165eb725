//! Atomic accesses.

ghost use Rattle.std.specs.Prelude.{◌≡◌, ◌<◌, ◌%◌, ◌^◌, Ok, length, List, ℕ, Option, IfOk, IfErr, None};
ghost use Rattle.rv_word.specs.Exec.{Outcome, Stops, Prog, perform, done_of_outcome, prog_of, stop_of, atomic, exec_instr};
ghost use Rattle.rv_word.specs.Memory.{load};
ghost use Rattle.rv_word.specs.Values.{atomic_len, answered, less_signed, less_unsigned, left_by};
ghost use Rattle.rv_word.specs.Forms.{IsAtomic};
ghost use Rattle.rv_word.specs.Words.{HasWord};
ghost use Rattle.rv_word.specs.declared.action.Action.TheVariants.{LoadReserved, StoreConditional, AtomicAccess};
ghost use Rattle.rv_exec.specs.AtomicAccesses.{answering};
ghost use Rattle.rv_exec.specs.Gives.{IsExecuted, state_from, next_after};

use crate::outcomes::{cause_of, next_pc};
use crate::regs::Regs;
use crate::reservations::Reservations;
use crate::values::low_word_of;
use pn_types::HartNo;
use rv_mem::Mem;
use rv_word::{AmoOp, AtomicWidth, Cause, Instr};

fn atomic_width(width: AtomicWidth) -> u32
    ensures { result ≡ atomic_len width }
{
    match width {
        AtomicWidth::Word => 4,
        AtomicWidth::Doubleword => 8,
    }
}

/// What an atomic access puts into rd for the number in its bytes.
fn answer(width: AtomicWidth, n: u64) -> u64
    requires { n < 256 ^ atomic_len width }
    ensures { result ≡ answered width n }
{
    match width {
        AtomicWidth::Word => low_word_of(n),
        AtomicWidth::Doubleword => n,
    }
}

fn is_less_signed(width: AtomicWidth, x: u64, y: u64) -> bool
    ensures { result ≡ less_signed width x y }
{
    match width {
        AtomicWidth::Word => {
            let x = (x % 0x1_0000_0000) as u32;
            let y = (y % 0x1_0000_0000) as u32;
            x.cast_signed() < y.cast_signed()
        }
        AtomicWidth::Doubleword => x.cast_signed() < y.cast_signed(),
    }
}

fn is_less_unsigned(width: AtomicWidth, x: u64, y: u64) -> bool
    ensures { result ≡ less_unsigned width x y }
{
    match width {
        AtomicWidth::Word => x % 0x1_0000_0000 < y % 0x1_0000_0000,
        AtomicWidth::Doubleword => x < y,
    }
}

/// The number whose low bytes the operation leaves where the number `old` was.
fn amo_result(op: AmoOp, width: AtomicWidth, old: u64, value: u64) -> u64
    ensures { result ≡ left_by op width old value }
{
    match op {
        AmoOp::Swap => value,
        AmoOp::Add => old.wrapping_add(value),
        AmoOp::Xor => old ^ value,
        AmoOp::And => old & value,
        AmoOp::Or => old | value,
        AmoOp::Min if is_less_signed(width, old, value) => old,
        AmoOp::Min => value,
        AmoOp::Max if is_less_signed(width, old, value) => value,
        AmoOp::Max => old,
        AmoOp::Minu if is_less_unsigned(width, old, value) => old,
        AmoOp::Minu => value,
        AmoOp::Maxu if is_less_unsigned(width, old, value) => value,
        AmoOp::Maxu => old,
    }
}

/// The number at an address, or why it may not be accessed. The alignment is looked at first.
fn read(width: AtomicWidth, at: u64, mem: &Mem) -> Result<u64, Cause>
    ensures aligned { IfOk result (λ n. at % atomic_len width ≡ 0) }
    ensures value { IfOk result (λ n. load (atomic_len width) mem.now at ≡ Ok n) }
    ensures bound { IfOk result (λ n. n < 256 ^ atomic_len width) }
    ensures refused { IfErr result (λ cause. (resv : List (Option ℕ)) (out : List ℕ) (f : ℕ → Outcome)
        → atomic width at (prog_of mem.now resv out) f ≡ Stops cause (prog_of mem.now resv out)) }
{
    let n = atomic_width(width);
    if at % n as u64 != 0 {
        return Err(Cause::Misaligned);
    }
    match mem.load(at, n) {
        Ok(old) => Ok(old),
        Err(e) => Err(cause_of(e)),
    }
}

/// An LR. Returns the number at the address.
#[tactic(auto, unfolding(rv_word::specs::Exec::perform))]
fn load_reserved(
    width: AtomicWidth,
    hart: HartNo,
    at: u64,
    mem: &Mem,
    resv: &mut Reservations,
) -> Result<u64, Cause>
    requires { hart < length resv.old }
    ensures harts { length resv.new ≡ length resv.old }
    ensures value { (rd pc : ℕ) (regs out : List ℕ)
        → done_of_outcome (perform hart (LoadReserved width rd at) pc regs (prog_of mem.now resv.old out)) regs
        ≡ answering result rd pc regs (prog_of mem.now resv.new out) }
{
    let old = read(width, at, mem)?;
    resv.set(hart, Some(at / 8));
    Ok(answer(width, old))
}

/// An SC. It clears the hart's reservation, also where it stops. Returns 0 where it stored, and 1 where the hart had no
/// reservation.
#[tactic(auto, unfolding(rv_word::specs::Exec::perform))]
fn store_conditional(
    width: AtomicWidth,
    hart: HartNo,
    at: u64,
    value: u64,
    mem: &mut Mem,
    resv: &mut Reservations,
) -> Result<u64, Cause>
    requires { hart < length resv.old }
    ensures harts { length resv.new ≡ length resv.old }
    ensures value { (rd pc : ℕ) (regs out : List ℕ)
        → done_of_outcome (perform hart (StoreConditional width rd at value) pc regs (prog_of mem.old resv.old out)) regs
        ≡ answering result rd pc regs (prog_of mem.new resv.new out) }
{
    let has_reserved = resv.has(hart, at / 8);
    resv.set(hart, None);
    read(width, at, mem)?;
    if !has_reserved {
        return Ok(1);
    }
    match mem.store(at, atomic_width(width), value) {
        Ok(()) => {
            resv.break_others(hart, at / 8, at / 8);
            Ok(0)
        }
        Err(e) => Err(cause_of(e)),
    }
}

/// An AMO. Returns the number that was at the address.
#[tactic(auto, unfolding(rv_word::specs::Exec::perform))]
fn amo(
    op: AmoOp,
    width: AtomicWidth,
    hart: HartNo,
    at: u64,
    value: u64,
    mem: &mut Mem,
    resv: &mut Reservations,
) -> Result<u64, Cause>
    requires { hart < length resv.old }
    ensures harts { length resv.new ≡ length resv.old }
    ensures value { (rd pc : ℕ) (regs out : List ℕ)
        → done_of_outcome (perform hart (AtomicAccess op width rd at value) pc regs (prog_of mem.old resv.old out)) regs
        ≡ answering result rd pc regs (prog_of mem.new resv.new out) }
{
    let old = read(width, at, mem)?;
    match mem.store(at, atomic_width(width), amo_result(op, width, old, value)) {
        Ok(()) => {
            resv.break_others(hart, at / 8, at / 8);
            Ok(answer(width, old))
        }
        Err(e) => Err(cause_of(e)),
    }
}

/// Puts the value into rd, or notes the cause of a stop. Returns the next pc.
fn put_answer(
    answer: Result<u64, Cause>,
    rd: u32,
    pc: u64,
    stop: &mut Option<Cause>,
    regs: &mut Regs,
) -> u64
    requires rd { rd < 32 }
    requires stop { stop.old ≡ None }
    ensures { (p : Prog) → answering answer rd pc regs.old p ≡ record { next = next_after stop.new result; regs = regs.new; prog = p } }
{
    match answer {
        Ok(value) => {
            regs.set(rd, value);
            next_pc(pc)
        }
        Err(cause) => {
            *stop = Some(cause);
            pc
        }
    }
}

/// Executes an atomic access at pc. Returns the next pc, and notes the cause if the hart stops.
#[inline(never)]
#[tactic(auto, unfolding(rv_word::specs::Exec::action))]
pub fn access(
    instr: Instr,
    hart: HartNo,
    pc: u64,
    stop: &mut Option<Cause>,
    regs: &mut Regs,
    mem: &mut Mem,
    resv: &mut Reservations,
) -> u64
    requires form { IsAtomic instr }
    requires word { HasWord instr }
    requires hart { hart < length resv.old }
    requires stop { stop.old ≡ None }
    ensures harts { length resv.new ≡ length resv.old }
    ensures state { (out : List ℕ) → IsExecuted (exec_instr instr pc hart)
        (state_from regs.old mem.old resv.old out) (next_after stop.new result) (state_from regs.new mem.new resv.new out) }
{
    match instr {
        Instr::Lr { width, rd, rs1, .. } => {
            let answer = load_reserved(width, hart, regs.get(rs1), mem, resv);
            put_answer(answer, rd, pc, stop, regs)
        }
        Instr::Sc {
            width,
            rd,
            rs1,
            rs2,
            ..
        } => {
            let (at, value) = (regs.get(rs1), regs.get(rs2));
            let answer = store_conditional(width, hart, at, value, mem, resv);
            put_answer(answer, rd, pc, stop, regs)
        }
        Instr::Amo {
            op,
            width,
            rd,
            rs1,
            rs2,
            ..
        } => {
            let (at, value) = (regs.get(rs1), regs.get(rs2));
            let answer = amo(op, width, hart, at, value, mem, resv);
            put_answer(answer, rd, pc, stop, regs)
        }
        _ => unreachable!(),
    }
}
