//! What the forms of instructions do to the pc, the registers, the memory and the reservations. Each step returns whether
//! the hart goes on, and else notes the cause of the stop.

ghost use Rattle.std.specs.Prelude.{true, ◌≡◌, ◌<◌, length, List, ℕ, Option, None, is_none};
ghost use Rattle.rv_word.specs.Exec.{Prog, perform, next};
ghost use Rattle.rv_word.specs.Registers.{reg, with_reg};
ghost use Rattle.rv_word.specs.Values.{imm_value, shift_value, shift_word_value, reg_value, reg_32_value, store_len};
ghost use Rattle.rv_word.specs.declared.action.Action.TheVariants.{Jump, BranchTo, ReadMemory, WriteMemory};
ghost use Rattle.rv_exec.specs.Gives.{IsExecuted, state_from, state_of, next_after};
ghost use Rattle.rv_exec.specs.Shared.{prog_in};

use crate::outcomes::{cause_of, next_pc};
use crate::regs::Regs;
use crate::shared::Shared;
use crate::values::{
    imm_result, load_result, load_width, reg_32_result, reg_result, shift_result,
    shift_word_result, store_width,
};
use pn_types::HartNo;
use rv_mem::Mem;
use rv_word::{Cause, ImmOp, LoadOp, RegOp, RegOp32, ShiftOp, StoreOp};

/// Puts the value into rd, and goes on at the next word.
pub fn compute(rd: u32, value: u64, pc: &mut u64, regs: &mut Regs) -> bool
    requires { rd < 32 }
    ensures goes { result ≡ true }
    ensures pc { pc.new ≡ next pc.old }
    ensures regs { regs.new ≡ with_reg regs.old rd value }
{
    regs.set(rd, value);
    *pc = next_pc(*pc);
    true
}

/// An operation on a register and an immediate.
pub fn immediate(op: ImmOp, rd: u32, rs1: u32, imm: u64, pc: &mut u64, regs: &mut Regs) -> bool
    requires { (rd < 32) × (rs1 < 32) }
    ensures goes { result ≡ true }
    ensures pc { pc.new ≡ next pc.old }
    ensures regs { regs.new ≡ with_reg regs.old rd (imm_value op (reg regs.old rs1) imm) }
{
    compute(rd, imm_result(op, regs.get(rs1), imm), pc, regs)
}

/// A shift by a number of bits below 64.
pub fn shift(op: ShiftOp, rd: u32, rs1: u32, by: u32, pc: &mut u64, regs: &mut Regs) -> bool
    requires { (rd < 32) × (rs1 < 32) × (by < 64) }
    ensures goes { result ≡ true }
    ensures pc { pc.new ≡ next pc.old }
    ensures regs { regs.new ≡ with_reg regs.old rd (shift_value op (reg regs.old rs1) by) }
{
    compute(rd, shift_result(op, regs.get(rs1), by), pc, regs)
}

/// A shift of the low half by a number of bits below 32.
pub fn shift_32(op: ShiftOp, rd: u32, rs1: u32, by: u32, pc: &mut u64, regs: &mut Regs) -> bool
    requires { (rd < 32) × (rs1 < 32) × (by < 32) }
    ensures goes { result ≡ true }
    ensures pc { pc.new ≡ next pc.old }
    ensures regs { regs.new ≡ with_reg regs.old rd (shift_word_value op (reg regs.old rs1) by) }
{
    compute(rd, shift_word_result(op, regs.get(rs1), by), pc, regs)
}

/// An operation on two registers.
pub fn operate(op: RegOp, rd: u32, rs1: u32, rs2: u32, pc: &mut u64, regs: &mut Regs) -> bool
    requires { (rd < 32) × (rs1 < 32) × (rs2 < 32) }
    ensures goes { result ≡ true }
    ensures pc { pc.new ≡ next pc.old }
    ensures regs { regs.new ≡ with_reg regs.old rd (reg_value op (reg regs.old rs1) (reg regs.old rs2)) }
{
    compute(rd, reg_result(op, regs.get(rs1), regs.get(rs2)), pc, regs)
}

/// An operation on the low halves of two registers.
pub fn operate_32(op: RegOp32, rd: u32, rs1: u32, rs2: u32, pc: &mut u64, regs: &mut Regs) -> bool
    requires { (rd < 32) × (rs1 < 32) × (rs2 < 32) }
    ensures goes { result ≡ true }
    ensures pc { pc.new ≡ next pc.old }
    ensures regs { regs.new ≡ with_reg regs.old rd (reg_32_value op (reg regs.old rs1) (reg regs.old rs2)) }
{
    compute(
        rd,
        reg_32_result(op, regs.get(rs1), regs.get(rs2)),
        pc,
        regs,
    )
}

/// A jump, whose register takes the address of the next word.
#[tactic(auto, unfolding(rv_word::specs::Exec::perform))]
pub fn jump(rd: u32, target: u64, pc: &mut u64, stop: &mut Option<Cause>, regs: &mut Regs) -> bool
    requires rd { rd < 32 }
    requires stop { stop.old ≡ None }
    ensures goes { result ≡ is_none stop.new }
    ensures state { (p : Prog)
        → IsExecuted (perform 0 (Jump rd target) pc.old) (state_of regs.old p) (next_after stop.new pc.new) (state_of regs.new p) }
{
    if target % 4 != 0 {
        *stop = Some(Cause::Misaligned);
        return false;
    }
    regs.set(rd, next_pc(*pc));
    *pc = target;
    true
}

/// A branch, which is taken or not.
#[tactic(auto, unfolding(rv_word::specs::Exec::perform))]
pub fn branch(taken: bool, target: u64, pc: &mut u64, stop: &mut Option<Cause>) -> bool
    requires { stop.old ≡ None }
    ensures goes { result ≡ is_none stop.new }
    ensures state { (p : Prog) (regs : List ℕ)
        → IsExecuted (perform 0 (BranchTo taken target) pc.old) (state_of regs p) (next_after stop.new pc.new) (state_of regs p) }
{
    if !taken {
        *pc = next_pc(*pc);
        return true;
    }
    if target % 4 != 0 {
        *stop = Some(Cause::Misaligned);
        return false;
    }
    *pc = target;
    true
}

/// A load.
#[tactic(auto, unfolding(rv_word::specs::Exec::perform))]
pub fn read(
    op: LoadOp,
    rd: u32,
    at: u64,
    pc: &mut u64,
    stop: &mut Option<Cause>,
    regs: &mut Regs,
    mem: &Mem,
) -> bool
    requires rd { rd < 32 }
    requires stop { stop.old ≡ None }
    ensures goes { result ≡ is_none stop.new }
    ensures state { (resv : List (Option ℕ)) (out : List ℕ)
        → IsExecuted (perform 0 (ReadMemory op rd at) pc.old)
        (state_from regs.old mem.now resv out) (next_after stop.new pc.new) (state_from regs.new mem.now resv out) }
{
    match mem.load(at, load_width(op)) {
        Ok(n) => {
            regs.set(rd, load_result(op, n));
            *pc = next_pc(*pc);
            true
        }
        Err(e) => {
            *stop = Some(cause_of(e));
            false
        }
    }
}

/// A store.
#[tactic(auto, unfolding(rv_word::specs::Exec::perform))]
pub fn write(
    op: StoreOp,
    hart: HartNo,
    at: u64,
    value: u64,
    pc: &mut u64,
    stop: &mut Option<Cause>,
    shared: &mut Shared,
) -> bool
    requires hart { hart < length shared.old.resv }
    requires stop { stop.old ≡ None }
    ensures harts { length shared.new.resv ≡ length shared.old.resv }
    ensures goes { result ≡ is_none stop.new }
    ensures state { (regs : List ℕ) → IsExecuted (perform hart (WriteMemory (store_len op) at value) pc.old)
        (state_of regs (prog_in shared.old)) (next_after stop.new pc.new) (state_of regs (prog_in shared.new)) }
{
    let len = store_width(op);
    match shared.mem.store(at, len, value) {
        Ok(()) => {
            let last = at.wrapping_add((len - 1) as u64) / 8;
            shared.resv.break_others(hart, at / 8, last);
            *pc = next_pc(*pc);
            true
        }
        Err(e) => {
            *stop = Some(cause_of(e));
            false
        }
    }
}
