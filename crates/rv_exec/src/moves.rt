//! What words do to the pc, the registers, the memory and the reservations where the hart goes on.

ghost use Rattle.std.specs.Prelude.{true, false, ◌≡◌, ◌≤◌, ◌<◌, ◌+◌, length, List, ℕ, Option};
ghost use Rattle.rv_word.specs.Exec.{Prog, Goes, perform, prog_of, next};
ghost use Rattle.rv_word.specs.Registers.{reg, with_reg};
ghost use Rattle.rv_word.specs.Values.{wrap, imm_value, shift_value, shift_word_value, reg_value, reg_32_value, is_branch_taken, store_len};
ghost use Rattle.rv_word.specs.declared.action.Action.TheVariants.{Jump, BranchTo, ReadMemory, WriteMemory};
ghost use Rattle.rv_exec.specs.Flat.{offset_of, wide};
ghost use Rattle.rv_exec.specs.Pcs.{pc_address};
ghost use Rattle.rv_exec.specs.Shared.{prog_in};

use crate::outcomes::next_pc;
use crate::pc::Pc;
use crate::regs::Regs;
use crate::reservations::Reservations;
use crate::shared::Shared;
use crate::values::{
    imm_result, is_taken, load_result, load_width, reg_32_result, reg_result, shift_result,
    shift_word_result, store_width, widened,
};
use pn_types::HartNo;
use rv_mem::Mem;
use rv_word::{BranchOp, ImmOp, LoadOp, RegOp, RegOp32, ShiftOp, StoreOp};

/// The sum of a register and an immediate.
#[inline(always)]
pub fn address(rs1: u8, imm: i32, regs: &Regs) -> u64
    requires { rs1 < 32 }
    ensures { result ≡ wrap (reg regs.now rs1 + wide imm) }
{
    regs.get(rs1 as u32).wrapping_add(widened(imm))
}

/// Puts the value into rd, and goes on at the next word.
#[inline(always)]
pub fn compute(rd: u8, value: u64, pc: &mut Pc, regs: &mut Regs) -> bool
    requires { (1 ≤ rd) × (rd < 32) }
    ensures goes { result ≡ true }
    ensures first { pc.new.first ≡ pc.old.first }
    ensures pc { pc_address pc.new ≡ next (pc_address pc.old) }
    ensures regs { regs.new ≡ with_reg regs.old rd value }
{
    regs.put(rd as u32, value);
    pc.step();
    true
}

/// An operation on a register and an immediate.
#[inline(always)]
pub fn immediate(op: ImmOp, rd: u8, rs1: u8, imm: i32, pc: &mut Pc, regs: &mut Regs) -> bool
    requires { (1 ≤ rd) × (rd < 32) × (rs1 < 32) }
    ensures goes { result ≡ true }
    ensures first { pc.new.first ≡ pc.old.first }
    ensures pc { pc_address pc.new ≡ next (pc_address pc.old) }
    ensures regs { regs.new ≡ with_reg regs.old rd (imm_value op (reg regs.old rs1) (wide imm)) }
{
    let value = imm_result(op, regs.get(rs1 as u32), widened(imm));
    compute(rd, value, pc, regs)
}

/// A shift by a number of bits below 64.
#[inline(always)]
pub fn shift(op: ShiftOp, rd: u8, rs1: u8, by: u8, pc: &mut Pc, regs: &mut Regs) -> bool
    requires { (1 ≤ rd) × (rd < 32) × (rs1 < 32) × (by < 64) }
    ensures goes { result ≡ true }
    ensures first { pc.new.first ≡ pc.old.first }
    ensures pc { pc_address pc.new ≡ next (pc_address pc.old) }
    ensures regs { regs.new ≡ with_reg regs.old rd (shift_value op (reg regs.old rs1) by) }
{
    let value = shift_result(op, regs.get(rs1 as u32), by as u32);
    compute(rd, value, pc, regs)
}

/// A shift of the low half by a number of bits below 32.
#[inline(always)]
pub fn shift_32(op: ShiftOp, rd: u8, rs1: u8, by: u8, pc: &mut Pc, regs: &mut Regs) -> bool
    requires { (1 ≤ rd) × (rd < 32) × (rs1 < 32) × (by < 32) }
    ensures goes { result ≡ true }
    ensures first { pc.new.first ≡ pc.old.first }
    ensures pc { pc_address pc.new ≡ next (pc_address pc.old) }
    ensures regs { regs.new ≡ with_reg regs.old rd (shift_word_value op (reg regs.old rs1) by) }
{
    let value = shift_word_result(op, regs.get(rs1 as u32), by as u32);
    compute(rd, value, pc, regs)
}

/// An operation on two registers.
#[inline(always)]
pub fn operate(op: RegOp, rd: u8, rs1: u8, rs2: u8, pc: &mut Pc, regs: &mut Regs) -> bool
    requires { (1 ≤ rd) × (rd < 32) × (rs1 < 32) × (rs2 < 32) }
    ensures goes { result ≡ true }
    ensures first { pc.new.first ≡ pc.old.first }
    ensures pc { pc_address pc.new ≡ next (pc_address pc.old) }
    ensures regs { regs.new ≡ with_reg regs.old rd (reg_value op (reg regs.old rs1) (reg regs.old rs2)) }
{
    let value = reg_result(op, regs.get(rs1 as u32), regs.get(rs2 as u32));
    compute(rd, value, pc, regs)
}

/// An operation on the low halves of two registers.
#[inline(always)]
pub fn operate_32(op: RegOp32, rd: u8, rs1: u8, rs2: u8, pc: &mut Pc, regs: &mut Regs) -> bool
    requires { (1 ≤ rd) × (rd < 32) × (rs1 < 32) × (rs2 < 32) }
    ensures goes { result ≡ true }
    ensures first { pc.new.first ≡ pc.old.first }
    ensures pc { pc_address pc.new ≡ next (pc_address pc.old) }
    ensures regs { regs.new ≡ with_reg regs.old rd (reg_32_value op (reg regs.old rs1) (reg regs.old rs2)) }
{
    let value = reg_32_result(op, regs.get(rs1 as u32), regs.get(rs2 as u32));
    compute(rd, value, pc, regs)
}

/// A jump by a number of words, whose register takes the address of the next word.
#[inline(always)]
#[tactic(auto, unfolding(rv_word::specs::Exec::perform))]
pub fn jump(rd: u8, words: i32, pc: &mut Pc, regs: &mut Regs) -> bool
    requires { (1 ≤ rd) × (rd < 32) }
    ensures goes { result ≡ true }
    ensures first { pc.new.first ≡ pc.old.first }
    ensures state { (p : Prog) → perform 0 (Jump rd (wrap (pc_address pc.old + offset_of words))) (pc_address pc.old) regs.old p
        ≡ Goes (pc_address pc.new) regs.new p }
{
    regs.put(rd as u32, next_pc(pc.address()));
    pc.add(words);
    true
}

/// A jump to an address, whose register takes the address of the next word. It returns whether the address is that of a word, and
/// else does nothing.
#[inline(always)]
#[tactic(auto, unfolding(rv_word::specs::Exec::perform))]
pub fn jump_to(rd: u8, target: u64, pc: &mut Pc, regs: &mut Regs) -> bool
    requires { (1 ≤ rd) × (rd < 32) }
    ensures first { pc.new.first ≡ pc.old.first }
    ensures goes { result ≡ true → (p : Prog) → perform 0 (Jump rd target) (pc_address pc.old) regs.old p ≡ Goes (pc_address pc.new) regs.new p }
    ensures stays { result ≡ false → (pc_address pc.new ≡ pc_address pc.old) × (regs.new ≡ regs.old) }
{
    let link = next_pc(pc.address());
    if !pc.jump(target) {
        return false;
    }
    regs.put(rd as u32, link);
    true
}

/// A jump by a number of words that keeps no address.
#[inline(always)]
#[tactic(auto, unfolding(rv_word::specs::Exec::perform, rv_word::specs::Registers::with_reg))]
pub fn go(words: i32, pc: &mut Pc) -> bool
    ensures goes { result ≡ true }
    ensures first { pc.new.first ≡ pc.old.first }
    ensures state { (regs : List ℕ) (p : Prog) → perform 0 (Jump 0 (wrap (pc_address pc.old + offset_of words))) (pc_address pc.old) regs p
        ≡ Goes (pc_address pc.new) regs p }
{
    pc.add(words);
    true
}

/// A jump to an address that keeps none. It returns whether the address is that of a word, and else does nothing.
#[inline(always)]
#[tactic(auto, unfolding(rv_word::specs::Exec::perform, rv_word::specs::Registers::with_reg))]
pub fn go_to(target: u64, pc: &mut Pc) -> bool
    ensures first { pc.new.first ≡ pc.old.first }
    ensures goes { result ≡ true → (regs : List ℕ) (p : Prog) → perform 0 (Jump 0 target) (pc_address pc.old) regs p ≡ Goes (pc_address pc.new) regs p }
    ensures stays { result ≡ false → pc_address pc.new ≡ pc_address pc.old }
{
    pc.jump(target)
}

/// A branch by a number of words, which is taken or not.
#[inline(always)]
#[tactic(auto, unfolding(rv_word::specs::Exec::perform))]
pub fn branch(op: BranchOp, rs1: u8, rs2: u8, words: i32, pc: &mut Pc, regs: &Regs) -> bool
    requires { (rs1 < 32) × (rs2 < 32) }
    ensures goes { result ≡ true }
    ensures first { pc.new.first ≡ pc.old.first }
    ensures state { (p : Prog) → perform 0 (BranchTo (is_branch_taken op (reg regs.now rs1) (reg regs.now rs2))
        (wrap (pc_address pc.old + offset_of words))) (pc_address pc.old) regs.now p ≡ Goes (pc_address pc.new) regs.now p }
{
    if is_taken(op, regs.get(rs1 as u32), regs.get(rs2 as u32)) {
        pc.add(words);
    } else {
        pc.step();
    }
    true
}

/// What a load does but for the pc, wherever the bytes are. It returns whether they may be read, and else does nothing.
#[inline(never)]
#[tactic(auto, unfolding(rv_word::specs::Exec::perform))]
fn load_anywhere(op: LoadOp, rd: u8, at: u64, regs: &mut Regs, mem: &Mem) -> bool
    requires { (1 ≤ rd) × (rd < 32) }
    ensures goes { result ≡ true → (pc : ℕ) (resv : List (Option ℕ)) (out : List ℕ)
        → perform 0 (ReadMemory op rd at) pc regs.old (prog_of mem.now resv out) ≡ Goes (next pc) regs.new (prog_of mem.now resv out) }
    ensures stays { result ≡ false → regs.new ≡ regs.old }
{
    match mem.load(at, load_width(op)) {
        Ok(n) => {
            regs.put(rd as u32, load_result(op, n));
            true
        }
        Err(_) => false,
    }
}

/// A load. It returns whether the bytes may be read, and else does nothing.
#[inline(always)]
#[tactic(auto, unfolding(rv_word::specs::Exec::perform))]
pub fn load(op: LoadOp, rd: u8, at: u64, pc: &mut Pc, regs: &mut Regs, mem: &Mem) -> bool
    requires { (1 ≤ rd) × (rd < 32) }
    ensures first { pc.new.first ≡ pc.old.first }
    ensures goes { result ≡ true → (resv : List (Option ℕ)) (out : List ℕ)
        → perform 0 (ReadMemory op rd at) (pc_address pc.old) regs.old (prog_of mem.now resv out)
        ≡ Goes (pc_address pc.new) regs.new (prog_of mem.now resv out) }
    ensures stays { result ≡ false → (pc_address pc.new ≡ pc_address pc.old) × (regs.new ≡ regs.old) }
{
    if let Some(n) = mem.quick_load(at, load_width(op)) {
        regs.put(rd as u32, load_result(op, n));
        pc.step();
        return true;
    }
    if !load_anywhere(op, rd, at, regs, mem) {
        return false;
    }
    pc.step();
    true
}

/// What a store does but for the pc, wherever the bytes are. It returns whether they may be written, and else does nothing.
#[inline(never)]
#[tactic(auto, unfolding(rv_word::specs::Exec::perform))]
fn store_anywhere(
    len: u32,
    hart: HartNo,
    at: u64,
    value: u64,
    mem: &mut Mem,
    resv: &mut Reservations,
) -> bool
    requires hart { hart < length resv.old }
    requires len { (1 ≤ len) × (len ≤ 8) }
    ensures harts { length resv.new ≡ length resv.old }
    ensures goes { result ≡ true → (pc : ℕ) (regs out : List ℕ)
        → perform hart (WriteMemory len at value) pc regs (prog_of mem.old resv.old out) ≡ Goes (next pc) regs (prog_of mem.new resv.new out) }
    ensures stays { result ≡ false → (mem.new ≡ mem.old) × (resv.new ≡ resv.old) }
{
    match mem.store(at, len, value) {
        Ok(()) => {
            resv.break_others(hart, at / 8, at.wrapping_add((len - 1) as u64) / 8);
            true
        }
        Err(_) => false,
    }
}

/// A store. It returns whether the bytes may be written, and else does nothing.
#[inline(always)]
#[tactic(auto, unfolding(rv_word::specs::Exec::perform))]
pub fn store(
    op: StoreOp,
    hart: HartNo,
    at: u64,
    value: u64,
    pc: &mut Pc,
    shared: &mut Shared,
) -> bool
    requires hart { hart < length shared.old.resv }
    ensures first { pc.new.first ≡ pc.old.first }
    ensures harts { length shared.new.resv ≡ length shared.old.resv }
    ensures goes { result ≡ true → (regs : List ℕ)
        → perform hart (WriteMemory (store_len op) at value) (pc_address pc.old) regs (prog_in shared.old)
        ≡ Goes (pc_address pc.new) regs (prog_in shared.new) }
    ensures stays { result ≡ false → (pc_address pc.new ≡ pc_address pc.old) × (prog_in shared.new ≡ prog_in shared.old) }
{
    let len = store_width(op);
    let resv = &mut shared.resv;
    if shared.mem.quick_store(at, len, value) {
        resv.break_others(hart, at / 8, at.wrapping_add((len - 1) as u64) / 8);
        pc.step();
        return true;
    }
    if !store_anywhere(len, hart, at, value, &mut shared.mem, resv) {
        return false;
    }
    pc.step();
    true
}
