//! The execution of an instruction, whatever it leads to.

ghost use Rattle.std.specs.Prelude.{◌≡◌, ◌<◌, length, None, is_none, IfSome};
ghost use Rattle.rv_word.specs.Exec.{exec_decoded, exec_of};
ghost use Rattle.rv_word.specs.Words.{HasWord};
ghost use Rattle.rv_exec.specs.Flat.{IsFlatOf};
ghost use Rattle.rv_exec.specs.Gives.{IsExecuted, state_of, next_after};
ghost use Rattle.rv_exec.specs.Shared.{prog_in};

use crate::atomics::access;
use crate::calling::call;
use crate::decoded::Decoded;
use crate::flat::Flat;
use crate::outcomes::next_pc;
use crate::pc::Pc;
use crate::regs::Regs;
use crate::running::Caller;
use crate::shared::Shared;
use crate::steps::{
    branch, compute, immediate, jump, operate, operate_32, read, shift, shift_32, write,
};
use crate::values::{is_taken, low_word_of};
use pn_types::HartNo;
use rv_word::{Cause, Instr, Next};

/// Executes the instruction at pc, by a hart that isn't stopped; no instruction stops it as illegal. It sets the next pc, or the cause
/// for which the hart stops. Returns whether the hart goes on. A stop changes nothing else, but that an SC clears the hart's
/// reservation also where it stops. It takes no memory.
#[inline(never)]
#[tactic(auto, unfolding(rv_word::specs::Exec::action, rv_word::specs::Exec::perform))]
pub fn execute(
    instr: Option<Instr>,
    hart: HartNo,
    pc: &mut u64,
    stop: &mut Option<Cause>,
    regs: &mut Regs,
    shared: &mut Shared,
) -> bool
    requires word { IfSome instr HasWord }
    requires hart { hart < length shared.old.resv }
    requires stop { stop.old ≡ None }
    ensures goes { result ≡ is_none stop.new }
    ensures state { IsExecuted (exec_decoded instr pc.old hart)
        (state_of regs.old (prog_in shared.old)) (next_after stop.new pc.new) (state_of regs.new (prog_in shared.new)) }
{
    let Some(instr) = instr else {
        *stop = Some(Cause::Illegal);
        return false;
    };
    match instr {
        Instr::Lui { rd, imm } => compute(rd, imm, pc, regs),
        Instr::Auipc { rd, imm } => compute(rd, pc.wrapping_add(imm), pc, regs),
        Instr::Jal { rd, offset } => jump(rd, pc.wrapping_add(offset), pc, stop, regs),
        Instr::Jalr { rd, rs1, offset } => {
            let target = regs.get(rs1).wrapping_add(offset) / 2 * 2;
            jump(rd, target, pc, stop, regs)
        }
        Instr::Branch {
            op,
            rs1,
            rs2,
            offset,
        } => {
            let taken = is_taken(op, regs.get(rs1), regs.get(rs2));
            branch(taken, pc.wrapping_add(offset), pc, stop)
        }
        Instr::Load {
            op,
            rd,
            rs1,
            offset,
        } => {
            let at = regs.get(rs1).wrapping_add(offset);
            read(op, rd, at, pc, stop, regs, &shared.mem)
        }
        Instr::Store {
            op,
            rs1,
            rs2,
            offset,
        } => {
            let at = regs.get(rs1).wrapping_add(offset);
            write(op, hart, at, regs.get(rs2), pc, stop, shared)
        }
        Instr::OpImm { op, rd, rs1, imm } => immediate(op, rd, rs1, imm, pc, regs),
        Instr::ShiftImm { op, rd, rs1, by } => shift(op, rd, rs1, by, pc, regs),
        Instr::Addiw { rd, rs1, imm } => {
            let value = low_word_of(regs.get(rs1).wrapping_add(imm));
            compute(rd, value, pc, regs)
        }
        Instr::ShiftImm32 { op, rd, rs1, by } => shift_32(op, rd, rs1, by, pc, regs),
        Instr::Op { op, rd, rs1, rs2 } => operate(op, rd, rs1, rs2, pc, regs),
        Instr::Op32 { op, rd, rs1, rs2 } => operate_32(op, rd, rs1, rs2, pc, regs),
        Instr::Fence { .. } => {
            *pc = next_pc(*pc);
            true
        }
        Instr::Ecall => {
            *pc = call(*pc, stop, regs, &shared.mem, &mut shared.out);
            stop.is_none()
        }
        Instr::Ebreak => {
            *stop = Some(Cause::Break);
            false
        }
        Instr::Lr { .. } | Instr::Sc { .. } | Instr::Amo { .. } => {
            let (mem, resv) = (&mut shared.mem, &mut shared.resv);
            *pc = access(instr, hart, *pc, stop, regs, mem, resv);
            stop.is_none()
        }
    }
}

/// Executes the instruction at pc, by its flat, and wholly where that does nothing. Else as [`execute`].
#[inline(always)]
#[tactic(auto, using(crate::proofs::Flats::goes_as))]
pub fn run_or_execute<C: Caller>(
    flat: &Flat,
    instr: Option<Instr>,
    hart: HartNo,
    pc: &mut u64,
    stop: &mut Option<Cause>,
    regs: &mut Regs,
    shared: &mut Shared,
) -> bool
    requires flat { IsFlatOf instr flat.now }
    requires word { IfSome instr HasWord }
    requires hart { hart < length shared.old.resv }
    requires stop { stop.old ≡ None }
    ensures goes { result ≡ is_none stop.new }
    ensures state { IsExecuted (exec_decoded instr pc.old hart)
        (state_of regs.old (prog_in shared.old)) (next_after stop.new pc.new) (state_of regs.new (prog_in shared.new)) }
{
    let at = *pc;
    if let Some(mut next) = Pc::new(at, at) {
        if flat.run::<C>(hart, &mut next, regs, shared) {
            *pc = next.address();
            return true;
        }
    }
    execute(instr, hart, pc, stop, regs, shared)
}

/// Executes one word at pc, by a hart. Returns how the hart goes on. A word outside the table of instructions stops it as illegal.
/// A stop changes nothing, but that an SC clears the hart's reservation also where it stops. It takes no memory.
pub fn exec(word: u32, pc: u64, hart: HartNo, regs: &mut Regs, shared: &mut Shared) -> Next
    requires { hart < length shared.old.resv }
    ensures { IsExecuted (exec_of word pc hart) (state_of regs.old (prog_in shared.old)) result (state_of regs.new (prog_in shared.new)) }
{
    let mut next = pc;
    let mut stop = None;
    Decoded::new(word).run(hart, &mut next, &mut stop, regs, shared);
    match stop {
        Some(cause) => Next::Stop(cause),
        None => Next::Go(next),
    }
}
