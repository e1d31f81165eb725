//! What words do by which a hart goes on: a table with an arm for each operation. It is one match, so that one jump leads to the arm;
//! what the arms do stands in other files.

ghost use Rattle.std.specs.Prelude.{◌≡◌, ◌<◌, true, false, length};
ghost use Rattle.rv_word.specs.Exec.{Goes, exec_decoded};
ghost use Rattle.rv_exec.specs.Flat.{CanRunFlat, instr_of};
ghost use Rattle.rv_exec.specs.Pcs.{pc_address};
ghost use Rattle.rv_exec.specs.Shared.{prog_in};

use crate::flat::Flat;
use crate::moves::{
    address, branch, compute, go, go_to, immediate, jump, jump_to, load, operate, operate_32,
    shift, shift_32, store,
};
use crate::pc::Pc;
use crate::regs::Regs;
use crate::shared::Shared;
use crate::values::{low_word_of, widened};
use pn_types::HartNo;
use rv_word::{BranchOp, ImmOp, LoadOp, RegOp, RegOp32, ShiftOp, StoreOp};

/// Who runs words. Each caller has a copy of [`Flat::run`] of its own, so that the compiler can put it into the caller's loop, as it
/// does with what is called from one place alone.
pub trait Caller {}

impl Flat {
    /// Does what the word does at the pc, and returns true, if the hart goes on after it. Else it does nothing: so with `Rest`, and
    /// where the word stops the hart. It takes no memory.
    #[inline(always)]
    #[tactic(auto, unfolding(rv_word::specs::Exec::action, rv_word::specs::Exec::perform))]
    pub fn run<C: Caller>(
        &self,
        hart: HartNo,
        pc: &mut Pc,
        regs: &mut Regs,
        shared: &mut Shared,
    ) -> bool
        requires can_run { CanRunFlat self.now }
        requires hart { hart < length shared.old.resv }
        ensures first { pc.new.first ≡ pc.old.first }
        ensures harts { length shared.new.resv ≡ length shared.old.resv }
        ensures goes { result ≡ true → exec_decoded (instr_of self.now) (pc_address pc.old) hart regs.old (prog_in shared.old)
            ≡ Goes (pc_address pc.new) regs.new (prog_in shared.new) }
        ensures stays { result ≡ false → (pc_address pc.new ≡ pc_address pc.old) × (regs.new ≡ regs.old)
            × (prog_in shared.new ≡ prog_in shared.old) }
    {
        match *self {
            Flat::Rest => false,
            Flat::Nop => {
                pc.step();
                true
            }
            Flat::Lui(rd, imm) => compute(rd, widened(imm), pc, regs),
            Flat::Auipc(rd, imm) => {
                let value = pc.address().wrapping_add(widened(imm));
                compute(rd, value, pc, regs)
            }
            Flat::Jal(rd, words) => jump(rd, words, pc, regs),
            Flat::J(words) => go(words, pc),
            Flat::Jalr(rd, rs1, imm) => {
                let target = address(rs1, imm, regs) / 2 * 2;
                jump_to(rd, target, pc, regs)
            }
            Flat::Jr(rs1, imm) => {
                let target = address(rs1, imm, regs) / 2 * 2;
                go_to(target, pc)
            }
            Flat::Beq(rs1, rs2, words) => branch(BranchOp::Beq, rs1, rs2, words, pc, regs),
            Flat::Bne(rs1, rs2, words) => branch(BranchOp::Bne, rs1, rs2, words, pc, regs),
            Flat::Blt(rs1, rs2, words) => branch(BranchOp::Blt, rs1, rs2, words, pc, regs),
            Flat::Bge(rs1, rs2, words) => branch(BranchOp::Bge, rs1, rs2, words, pc, regs),
            Flat::Bltu(rs1, rs2, words) => branch(BranchOp::Bltu, rs1, rs2, words, pc, regs),
            Flat::Bgeu(rs1, rs2, words) => branch(BranchOp::Bgeu, rs1, rs2, words, pc, regs),
            Flat::Lb(rd, rs1, imm) => {
                let at = address(rs1, imm, regs);
                load(LoadOp::Lb, rd, at, pc, regs, &shared.mem)
            }
            Flat::Lh(rd, rs1, imm) => {
                let at = address(rs1, imm, regs);
                load(LoadOp::Lh, rd, at, pc, regs, &shared.mem)
            }
            Flat::Lw(rd, rs1, imm) => {
                let at = address(rs1, imm, regs);
                load(LoadOp::Lw, rd, at, pc, regs, &shared.mem)
            }
            Flat::Ld(rd, rs1, imm) => {
                let at = address(rs1, imm, regs);
                load(LoadOp::Ld, rd, at, pc, regs, &shared.mem)
            }
            Flat::Lbu(rd, rs1, imm) => {
                let at = address(rs1, imm, regs);
                load(LoadOp::Lbu, rd, at, pc, regs, &shared.mem)
            }
            Flat::Lhu(rd, rs1, imm) => {
                let at = address(rs1, imm, regs);
                load(LoadOp::Lhu, rd, at, pc, regs, &shared.mem)
            }
            Flat::Lwu(rd, rs1, imm) => {
                let at = address(rs1, imm, regs);
                load(LoadOp::Lwu, rd, at, pc, regs, &shared.mem)
            }
            Flat::Sb(rs1, rs2, imm) => {
                let at = address(rs1, imm, regs);
                store(StoreOp::Sb, hart, at, regs.get(rs2 as u32), pc, shared)
            }
            Flat::Sh(rs1, rs2, imm) => {
                let at = address(rs1, imm, regs);
                store(StoreOp::Sh, hart, at, regs.get(rs2 as u32), pc, shared)
            }
            Flat::Sw(rs1, rs2, imm) => {
                let at = address(rs1, imm, regs);
                store(StoreOp::Sw, hart, at, regs.get(rs2 as u32), pc, shared)
            }
            Flat::Sd(rs1, rs2, imm) => {
                let at = address(rs1, imm, regs);
                store(StoreOp::Sd, hart, at, regs.get(rs2 as u32), pc, shared)
            }
            Flat::Addi(rd, rs1, imm) => immediate(ImmOp::Addi, rd, rs1, imm, pc, regs),
            Flat::Slti(rd, rs1, imm) => immediate(ImmOp::Slti, rd, rs1, imm, pc, regs),
            Flat::Sltiu(rd, rs1, imm) => immediate(ImmOp::Sltiu, rd, rs1, imm, pc, regs),
            Flat::Xori(rd, rs1, imm) => immediate(ImmOp::Xori, rd, rs1, imm, pc, regs),
            Flat::Ori(rd, rs1, imm) => immediate(ImmOp::Ori, rd, rs1, imm, pc, regs),
            Flat::Andi(rd, rs1, imm) => immediate(ImmOp::Andi, rd, rs1, imm, pc, regs),
            Flat::Slli(rd, rs1, by) => shift(ShiftOp::Sll, rd, rs1, by, pc, regs),
            Flat::Srli(rd, rs1, by) => shift(ShiftOp::Srl, rd, rs1, by, pc, regs),
            Flat::Srai(rd, rs1, by) => shift(ShiftOp::Sra, rd, rs1, by, pc, regs),
            Flat::Addiw(rd, rs1, imm) => {
                let value = low_word_of(address(rs1, imm, regs));
                compute(rd, value, pc, regs)
            }
            Flat::Slliw(rd, rs1, by) => shift_32(ShiftOp::Sll, rd, rs1, by, pc, regs),
            Flat::Srliw(rd, rs1, by) => shift_32(ShiftOp::Srl, rd, rs1, by, pc, regs),
            Flat::Sraiw(rd, rs1, by) => shift_32(ShiftOp::Sra, rd, rs1, by, pc, regs),
            Flat::Add(rd, rs1, rs2) => operate(RegOp::Add, rd, rs1, rs2, pc, regs),
            Flat::Sub(rd, rs1, rs2) => operate(RegOp::Sub, rd, rs1, rs2, pc, regs),
            Flat::Sll(rd, rs1, rs2) => operate(RegOp::Sll, rd, rs1, rs2, pc, regs),
            Flat::Slt(rd, rs1, rs2) => operate(RegOp::Slt, rd, rs1, rs2, pc, regs),
            Flat::Sltu(rd, rs1, rs2) => operate(RegOp::Sltu, rd, rs1, rs2, pc, regs),
            Flat::Xor(rd, rs1, rs2) => operate(RegOp::Xor, rd, rs1, rs2, pc, regs),
            Flat::Srl(rd, rs1, rs2) => operate(RegOp::Srl, rd, rs1, rs2, pc, regs),
            Flat::Sra(rd, rs1, rs2) => operate(RegOp::Sra, rd, rs1, rs2, pc, regs),
            Flat::Or(rd, rs1, rs2) => operate(RegOp::Or, rd, rs1, rs2, pc, regs),
            Flat::And(rd, rs1, rs2) => operate(RegOp::And, rd, rs1, rs2, pc, regs),
            Flat::Mul(rd, rs1, rs2) => operate(RegOp::Mul, rd, rs1, rs2, pc, regs),
            Flat::Mulh(rd, rs1, rs2) => operate(RegOp::Mulh, rd, rs1, rs2, pc, regs),
            Flat::Mulhsu(rd, rs1, rs2) => operate(RegOp::Mulhsu, rd, rs1, rs2, pc, regs),
            Flat::Mulhu(rd, rs1, rs2) => operate(RegOp::Mulhu, rd, rs1, rs2, pc, regs),
            Flat::Div(rd, rs1, rs2) => operate(RegOp::Div, rd, rs1, rs2, pc, regs),
            Flat::Divu(rd, rs1, rs2) => operate(RegOp::Divu, rd, rs1, rs2, pc, regs),
            Flat::Rem(rd, rs1, rs2) => operate(RegOp::Rem, rd, rs1, rs2, pc, regs),
            Flat::Remu(rd, rs1, rs2) => operate(RegOp::Remu, rd, rs1, rs2, pc, regs),
            Flat::Addw(rd, rs1, rs2) => operate_32(RegOp32::Addw, rd, rs1, rs2, pc, regs),
            Flat::Subw(rd, rs1, rs2) => operate_32(RegOp32::Subw, rd, rs1, rs2, pc, regs),
            Flat::Sllw(rd, rs1, rs2) => operate_32(RegOp32::Sllw, rd, rs1, rs2, pc, regs),
            Flat::Srlw(rd, rs1, rs2) => operate_32(RegOp32::Srlw, rd, rs1, rs2, pc, regs),
            Flat::Sraw(rd, rs1, rs2) => operate_32(RegOp32::Sraw, rd, rs1, rs2, pc, regs),
            Flat::Mulw(rd, rs1, rs2) => operate_32(RegOp32::Mulw, rd, rs1, rs2, pc, regs),
            Flat::Divw(rd, rs1, rs2) => operate_32(RegOp32::Divw, rd, rs1, rs2, pc, regs),
            Flat::Divuw(rd, rs1, rs2) => operate_32(RegOp32::Divuw, rd, rs1, rs2, pc, regs),
            Flat::Remw(rd, rs1, rs2) => operate_32(RegOp32::Remw, rd, rs1, rs2, pc, regs),
            Flat::Remuw(rd, rs1, rs2) => operate_32(RegOp32::Remuw, rd, rs1, rs2, pc, regs),
        }
    }
}
