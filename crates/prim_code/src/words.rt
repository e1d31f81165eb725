//! The words of which the code of statements is made.

ghost use Rattle.std.specs.Prelude.{◌≡◌, ◌≤◌, ◌^◌};
ghost use Rattle.rv_word.specs.declared.instr.Instr.TheVariants as instr;
ghost use Rattle.rv_word.specs.declared.instr.LoadOp.TheVariants as loads;
ghost use Rattle.rv_word.specs.declared.instr.ImmOp.TheVariants as immediates;
ghost use Rattle.tramp_spec.specs.Statements as table;

use rv_word::{BranchOp, ImmOp, Instr, LoadOp, RegOp, StoreOp};
use tramp_spec::{lower, rounded};

/// The high part of a slot's address, into x31.
pub fn high(slot: u64) -> Instr
    requires { slot ≤ 2 ^ 32 }
    ensures { result ≡ instr.Lui 31 (table.high_part slot) }
{
    Instr::Lui {
        rd: 31,
        imm: rounded(8 * slot),
    }
}

/// A slot into a register. The high part of its address is in x31.
pub fn load(rd: u32, slot: u64) -> Instr
    requires { slot ≤ 2 ^ 32 }
    ensures { result ≡ instr.Load loads.Ld rd 31 (table.low_part slot) }
{
    Instr::Load {
        op: LoadOp::Ld,
        rd,
        rs1: 31,
        offset: lower(8 * slot),
    }
}

/// x5 into a slot. The high part of its address is in x31.
pub fn keep(slot: u64) -> Instr
    requires { slot ≤ 2 ^ 32 }
    ensures { result ≡ table.keep_slot slot }
{
    Instr::Store {
        op: StoreOp::Sd,
        rs1: 31,
        rs2: 5,
        offset: lower(8 * slot),
    }
}

/// x5 becomes one more.
pub fn add_one() -> Instr
    ensures { result ≡ instr.OpImm immediates.Addi 5 5 1 }
{
    Instr::OpImm {
        op: ImmOp::Addi,
        rd: 5,
        rs1: 5,
        imm: 1,
    }
}

/// x5 becomes one less.
pub fn take_one() -> Instr
    ensures { result ≡ instr.OpImm immediates.Addi 5 5 table.minus_one }
{
    Instr::OpImm {
        op: ImmOp::Addi,
        rd: 5,
        rs1: 5,
        imm: u64::MAX,
    }
}

/// A branch on x5 and x0, over `over` bytes.
pub fn branch(op: BranchOp, over: u64) -> Instr
    ensures { result ≡ instr.Branch op 5 0 over }
{
    Instr::Branch {
        op,
        rs1: 5,
        rs2: 0,
        offset: over,
    }
}

/// The ticks into x5.
pub fn ticks() -> Instr
    ensures { result ≡ instr.Load loads.Ld 5 0 0 }
{
    Instr::Load {
        op: LoadOp::Ld,
        rd: 5,
        rs1: 0,
        offset: 0,
    }
}

/// x5 becomes what the operation makes of x31 and x5.
pub fn combine(op: RegOp) -> Instr
    ensures { result ≡ instr.Op op 5 31 5 }
{
    Instr::Op {
        op,
        rd: 5,
        rs1: 31,
        rs2: 5,
    }
}
