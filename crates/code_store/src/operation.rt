//! What a word does under its mark.

ghost use Rattle.std.specs.Prelude.{◌≡◌, ◌<◌, false, Some, IfSome};
ghost use Rattle.rv_word.specs.Table.{decode_of};
ghost use Rattle.rv_word.specs.Words.{HasWord};
ghost use Rattle.rv_word.specs.declared.instr.Instr.TheVariants.{Load, Store};
ghost use Rattle.tramp_spec.specs.Banks.{bank_len};
ghost use Rattle.code_store.specs.Operations.{Does, IsOperationOf, IsToolFlatBy, StepsBy, computes, is_access, reached};

use rv_exec::{Flat, flattened, narrow};
use rv_word::{Cause, Instr, LoadOp, StoreOp, decode};
use tramp_spec::{Mark, MarkedWord};

/// What a word does under its mark, as one variant.
#[derive(Clone, Copy, Drop)]
pub enum Operation {
    /// What the word does in the program: its flat, and its instruction for where the flat does nothing. So does each word of the
    /// program; any other where it computes, branches or jumps.
    Run { flat: Flat, instr: Option<Instr> },
    /// A word of the tool loads a doubleword of the bank.
    LoadBank { rd: u32, rs1: u32, offset: u64 },
    /// A word of the tool stores to a doubleword of the bank.
    StoreBank { rs1: u32, rs2: u32, offset: u64 },
    /// Any other access by a word that isn't the program's: it stops the hart.
    NoAccess { rs1: u32, offset: u64 },
    /// A word that isn't the program's and stops the hart.
    Stop(Cause),
}

/// Whether an instruction reaches no memory and makes no call.
fn computes(instr: Option<Instr>) -> bool
    ensures { result ≡ computes instr }
{
    !matches!(
        instr,
        None | Some(
            Instr::Load { .. }
                | Instr::Store { .. }
                | Instr::Ecall
                | Instr::Ebreak
                | Instr::Lr { .. }
                | Instr::Sc { .. }
                | Instr::Amo { .. }
        )
    )
}

/// A load by a word that isn't the program's.
#[tactic(auto, using(crate::proofs::Operations::loads, crate::proofs::Operations::load_refused))]
fn load_of(is_tool: bool, op: LoadOp, rd: u32, rs1: u32, offset: u64) -> Operation
    requires { (rd < 32) × (rs1 < 32) }
    ensures { Does (reached is_tool) (Some (Load op rd rs1 offset)) result }
{
    match op {
        LoadOp::Ld if is_tool => Operation::LoadBank { rd, rs1, offset },
        LoadOp::Ld
        | LoadOp::Lb
        | LoadOp::Lh
        | LoadOp::Lw
        | LoadOp::Lbu
        | LoadOp::Lhu
        | LoadOp::Lwu => Operation::NoAccess { rs1, offset },
    }
}

/// A store by a word that isn't the program's.
#[tactic(auto, using(crate::proofs::Operations::stores, crate::proofs::Operations::store_refused))]
fn store_of(is_tool: bool, op: StoreOp, rs1: u32, rs2: u32, offset: u64) -> Operation
    requires { (rs1 < 32) × (rs2 < 32) }
    ensures { Does (reached is_tool) (Some (Store op rs1 rs2 offset)) result }
{
    match op {
        StoreOp::Sd if is_tool => Operation::StoreBank { rs1, rs2, offset },
        StoreOp::Sd | StoreOp::Sb | StoreOp::Sh | StoreOp::Sw => {
            Operation::NoAccess { rs1, offset }
        }
    }
}

/// What a word does that isn't the program's and doesn't compute.
#[tactic(auto, using(crate::proofs::Operations::low_address), unfolding(rv_word::specs::Exec::action, tramp_spec::specs::Steps::perform_on))]
fn other(is_tool: bool, instr: Option<Instr>) -> Operation
    requires word { IfSome instr HasWord }
    requires access { computes instr ≡ false }
    ensures { Does (reached is_tool) instr result }
{
    match instr {
        Some(
            Instr::Load {
                op,
                rd,
                rs1,
                offset,
            },
        ) => load_of(is_tool, op, rd, rs1, offset),
        Some(
            Instr::Store {
                op,
                rs1,
                rs2,
                offset,
            },
        ) => store_of(is_tool, op, rs1, rs2, offset),
        Some(Instr::Lr { rs1, .. } | Instr::Sc { rs1, .. } | Instr::Amo { rs1, .. }) => {
            Operation::NoAccess { rs1, offset: 0 }
        }
        Some(Instr::Ebreak) => Operation::Stop(Cause::Break),
        _ => Operation::Stop(Cause::Illegal),
    }
}

/// Whether it is the flat of an access to memory.
fn is_access(flat: Flat) -> bool
    ensures { result ≡ is_access flat }
{
    matches!(
        flat,
        Flat::Lb(..)
            | Flat::Lh(..)
            | Flat::Lw(..)
            | Flat::Ld(..)
            | Flat::Lbu(..)
            | Flat::Lhu(..)
            | Flat::Lwu(..)
            | Flat::Sb(..)
            | Flat::Sh(..)
            | Flat::Sw(..)
            | Flat::Sd(..)
    )
}

/// The flat of the tool's word with this operation, whose accesses are those of the bank. It is `Rest` where there is none.
#[tactic(auto, using(crate::proofs::Operations::steps_alike))]
fn flat_of_tool(word: u32, operation: &Operation) -> Flat
    requires { Does bank_len (decode_of word) operation.now }
    ensures { StepsBy (decode_of word) result }
{
    match *operation {
        Operation::Run { flat, .. } if !is_access(flat) => flat,
        Operation::LoadBank { rd, rs1, offset } if rd != 0 => match narrow(offset) {
            Some(imm) => Flat::Ld(rd as u8, rs1 as u8, imm),
            None => Flat::Rest,
        },
        Operation::StoreBank { rs1, rs2, offset } => match narrow(offset) {
            Some(imm) => Flat::Sd(rs1 as u8, rs2 as u8, imm),
            None => Flat::Rest,
        },
        _ => Flat::Rest,
    }
}

impl Operation {
    /// The flat of a word of the tool with this operation. For another word it is `Rest`.
    pub(crate) fn tool_flat(&self, marked: MarkedWord) -> Flat
        requires { IsOperationOf marked self.now }
        ensures { IsToolFlatBy marked.mark (decode_of marked.word) result }
    {
        match marked.mark {
            Mark::Tool => flat_of_tool(marked.word, self),
            Mark::Own => Flat::Rest,
            Mark::Enter => Flat::Rest,
            Mark::Leave => Flat::Rest,
        }
    }

    /// The operation of a marked word.
    #[tactic(auto, using(crate::proofs::Operations::alike))]
    pub(crate) fn new(marked: MarkedWord) -> Operation
        ensures { IsOperationOf marked result }
    {
        let instr = decode(marked.word);
        let flat = flattened(instr);
        match marked.mark {
            Mark::Own => Operation::Run { flat, instr },
            _ if computes(instr) => Operation::Run { flat, instr },
            Mark::Tool => other(true, instr),
            Mark::Enter | Mark::Leave => other(false, instr),
        }
    }
}
