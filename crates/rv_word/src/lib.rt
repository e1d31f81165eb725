//! Words of RV64IMA: which instruction a word is and which word an instruction has, and in `specs/` what each one means.
#![tactic(auto)]

mod action;
mod codes;
mod decoding;
mod encoding;
mod fields;
mod instr;
mod names;
mod operations;
mod outcome;

pub use action::Action;
pub use decoding::decode;
pub use encoding::encode;
pub use instr::{
    AmoOp, AtomicWidth, BranchOp, ImmOp, Instr, LoadOp, RegOp, RegOp32, ShiftOp, StoreOp,
};
pub use names::{first_scratch, is_call, is_return, jump_target, names_x31, split_word};
pub use outcome::{Cause, MemStop, Next};
