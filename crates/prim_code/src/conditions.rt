//! The words of conditions, each of which leads over the rest of its statement where it does not hold.

ghost use Rattle.std.specs.Prelude.{◌≡◌, ◌+◌, ◌<◌, ◌^◌, ◌++◌, List, length};
ghost use Rattle.rv_word.specs.declared.instr.Instr.{Instr};
ghost use Rattle.tramp_spec.specs.Statements as table;

use crate::words::{high, load};
use pn_types::Cmp;
use rv_word::{BranchOp, Instr};
use tramp_spec::put_number;

/// The branch over `over` bytes, taken where the comparison of a register with x31 fails.
fn unless(cmp: Cmp, register: u32, over: u64) -> Instr
    ensures { result ≡ table.unless cmp register over }
{
    let (op, rs1, rs2) = match cmp {
        Cmp::Eq => (BranchOp::Bne, register, 31),
        Cmp::Ne => (BranchOp::Beq, register, 31),
        Cmp::Lt => (BranchOp::Bgeu, register, 31),
        Cmp::Ge => (BranchOp::Bltu, register, 31),
        Cmp::Gt => (BranchOp::Bgeu, 31, register),
        Cmp::Le => (BranchOp::Bltu, 31, register),
    };
    Instr::Branch {
        op,
        rs1,
        rs2,
        offset: over,
    }
}

/// A condition on a counter, before a rest of `rest` words.
pub fn counter_words(slot: u64, cmp: Cmp, right: u32, rest: u32) -> [Instr; 5]
    requires { slot < 2 ^ 32 }
    ensures { (after : List Instr) → length after ≡ rest
        → result ++ after ≡ table.load_slot slot ++ table.compared cmp 5 right after }
{
    let [upper, lower] = put_number(31, u64::from(right));
    let over = 4 * (u64::from(rest) + 1);
    [
        high(slot),
        load(5, slot),
        upper,
        lower,
        unless(cmp, 5, over),
    ]
}

/// A condition on an argument, before a rest of `rest` words.
pub fn argument_words(argument: u8, cmp: Cmp, right: u32, rest: u32) -> [Instr; 3]
    ensures { (after : List Instr) → length after ≡ rest
        → result ++ after ≡ table.compared cmp (10 + argument) right after }
{
    let [upper, lower] = put_number(31, u64::from(right));
    let over = 4 * (u64::from(rest) + 1);
    [upper, lower, unless(cmp, 10 + u32::from(argument), over)]
}
