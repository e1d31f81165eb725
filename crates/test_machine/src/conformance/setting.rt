//! What stands in registers before a word and after it, and which memory it accesses.

ghost use Rattle.std.specs.Prelude.{◌≡◌, ◌<◌};
ghost use Rattle.test_machine.specs.Vectors.{register, registers, accessed, reserving, result_left};

use crate::conformance::vector::Setting;
use rv_exec::Regs;
use rv_word::Instr;

/// What rd holds before a word is executed, so that a word which leaves it alone is noticed.
const UNWRITTEN: u64 = 0x6e6f_7420_7365_7421;

/// The lowest bit of the number of each register in a word.
const RD: u32 = 7;

const RS1: u32 = 15;

const RS2: u32 = 20;

/// The register whose number stands in the word from this bit on.
pub fn register(word: u32, bit: u32) -> u32
    requires { bit < 32 }
    ensures number { result ≡ register word bit }
    ensures in_range { result < 32 }
{
    (word >> bit) % 32
}

/// The registers before the word. Where its form has no such operand, other bits stand in that place, and the value
/// is 0.
pub fn registers(word: u32, before: &Setting) -> Regs
    ensures { result ≡ registers word before.now }
{
    let mut regs = Regs::new();
    regs.set(register(word, RD), UNWRITTEN);
    regs.set(register(word, RS2), before.second);
    regs.set(register(word, RS1), before.first);
    regs
}

/// The address that the instruction accesses, where its first operand is this.
pub fn accessed(instr: &Instr, first: u64) -> Option<u64>
    ensures { result ≡ accessed instr.now first }
{
    match *instr {
        Instr::Load { offset, .. } | Instr::Store { offset, .. } => {
            Some(first.wrapping_add(offset))
        }
        Instr::Lr { .. } | Instr::Sc { .. } | Instr::Amo { .. } => Some(first),
        _ => None,
    }
}

/// The load that reserves what the instruction accesses.
pub fn reserving(instr: &Instr) -> Option<Instr>
    ensures { result ≡ reserving instr.now }
{
    match *instr {
        Instr::Lr { width, rs1, .. }
        | Instr::Sc { width, rs1, .. }
        | Instr::Amo { width, rs1, .. } => Some(Instr::Lr {
            width,
            rd: 0,
            rs1,
            order: 0,
        }),
        _ => None,
    }
}

/// The result of a word at pc: of a branch 1 where it is taken, else 0; of a store the eight bytes; else what rd holds.
pub fn result_left(
    instr: &Instr,
    word: u32,
    pc: u64,
    next_pc: u64,
    regs: &Regs,
    memory: Option<u64>,
) -> Option<u64>
    ensures { result ≡ result_left instr.now word pc next_pc regs.now memory }
{
    match *instr {
        Instr::Branch { offset, .. } => Some(u64::from(next_pc == pc.wrapping_add(offset))),
        Instr::Store { .. } => memory,
        _ => Some(regs.get(register(word, RD))),
    }
}
