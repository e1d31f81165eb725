//! The second pass: the words of the text, and the first line that leads nowhere or too far.

ghost use Rattle.std.specs.Prelude.{◌≡◌, ◌≤◌, ◌<◌, ◌+◌, ◌^◌, ◌++◌, true, OnOk, map};
ghost use Rattle.rv_word.specs.Fields.{extended};
ghost use Rattle.rv_asm.specs.SecondPass.{word_bytes, instr_bytes, with_number, upper, lower, pair_bytes, number_bytes, reach, reaches, distance, jump_bytes, address_bytes, code_of, code, joined};
ghost use Rattle.rv_asm.specs.DraftSeen.{placed_seen};
ghost use Rattle.rv_asm.specs.Seen.{IsSeenAs, Leaves};

use crate::addresses::Labels;
use crate::draft::Placed;
use crate::fault::{AsmError, AsmFault};
use crate::number::Number;
use crate::statement::Statement;
use rv_word::{ImmOp, Instr, encode};
use std::alloc::{AllocError, Global};

/// The number of 32 bits, extended with its sign to 64.
fn extended_32(number: u64) -> u64
    requires { number < 2 ^ 32 }
    ensures { result ≡ extended 32 number }
{
    if number < 0x8000_0000 {
        number
    } else {
        number + 0xffff_ffff_0000_0000
    }
}

/// The number of 12 bits, extended with its sign to 64.
fn extended_12(number: u64) -> u64
    requires { number < 2 ^ 12 }
    ensures { result ≡ extended 12 number }
{
    if number < 0x800 {
        number
    } else {
        number + 0xffff_ffff_ffff_f000
    }
}

/// The instruction with the number in its place: of `lui` and `auipc` the number of the upper 20 bits.
#[tactic(auto, unfolding(crate::specs::SecondPass::with_number))]
fn with_number(mut instr: Instr, number: u64) -> Instr
    ensures { result ≡ with_number instr number }
{
    match &mut instr {
        Instr::Lui { imm, .. } => *imm = extended_32(number % 0x100000 * 4096),
        Instr::Auipc { imm, .. } => *imm = extended_32(number % 0x100000 * 4096),
        Instr::Jal { offset, .. } => *offset = number,
        Instr::Jalr { offset, .. } => *offset = number,
        Instr::Branch { offset, .. } => *offset = number,
        Instr::Load { offset, .. } => *offset = number,
        Instr::Store { offset, .. } => *offset = number,
        Instr::OpImm { imm, .. } => *imm = number,
        Instr::Addiw { imm, .. } => *imm = number,
        Instr::ShiftImm { by, .. } => *by = (number % 64) as u32,
        Instr::ShiftImm32 { by, .. } => *by = (number % 32) as u32,
        _ => {}
    }
    instr
}

/// The number as a multiple of 4096, of which the rest is from -2048 to 2047.
#[tactic(auto, unfolding(crate::specs::SecondPass::upper))]
fn upper(number: u64) -> u64
    ensures { result ≡ upper number }
{
    extended_32((number % 0x1_0000_0000 + 2048) % 0x1_0000_0000 / 4096 * 4096)
}

/// That rest.
#[tactic(auto, unfolding(crate::specs::SecondPass::lower))]
fn lower(number: u64) -> u64
    ensures { result ≡ lower number }
{
    extended_12(number % 4096)
}

/// Adds the bytes of the word.
#[tactic(auto, unfolding(crate::specs::SecondPass::word_bytes))]
fn add_word(out: &mut Vec<u8>, word: u32) -> Result<(), AllocError>
    ensures { OnOk result (out.new.items ≡ out.old.items ++ word_bytes word) }
{
    let bytes = word.to_le_bytes();
    out.extend_from_slice(&bytes)
}

/// Adds the bytes of the instruction.
fn add_instr(out: &mut Vec<u8>, instr: Instr) -> Result<(), AllocError>
    ensures { OnOk result (out.new.items ≡ out.old.items ++ instr_bytes instr) }
{
    add_word(out, encode(&instr))
}

/// Adds `lui` and `addiw` that put a number of 32 bits with its sign into the register.
fn add_pair(out: &mut Vec<u8>, rd: u32, number: u64) -> Result<(), AllocError>
    ensures { OnOk result (out.new.items ≡ out.old.items ++ pair_bytes rd number) }
{
    add_instr(
        out,
        Instr::Lui {
            rd,
            imm: upper(number),
        },
    )?;
    add_instr(
        out,
        Instr::Addiw {
            rd,
            rs1: rd,
            imm: lower(number),
        },
    )
}

/// Adds `li`.
fn add_number(out: &mut Vec<u8>, rd: u32, number: &Number) -> Result<(), AllocError>
    ensures { OnOk result (out.new.items ≡ out.old.items ++ number_bytes rd number.now) }
{
    let value = number.wrapped();
    if number.is_within(2048, 2047) {
        let instr = Instr::OpImm {
            op: ImmOp::Addi,
            rd,
            rs1: 0,
            imm: value,
        };
        add_instr(out, instr)
    } else {
        add_pair(out, rd, value)
    }
}

/// How far a branch or a jump reaches backwards.
fn reach(instr: &Instr) -> u128
    ensures value { result ≡ reach instr.now }
    ensures least { 2 ≤ result }
    ensures small { result ≤ 1048576 }
{
    match instr {
        Instr::Branch { .. } => 4096,
        _ => 1048576,
    }
}

/// Whether the jump or branch at the address reaches the target.
pub fn reaches(instr: &Instr, at: u128, target: u128) -> bool
    ensures value { result ≡ reaches instr.now at target }
    ensures back { result ≡ true → at ≤ target + 1048576 }
    ensures ahead { result ≡ true → target ≤ at + 1048576 }
{
    let reach = reach(instr);
    if target < at {
        at - target <= reach && (at - target) % 2 == 0
    } else {
        target - at <= reach - 2 && (target - at) % 2 == 0
    }
}

/// The distance as 64 bits.
fn distance(at: u128, target: u128) -> u64
    requires back { at ≤ target + 1048576 }
    requires ahead { target ≤ at + 1048576 }
    ensures { result ≡ distance at target }
{
    if target < at {
        (0x1_0000_0000_0000_0000 - (at - target)) as u64
    } else {
        (target - at) as u64
    }
}

/// Adds the jump or branch to the address of a name.
fn add_jump(
    out: &mut Vec<u8>,
    line: u32,
    at: u128,
    instr: Instr,
    target: Option<u128>,
) -> Result<(), AsmError>
    ensures { Leaves out.new.items result (joined out.old.items (jump_bytes line at instr target)) }
{
    let Some(target) = target else {
        return Err(AsmFault::UnknownName(line).into());
    };
    if !reaches(&instr, at, target) {
        return Err(AsmFault::OutOfReach(line).into());
    }
    add_instr(out, with_number(instr, distance(at, target)))?;
    Ok(())
}

/// Adds `la` of the address of a name.
fn add_address(out: &mut Vec<u8>, line: u32, rd: u32, target: Option<u128>) -> Result<(), AsmError>
    ensures { Leaves out.new.items result (joined out.old.items (address_bytes line rd target)) }
{
    let Some(target) = target else {
        return Err(AsmFault::UnknownName(line).into());
    };
    if target >= 0x8000_0000 {
        return Err(AsmFault::OutOfReach(line).into());
    }
    add_pair(out, rd, target as u64)?;
    Ok(())
}

/// Adds the bytes of the statement of the text.
#[tactic(auto, unfolding(crate::specs::SecondPass::code_of))]
fn add_code(out: &mut Vec<u8>, labels: &Labels, placed: &Placed) -> Result<(), AsmError>
    ensures { Leaves out.new.items result (joined out.old.items (code_of labels.now (placed_seen placed.now))) }
{
    match placed.statement {
        Statement::Value(_, number) => add_word(out, number.low_word())?,
        Statement::Instruction(instr) => add_instr(out, instr)?,
        Statement::Numbered(instr, number) => add_instr(out, with_number(instr, number.wrapped()))?,
        Statement::LoadNumber(rd, number) => add_number(out, rd, &number)?,
        Statement::Jump(instr) => {
            let target = labels.get(placed.text);
            return add_jump(out, placed.line, placed.at, instr, target);
        }
        Statement::LoadAddress(rd) => {
            let target = labels.get(placed.text);
            return add_address(out, placed.line, rd, target);
        }
        _ => {}
    }
    Ok(())
}

/// The bytes of the text.
pub(crate) fn code(
    alloc: Global,
    labels: &Labels,
    text_part: &[Placed],
) -> Result<Vec<u8>, AsmError>
    ensures { IsSeenAs (λ bytes. bytes.items) result (code labels.now (map placed_seen text_part.now)) }
{
    let mut out = Vec::new(alloc);
    for placed in text_part {
        add_code(&mut out, labels, placed)?;
    }
    Ok(out)
}
