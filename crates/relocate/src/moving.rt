//! The words that do at another place what a word does at its own.

ghost use Rattle.std.specs.Prelude.{◌≡◌, ◌+◌, Some};
ghost use Rattle.rv_word.specs.Table.{decode_of};
ghost use Rattle.rv_word.specs.Values.{wrap};
ghost use Rattle.rv_word.specs.declared.instr.Instr.TheVariants as instr;
ghost use Rattle.rv_word.specs.Words.{word_of};
ghost use Rattle.tramp_spec.specs.Jumps as jumps;
ghost use Rattle.tramp_spec.specs.Marks as marks;
ghost use Rattle.tramp_spec.specs.MovedWords as table;
ghost use Rattle.relocate.specs.Answers.{IsMoved};

use rv_word::{BranchOp, ImmOp, Instr, decode, encode};
use tramp_spec::{MarkedWord, Moved, is_signed_word, jump_word, put_number, reaches};

/// The word can't be moved: the target of its jump is out of reach or no multiple of 4, or the value of its auipc hasn't
/// 32 bits with their sign.
#[derive(Clone, Copy, PartialEq, Eq, Debug)]
pub struct Unmovable;

/// A word of the tool, by its instruction.
fn tool(instr: Instr) -> MarkedWord
    ensures { result ≡ marks.tool (word_of instr) }
{
    MarkedWord::tool(encode(&instr))
}

/// The address `bytes` after another.
fn behind(at: u64, bytes: u64) -> u64
    ensures { result ≡ wrap (at + bytes) }
{
    at.wrapping_add(bytes)
}

/// The jump back from the moved word at an address.
fn leave(at: u64, target: u64) -> MarkedWord
    ensures { result ≡ marks.leave (jumps.jump_word at target) }
{
    MarkedWord::leave(jump_word(at, target))
}

/// A jump at an address can have the target.
fn is_target(at: u64, target: u64) -> bool
    ensures { result ≡ table.is_target at target }
{
    target % 4 == 0 && target < 1 << 31 && reaches(at, target)
}

/// How many words the moved word has, from 1 to 4, whatever the addresses.
pub fn moved_len(word: u32) -> u32
    ensures { result ≡ table.moved_count (decode_of word) }
{
    match decode(word) {
        Some(Instr::Jal { rd: 0, .. } | Instr::Jalr { rd: 0, .. }) => 1,
        Some(Instr::Auipc { .. } | Instr::Jal { .. } | Instr::Branch { .. }) => 3,
        Some(Instr::Jalr { .. }) => 4,
        _ => 2,
    }
}

/// The two words of the tool that put a number into a register.
fn number_words(rd: u32, number: u64) -> [MarkedWord; 2]
    ensures { result ≡ table.tools (jumps.put_number rd number) }
{
    let [high, low] = put_number(rd, number);
    [tool(high), tool(low)]
}

/// An auipc: its value is put into the register by two words.
fn move_auipc(rd: u32, imm: u64, from: u64, to: u64) -> Result<Moved, Unmovable>
    ensures { IsMoved result (table.moved_decoded (Some (instr.Auipc rd imm)) 0 from to) }
{
    let value = from.wrapping_add(imm);
    if !is_signed_word(value) {
        return Err(Unmovable);
    }
    let [high, low] = put_number(rd, value);
    let own = MarkedWord::own(encode(&low));
    let back = leave(behind(to, 8), behind(from, 4));
    Ok(Moved::new(&[tool(high), own, back]))
}

/// A jal that keeps no address.
fn move_jump(offset: u64, from: u64, to: u64) -> Result<Moved, Unmovable>
    ensures { IsMoved result (table.moved_decoded (Some (instr.Jal 0 offset)) 0 from to) }
{
    let target = from.wrapping_add(offset);
    if !is_target(to, target) {
        return Err(Unmovable);
    }
    let jump = MarkedWord::own(jump_word(to, target));
    Ok(Moved::new(&[jump]))
}

/// A jal: the address of the next word is put into the register by two words, where it has one.
fn move_jal(rd: u32, offset: u64, from: u64, to: u64) -> Result<Moved, Unmovable>
    ensures { IsMoved result (table.moved_decoded (Some (instr.Jal rd offset)) 0 from to) }
{
    if rd == 0 {
        return move_jump(offset, from, to);
    }
    let target = from.wrapping_add(offset);
    let at = behind(to, 8);
    if !is_target(at, target) {
        return Err(Unmovable);
    }
    let jump = MarkedWord::own(jump_word(at, target));
    let link = number_words(rd, behind(from, 4));
    Ok(Moved::new(&[link[0], link[1], jump]))
}

/// A jalr. The target is computed first, since the link register may be its base.
fn move_jalr(word: u32, rd: u32, rs1: u32, offset: u64, from: u64) -> Moved
    ensures { Some result ≡ table.moved_decoded (Some (instr.Jalr rd rs1 offset)) word from 0 }
{
    if rd == 0 {
        return Moved::new(&[MarkedWord::own(word)]);
    }
    let target = tool(Instr::OpImm {
        op: ImmOp::Addi,
        rd: 31,
        rs1,
        imm: offset,
    });
    let [high, low] = number_words(rd, behind(from, 4));
    let jump = MarkedWord::own(encode(&Instr::Jalr {
        rd: 0,
        rs1: 31,
        offset: 0,
    }));
    Moved::new(&[target, high, low, jump])
}

/// A branch: taken, it goes over the jump to the next word, to the jump to its target.
fn move_branch(
    op: BranchOp,
    rs1: u32,
    rs2: u32,
    offset: u64,
    from: u64,
    to: u64,
) -> Result<Moved, Unmovable>
    ensures { IsMoved result (table.moved_decoded (Some (instr.Branch op rs1 rs2 offset)) 0 from to) }
{
    let target = from.wrapping_add(offset);
    if !is_target(behind(to, 8), target) {
        return Err(Unmovable);
    }
    let branch = MarkedWord::own(encode(&Instr::Branch {
        op,
        rs1,
        rs2,
        offset: 8,
    }));
    let back = leave(behind(to, 4), behind(from, 4));
    let there = leave(behind(to, 8), target);
    Ok(Moved::new(&[branch, back, there]))
}

/// Any other word: itself, and the jump to the next.
fn move_plain(word: u32, from: u64, to: u64) -> Moved
    ensures { result ≡ table.moved_plain word (wrap (from + 4)) (wrap (to + 4)) }
{
    let back = leave(behind(to, 4), behind(from, 4));
    Moved::new(&[MarkedWord::own(word), back])
}

/// Moves a word: makes the words that do at `to` what it does at `from`.
///
/// # Errors
///
/// `Unmovable` where it can't be moved there.
#[tactic(auto, unfolding(tramp_spec::specs::MovedWords::moved_of))]
pub fn move_word(word: u32, from: u64, to: u64) -> Result<Moved, Unmovable>
    ensures { IsMoved result (table.moved_of word from to) }
{
    match decode(word) {
        Some(Instr::Auipc { rd, imm }) => move_auipc(rd, imm, from, to),
        Some(Instr::Jal { rd, offset }) => move_jal(rd, offset, from, to),
        Some(Instr::Jalr { rd, rs1, offset }) => Ok(move_jalr(word, rd, rs1, offset, from)),
        Some(
            Instr::Branch {
                op,
                rs1,
                rs2,
                offset,
            },
        ) => { move_branch(op, rs1, rs2, offset, from, to) }
        _ => Ok(move_plain(word, from, to)),
    }
}
