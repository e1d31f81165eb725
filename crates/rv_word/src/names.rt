//! What a word names and where it leads.

ghost use Rattle.std.specs.Prelude.{◌≡◌, ◌≤◌, ◌<◌, ◌+◌, ◌*◌, ◌/◌, ◌%◌, ◌^◌, length, drop};
ghost use Rattle.rv_word.specs.Table.{decode_of};
ghost use Rattle.rv_word.specs.Names.{names, has_scratch, target_of, jump_of, is_call_of, is_return_of, links, scratch_in, word_at, words_of};

use crate::decoding::decode;
use crate::instr::Instr;

impl Instr {
    /// Whether one of the registers is r.
    fn has_register(&self, r: u32) -> bool
        ensures { result ≡ names r self.now }
    {
        match *self {
            Instr::Lui { rd, .. } | Instr::Auipc { rd, .. } | Instr::Jal { rd, .. } => rd == r,
            Instr::Jalr { rd, rs1, .. }
            | Instr::Load { rd, rs1, .. }
            | Instr::OpImm { rd, rs1, .. }
            | Instr::ShiftImm { rd, rs1, .. }
            | Instr::Addiw { rd, rs1, .. }
            | Instr::ShiftImm32 { rd, rs1, .. }
            | Instr::Lr { rd, rs1, .. } => rd == r || rs1 == r,
            Instr::Branch { rs1, rs2, .. } | Instr::Store { rs1, rs2, .. } => rs1 == r || rs2 == r,
            Instr::Op { rd, rs1, rs2, .. }
            | Instr::Op32 { rd, rs1, rs2, .. }
            | Instr::Sc { rd, rs1, rs2, .. }
            | Instr::Amo { rd, rs1, rs2, .. } => rd == r || rs1 == r || rs2 == r,
            Instr::Fence { .. } | Instr::Ecall | Instr::Ebreak => false,
        }
    }
}

/// Whether the word decodes and one of its registers is x31.
pub fn names_x31(word: u32) -> bool
    ensures { result ≡ has_scratch word }
{
    match decode(word) {
        Some(instr) => instr.has_register(31),
        None => false,
    }
}

/// Where the jump or branch at the address leads.
pub fn jump_target(word: u32, at: u64) -> Option<u64>
    ensures { result ≡ jump_of (decode_of word) at }
{
    match decode(word)? {
        Instr::Jal { offset, .. } | Instr::Branch { offset, .. } => Some(at.wrapping_add(offset)),
        _ => None,
    }
}

/// Whether the word jumps and links.
pub fn is_call(word: u32) -> bool
    ensures { result ≡ is_call_of (decode_of word) }
{
    match decode(word) {
        Some(Instr::Jal { rd, .. }) | Some(Instr::Jalr { rd, .. }) => rd == 1 || rd == 5,
        _ => false,
    }
}

/// Whether the word at the address leaves the procedure, which has `len` bytes from `start` on.
pub fn is_return(word: u32, at: u64, start: u64, len: u64) -> bool
    ensures { result ≡ is_return_of (decode_of word) at start len }
{
    match decode(word) {
        Some(Instr::Jalr { rd, rs1, offset }) => rd == 0 && (rs1 == 1 || rs1 == 5) && offset == 0,
        Some(Instr::Jal { rd, offset }) => {
            let target = at.wrapping_add(offset);
            rd == 0 && !(start <= target && target - start < len)
        }
        _ => false,
    }
}

/// Splits off the first word of the bytes, of which there are at least four. Returns it and the other bytes.
pub fn split_word(bytes: &[u8]) -> (u32, &[u8])
    requires { 4 ≤ length bytes.now }
    ensures word { result.0 ≡ word_at bytes.now }
    ensures rest { result.1.now ≡ drop 4 bytes.now }
{
    let (front, rest) = bytes.split_at(4);
    (
        u32::from_le_bytes([front[0], front[1], front[2], front[3]]),
        rest,
    )
}

/// The address of the first word of the text that names x31.
pub fn first_scratch(text: &[u8], at: u64) -> Option<u64>
    requires whole { length text.now % 4 ≡ 0 }
    requires below { at + length text.now < 2 ^ 64 }
    ensures { result ≡ scratch_in (words_of text.now) at }
{
    let mut place = at;
    let mut rest = text;
    for _ in 0..text.len() / 4 {
        let (word, others) = split_word(rest);
        if names_x31(word) {
            return Some(place);
        }
        rest = others;
        place += 4;
    }
    None
}
