//! The program's words.

ghost use Rattle.std.specs.Prelude.{◌≡◌, ℕ, List, ◌<◌, ◌≤◌, ◌+◌, ◌*◌, ◌^◌, Some, None, IfOk, length};
ghost use Rattle.rv_word.specs.Names.{words_of};
ghost use Rattle.rv_word.specs.Plain.{program_word};

use pn_types::NoMemory;
use rv_exec::Decoded;
use rv_word::split_word;
use std::alloc::Global;

/// Decodes the words of the text.
///
/// # Errors
///
/// `NoMemory` if memory runs out.
pub fn words(alloc: Global, text: &[u8]) -> Result<Vec<Decoded>, NoMemory>
    ensures { IfOk result (λ words. words.items ≡ words_of text.now) }
{
    let mut words = Vec::new(alloc);
    let mut rest = text;
    for _ in 0..text.len() / 4 {
        let (word, others) = split_word(rest);
        words.push(Decoded::new(word))?;
        rest = others;
    }
    Ok(words)
}

/// The number of the word at the pc, if the text has one there, and else a number that is too great. The distance from the
/// beginning of the text is rotated by two bits: one that is below 0 or no multiple of 4 becomes great, so that one test finds all
/// of these.
#[inline(always)]
pub fn place_of(text_at: u64, pc: u64) -> u64
    ensures place { (len : ℕ) → text_at + 4 * len < 2 ^ 64 → result < len → pc ≡ text_at + 4 * result }
    ensures outside { (words : List ℕ) → text_at + 4 * length words < 2 ^ 64 → length words ≤ result
        → program_word (record { at = text_at; words = words }) pc ≡ None }
{
    let away = pc.wrapping_sub(text_at);
    away / 4 + away % 4 * 0x4000_0000_0000_0000
}

/// The word of a number, which is that at the pc.
#[inline(always)]
pub fn word_at(words: &[Decoded], i: u64, text_at: u64, pc: u64) -> &Decoded
    requires listed { i < length words.now }
    requires place { pc ≡ text_at + 4 * i }
    ensures { Some result.now ≡ program_word (record { at = text_at; words = words.now }) pc }
{
    &words[i as usize]
}
