//! The words of a program's text.

ghost use Rattle.std.specs.Prelude.{◌≡◌, ◌+◌, ◌*◌, ◌<◌, ◌≤◌, ◌^◌, ◌&&◌, not, length, IfOk};
ghost use Rattle.std.specs.List.{AllByRecursion};
ghost use Rattle.pn_types.specs.Images.{IsImage};
ghost use Rattle.rv_mem.specs.Start.{program_of};
ghost use Rattle.rv_word.specs.Names.{ends_block, words_of};
ghost use Rattle.rv_word.specs.Table.{decode_of};
ghost use Rattle.block_count.specs.Heads.{is_instr};

use pn_types::{Image, NoMemory, SEGMENTS_TO};
use rv_word::{Instr, decode, split_word};
use std::alloc::Global;

/// Returns the words of bytes.
fn words(alloc: Global, text: &[u8]) -> Result<Vec<u32>, NoMemory>
    ensures { IfOk result (λ words. words.items ≡ words_of text.now) }
{
    let mut words = Vec::with_capacity(alloc, text.len() / 4)?;
    let mut rest = text;
    for _ in 0..text.len() / 4 {
        let (word, others) = split_word(rest);
        words.push(word)?;
        rest = others;
    }
    Ok(words)
}

/// What holds of any words: they have 32 bits.
fn have_32_bits(words: &[u32])
    ensures { AllByRecursion (λ word. word < 2 ^ 32) words.now }
{}

/// Returns the words of an image's text, which lie below the end of the segments.
///
/// # Errors
///
/// `NoMemory` where memory runs out.
pub fn text_words(alloc: Global, image: &Image) -> Result<Vec<u32>, NoMemory>
    requires { IsImage image.now }
    ensures words { IfOk result (λ words. words.items ≡ (program_of image.now).words) }
    ensures low { IfOk result (λ words. image.now.text_at + 4 * length words.items ≤ SEGMENTS_TO) }
    ensures narrow { IfOk result (λ words. AllByRecursion (λ word. word < 2 ^ 32) (program_of image.now).words) }
{
    let words = words(alloc, image.text_bytes())?;
    have_32_bits(&words);
    Ok(words)
}

/// Returns whether a block begins with the word: it is an instruction, and marked.
pub fn is_head(marked: bool, word: u32) -> bool
    ensures { result ≡ is_instr word && marked }
{
    marked && decode(word).is_some()
}

/// Returns whether a block goes on with the word: it is an instruction, and isn't marked.
pub fn goes_on(marked: bool, word: u32) -> bool
    ensures { result ≡ is_instr word && not marked }
{
    !marked && decode(word).is_some()
}

/// Returns whether a block ends with the word.
pub fn ends_block(word: u32) -> bool
    ensures { result ≡ ends_block (decode_of word) }
{
    matches!(
        decode(word),
        None | Some(Instr::Jal { .. } | Instr::Jalr { .. } | Instr::Branch { .. })
    )
}
