//! The basic blocks of a program.

ghost use Rattle.std.specs.Prelude.{◌≡◌, ◌+◌, ◌*◌, ◌<◌, ◌≤◌, ◌^◌, drop, length, IfOk};
ghost use Rattle.pn_types.specs.Images.{IsImage};
ghost use Rattle.block_count.specs.Heads.{heads_in, heads_of, words_behind};
ghost use Rattle.block_count.specs.Marked.{marked_in};

use crate::block_head::BlockHead;
use crate::marking::marks;
use crate::text::{goes_on, is_head, text_words};
use pn_types::{Image, NoMemory, Proc};
use std::alloc::Global;

/// Returns how many words from a place on belong to the block before them: up to the next that is marked or is no instruction.
fn words_behind(at: u64, words: &[u32], marks: &[bool], first: usize) -> u32
    requires marks { length marks.now ≡ length words.now }
    requires first { first ≤ length words.now }
    requires few { length words.now < 2 ^ 31 }
    ensures behind { result ≡ words_behind (marked_in at marks.now) (drop first words.now) (at + 4 * first) }
    ensures few { result ≤ length words.now }
{
    let mut count = 0;
    for place in first..words.len() {
        if !goes_on(marks[place], words[place]) {
            return count;
        }
        count += 1;
    }
    count
}

/// Returns the blocks of a text whose words are marked where blocks begin.
fn marked_heads(
    alloc: Global,
    at: u64,
    words: &[u32],
    marks: &[bool],
) -> Result<Vec<BlockHead>, NoMemory>
    requires marks { length marks.now ≡ length words.now }
    requires few { length words.now < 2 ^ 31 }
    requires text { at + 4 * length words.now < 2 ^ 64 }
    ensures heads { IfOk result (λ heads. heads.items ≡ heads_in (marked_in at marks.now) words.now at) }
    ensures few { IfOk result (λ heads. length heads.items ≤ length words.now) }
{
    let mut heads = Vec::new(alloc);
    for place in 0..words.len() {
        if is_head(marks[place], words[place]) {
            heads.push(BlockHead {
                at: at + 4 * place as u64,
                words: 1 + words_behind(at, words, marks, place + 1),
            })?;
        }
    }
    Ok(heads)
}

/// Returns the basic blocks of a program, by ascending address. A word of the text that is an instruction begins one where it is at
/// the entry or the start of one of these procedures, where a jump or branch of the text leads, or after a jump, a branch or a word
/// that is no instruction. The block goes on to the beginning of the next one, to a word that is no instruction, or to the text's
/// end.
///
/// # Errors
///
/// `NoMemory` where memory runs out.
pub fn heads(alloc: Global, image: &Image, procs: &[Proc]) -> Result<Vec<BlockHead>, NoMemory>
    requires { IsImage image.now }
    ensures heads { IfOk result (λ heads. heads.items ≡ heads_of image.now procs.now) }
    ensures few { IfOk result (λ heads. length heads.items < 2 ^ 31) }
{
    let words = text_words(alloc, image)?;
    let marks = marks(alloc, image, procs, &words)?;
    marked_heads(alloc, image.text_at, &words, &marks)
}
