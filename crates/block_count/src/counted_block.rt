//! Where the counters of a program's blocks stand.

ghost use Rattle.std.specs.Prelude.{◌≡◌, ◌+◌, ◌*◌, ◌<◌, ◌≤◌, ◌^◌, IfOk, IfSome, length, map};
ghost use Rattle.std.specs.List.{AllByRecursion};
ghost use Rattle.std.specs.Option.{option_map};
ghost use Rattle.pn_types.specs.Images.{IsImage};
ghost use Rattle.rv_word.specs.Plain.{program_word};
ghost use Rattle.rv_mem.specs.Start.{program_of};
ghost use Rattle.tramp_spec.specs.Banks.{first_slot};
ghost use Rattle.tramp_spec.specs.Codes.{tool_at};
ghost use Rattle.tramp_spec.specs.MovedWords.{moved_of};
ghost use Rattle.block_count.specs.Counters.{end_of};
ghost use Rattle.block_count.specs.CountedBlocks.{counter_for, counters_in, counted_from, counted_blocks_of};

use crate::block_head::BlockHead;
use crate::counter::Counter;
use crate::finding::heads;
use crate::text::text_words;
use pn_types::{FIRST_SLOT, Image, NoMemory, Proc, SEGMENTS_TO};
use relocate::move_word;
use std::alloc::Global;
use tramp_spec::Moved;

/// A block, and its counter if it can be counted.
#[derive(Drop)]
pub struct CountedBlock {
    pub head: BlockHead,
    pub counter: Option<Counter>,
}

/// Returns the word at an address, where a text that begins at `text_at` has one there.
fn word_at(text_at: u64, words: &[u32], at: u64) -> Option<u32>
    ensures word { result ≡ program_word (record { at = text_at; words = words.now }) at }
    ensures low { IfSome result (λ word. at < text_at + 4 * length words.now) }
{
    if at < text_at || (at - text_at) % 4 != 0 {
        return None;
    }
    words.get(((at - text_at) / 4) as usize).copied()
}

/// Returns the words that do at an address what the word at a point does: None where it can't be moved there.
fn moved(word: u32, point: u64, to: u64) -> Option<Moved>
    ensures words { result ≡ moved_of word point to }
    ensures few { IfSome result (λ moved. length moved ≤ 4) }
{
    move_word(word, point, to).ok()
}

/// Returns the counter of a block's first word, on a slot and with its base block at an address: None where the word can't be moved
/// there.
fn counter(text_at: u64, words: &[u32], point: u64, slot: u32, at: u64) -> Option<Counter>
    requires text { text_at + 4 * length words.now ≤ SEGMENTS_TO }
    requires at { at < 2 ^ 62 }
    ensures counter { result ≡ counter_for (record { at = text_at; words = words.now }) slot at point }
    ensures near { IfSome result (λ counter. end_of counter ≤ at + 48) }
{
    let word = word_at(text_at, words, point)?;
    let moved = moved(word, point, at + 12)?;
    Some(Counter {
        point,
        slot,
        at,
        moved,
    })
}

/// Returns the blocks with their counters, which stand from an address of the tool text on.
fn counted_from(
    alloc: Global,
    text_at: u64,
    words: &[u32],
    heads: &[BlockHead],
    first: u64,
) -> Result<Vec<CountedBlock>, NoMemory>
    requires text { text_at + 4 * length words.now ≤ SEGMENTS_TO }
    requires few { length heads.now < 2 ^ 31 }
    requires first { first < 2 ^ 32 }
    ensures blocks { IfOk result
        (λ blocks. blocks.items ≡ counted_from (record { at = text_at; words = words.now }) first_slot first heads.now) }
    ensures len { IfOk result (λ blocks. length blocks.items ≡ length heads.now) }
{
    let mut blocks = Vec::with_capacity(alloc, heads.len())?;
    let mut slot = FIRST_SLOT;
    let mut at = first;
    for head in heads {
        let counter = counter(text_at, words, head.at, slot, at);
        if let Some(counter) = &counter {
            slot += 1;
            at = counter.end();
        }
        blocks.push(CountedBlock {
            head: *head,
            counter,
        })?;
    }
    Ok(blocks)
}

/// Returns the blocks of a program with their counters.
///
/// # Errors
///
/// `NoMemory` where memory runs out.
pub fn counted_blocks(
    alloc: Global,
    image: &Image,
    procs: &[Proc],
) -> Result<Vec<CountedBlock>, NoMemory>
    requires { IsImage image.now }
    ensures blocks { IfOk result (λ blocks. blocks.items ≡ counted_blocks_of image.now procs.now) }
    ensures few { IfOk result (λ blocks. length blocks.items < 2 ^ 31) }
    ensures narrow { IfOk result (λ blocks. AllByRecursion (λ word. word < 2 ^ 32) (program_of image.now).words) }
{
    let heads = heads(alloc, image, procs)?;
    let words = text_words(alloc, image)?;
    let end = image.text_at + 4 * words.len() as u64;
    counted_from(
        alloc,
        image.text_at,
        &words,
        &heads,
        end.next_multiple_of(4096),
    )
}

/// Returns the counters of blocks.
///
/// # Errors
///
/// `NoMemory` where memory runs out.
pub fn counters(alloc: Global, blocks: &[CountedBlock]) -> Result<Vec<&Counter>, NoMemory>
    ensures counters { IfOk result (λ counters. map (λ c. c.now) counters.items ≡ counters_in blocks.now) }
    ensures few { IfOk result (λ counters. length counters.items ≤ length blocks.now) }
{
    let mut counters = Vec::new(alloc);
    for block in blocks {
        if let Some(counter) = &block.counter {
            counters.push(counter)?;
        }
    }
    Ok(counters)
}
