//! Moved words and blocks, printed.

ghost use Rattle.std.specs.Prelude.{◌≡◌, ◌<◌, ◌^◌, length, IfOk};

use crate::code::numbers::Numbers;
use pn_types::NoMemory;
use relocate::{move_word, moved_len};
use std::alloc::Global;
use std::io;
use tramp_build::{base_block, mini_block, set_next};
use tramp_spec::{Block, Mark, MarkedWord, Moved};

/// Blocks lie below.
const TOP: u64 = 1 << 30;

fn mark_name(mark: Mark) -> &'static str {
    match mark {
        Mark::Own => "own",
        Mark::Enter => "enter",
        Mark::Tool => "tool",
        Mark::Leave => "leave",
    }
}

/// Prints a word with its mark.
pub fn print_word(rt: &impl Print, word: u32, mark: Mark) -> io::Result<()> {
    let name = mark_name(mark);
    println!(rt; "{word:08x} {name}")
}

fn print_words(rt: &impl Print, words: &[MarkedWord]) -> io::Result<()> {
    for marked in words {
        print_word(rt, marked.word, marked.mark)?;
    }
    Ok(())
}

fn print_block(rt: &impl Print, block: &Block) -> io::Result<()> {
    let point = block.point;
    let at = block.at;
    let kind = if block.base { "base" } else { "mini" };
    println!(rt; "{kind} {point:x} at {at:x}")?;
    print_words(rt, block.words.as_slice())
}

/// A word moved from one address to another.
fn moved(word: u64, from: u64, to: u64) -> Option<Moved> {
    move_word((word % 0x1_0000_0000) as u32, from, to).ok()
}

/// Prints how many words a moved word has, and these.
pub fn print_moved(rt: &impl Print, numbers: Numbers) -> io::Result<()> {
    let count = moved_len((numbers.first % 0x1_0000_0000) as u32);
    println!(rt; "{count}")?;
    match moved(numbers.first, numbers.second, numbers.third) {
        Some(moved) => print_words(rt, moved.as_slice()),
        None => println!(rt; "unmovable"),
    }
}

/// Prints the base block of the point, where its word can be moved.
pub fn print_base(rt: &impl Print, alloc: Global, numbers: Numbers) -> io::Result<()> {
    let at = numbers.second;
    if at >= TOP - 12 {
        return println!(rt; "too high");
    }
    match moved(numbers.third, numbers.first, at + 12) {
        Some(moved) => {
            let room = Vec::with_capacity(alloc, 7)?;
            print_block(rt, &base_block(numbers.first, at, &moved, room))
        }
        None => println!(rt; "unmovable"),
    }
}

/// The mini block of one counter in slot 2.
///
/// # Errors
///
/// `NoMemory` if memory runs out.
pub fn counter(alloc: Global, at: u64, next: u64) -> Result<Block, NoMemory>
    requires low { at < 2 ^ 30 }
    ensures { IfOk result (λ b. (length b.words ≡ 5) × (b.at ≡ at)) }
{
    let mut body = Vec::with_capacity(alloc, 5)?;
    body.extend_from_slice(&[
        MarkedWord::tool(0x00000fb7),
        MarkedWord::tool(0x010fb283),
        MarkedWord::tool(0x00128293),
        MarkedWord::tool(0x005fb823),
    ])?;
    Ok(mini_block(0x10000, at, body, next))
}

/// Prints the mini block of a counter.
pub fn print_mini(rt: &impl Print, alloc: Global, numbers: Numbers) -> io::Result<()> {
    if numbers.first >= TOP {
        return println!(rt; "too high");
    }
    print_block(rt, &counter(alloc, numbers.first, numbers.second)?)
}

/// The mini block of a counter, which leads elsewhere afterwards.
pub fn print_relinked(rt: &impl Print, alloc: Global, numbers: Numbers) -> io::Result<()> {
    if numbers.first >= TOP {
        return println!(rt; "too high");
    }
    let mut block = counter(alloc, numbers.first, numbers.second)?;
    set_next(&mut block, numbers.third);
    print_block(rt, &block)
}
