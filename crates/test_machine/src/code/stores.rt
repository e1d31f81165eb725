//! A store of code in which three mini blocks of one point stand, five words each, at 0x11010, 0x11024 and 0x11038.

ghost use Rattle.std.specs.Prelude.{◌<◌, ◌^◌, IfOk, IsTrue};
ghost use Rattle.pn_types.specs.Images.{IsImage};
ghost use Rattle.code_store.specs.Stores.{IsInToolText};

use crate::code::blocks::{counter, print_word};
use crate::code::numbers::Numbers;
use code_store::Store;
use pn_types::{Image, NoMemory, Segment, Seq, TOOL_TEXT_LEN};
use std::alloc::Global;
use std::io;
use tramp_spec::Block;

/// A text of one word, `ret`.
fn image(alloc: Global) -> Result<Image, NoMemory>
    ensures { IfOk result IsImage }
{
    let mut segments = Vec::new(alloc);
    segments.push(Segment {
        at: 0x10000,
        bytes: Seq::from_vec(vec![in alloc; 0x67, 0x80, 0, 0]?),
        size: 4,
    })?;
    Ok(Image {
        segments: Seq::from_vec(segments),
        text_at: 0x10000,
        text_len: 4,
        entry: 0x10000,
        symbols: Seq::from_vec(Vec::new(alloc)),
    })
}

/// Whether `len` words from an address on lie in the tool text.
fn is_inside(store: &Store, at: u64, len: u64) -> bool
    requires { len < 2 ^ 32 }
    ensures { IsTrue result → IsInToolText store.now.program at len }
{
    let first = store.tool_at();
    at % 4 == 0 && first <= at && at < 1 << 32 && at + 4 * len <= first + TOOL_TEXT_LEN
}

/// Puts a block that lies in the tool text.
fn put(store: &mut Store, block: &Block) {
    let len = block.words.as_slice().len() as u64;
    if len < 1 << 32 && is_inside(store, block.at, len) {
        store.put_block(block);
    }
}

/// Drops words that lie in the tool text.
fn drop_words(store: &mut Store, at: u64, len: u32) {
    if is_inside(store, at, len as u64) {
        store.drop_block(at, len);
    }
}

/// The store with the three blocks.
fn store(alloc: Global) -> io::Result<Store> {
    let mut store = Store::new(alloc, &image(alloc)?)?;
    put(&mut store, &counter(alloc, 0x11010, 0x11008)?);
    put(&mut store, &counter(alloc, 0x11024, 0x11010)?);
    put(&mut store, &counter(alloc, 0x11038, 0x11024)?);
    Ok(store)
}

fn print_point(rt: &impl Print, point: Option<u64>) -> io::Result<()> {
    match point {
        Some(point) => println!(rt; "{point:x}"),
        None => println!(rt; "none"),
    }
}

/// Prints whose the word at an address is.
pub fn print_owner(rt: &impl Print, alloc: Global, numbers: Numbers) -> io::Result<()> {
    print_point(rt, store(alloc)?.owner(numbers.first))
}

/// Prints whose it is once the second block was dropped.
pub fn print_dropped(rt: &impl Print, alloc: Global, numbers: Numbers) -> io::Result<()> {
    let mut store = store(alloc)?;
    drop_words(&mut store, 0x11024, 5);
    print_point(rt, store.owner(numbers.first))
}

/// Prints what a hart fetches at an address, inside where the second number isn't 0.
pub fn print_fetched(rt: &impl Print, alloc: Global, numbers: Numbers) -> io::Result<()> {
    match store(alloc)?.fetch(numbers.first, numbers.second != 0) {
        Some((word, mark)) => print_word(rt, word, mark),
        None => println!(rt; "none"),
    }
}
