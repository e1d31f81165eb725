//! Each row is printed before its result. Numbers are hexadecimal, between single spaces.
//!
//! - `move WORD FROM TO`: how many words the moved word has, and these.
//! - `base POINT AT WORD`: the base block of the point whose word this is, with the word moved there.
//! - `mini AT NEXT`: the mini block at an address of one counter in slot 2, which leads to the next. `relinked AT NEXT OTHER`: the
//!   same, made to lead elsewhere.
//! - of a store with three such blocks, `owner AT`: whose the word is; `dropped AT`: the same once the second block was dropped;
//!   `fetch AT INSIDE`: what a hart fetches.

mod blocks;
mod numbers;
mod stores;

use numbers::Numbers;
use std::alloc::Global;
use std::io;

/// Prints a row and what its call returns; `no call` where it isn't understood.
pub fn answer(rt: &impl Print, alloc: Global, row: &str) -> io::Result<()> {
    println!(rt; "{row}")?;
    let mut words = row.split(' ');
    let call = words.next().unwrap_or("");
    let numbers = Numbers::of(words.next(), words.next(), words.next());
    match call {
        "move" => blocks::print_moved(rt, numbers),
        "base" => blocks::print_base(rt, alloc, numbers),
        "mini" => blocks::print_mini(rt, alloc, numbers),
        "relinked" => blocks::print_relinked(rt, alloc, numbers),
        "owner" => stores::print_owner(rt, alloc, numbers),
        "dropped" => stores::print_dropped(rt, alloc, numbers),
        "fetch" => stores::print_fetched(rt, alloc, numbers),
        _ => println!(rt; "no call"),
    }
}
