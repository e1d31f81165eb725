//! The blocks of a site.

ghost use Rattle.std.specs.Prelude.{◌≡◌, ◌+◌, ◌*◌, ◌<◌, ◌≤◌, ◌^◌, [], length, vec_capacity};
ghost use Rattle.prim_code.specs.Counts.{word_count};
ghost use Rattle.prim_code.specs.Named.{AreBelow};
ghost use Rattle.std.specs.Option.{option_map};
ghost use Rattle.tramp_spec.specs.Blocks.{moved_at};
ghost use Rattle.tramp_spec.specs.MovedWords.{moved_of};
ghost use Rattle.tramp_spec.specs.Statements.{body_of};
ghost use Rattle.instrument.specs.Admission.{a_base, a_mini};

use pn_types::Site;
use prim_code::compile;
use relocate::move_word;
use tramp_build::{base_block, mini_block};
use tramp_spec::{Block, MarkedWord, Moved};

/// Returns the base block of a point at a room, made of the moved words of the program's word. These were moved to where they stand
/// in the block. `words` gives the memory.
pub fn build_base(point: u64, at: u64, moved: &Moved, words: Vec<MarkedWord>) -> Block
    requires empty { words.items ≡ [] }
    requires room { 7 ≤ vec_capacity words }
    requires low { at < 2 ^ 63 }
    ensures { result ≡ a_base point at moved.now }
{
    base_block(point, at, moved, words)
}

/// Returns the base block of a point at a room, made of the program's word: None where the word can't be moved there.
pub fn move_base(point: u64, word: u32, at: u64, words: Vec<MarkedWord>) -> Option<Block>
    requires empty { words.items ≡ [] }
    requires room { 7 ≤ vec_capacity words }
    requires points { point < 2 ^ 63 }
    requires low { at + 12 < 2 ^ 63 }
    ensures { result ≡ option_map (a_base point at) (moved_of word point (moved_at at)) }
{
    match move_word(word, point, at + 12) {
        Ok(moved) => Some(build_base(point, at, &moved, words)),
        Err(_) => None,
    }
}

/// Returns the mini block of a site at a room, on these slots. `words` gives the memory. Where it leads on to is set when it is
/// written.
pub fn build_mini(site: &Site, slots: &[u32], at: u64, words: Vec<MarkedWord>) -> Block
    requires empty { words.items ≡ [] }
    requires room { word_count site.now.stmts < vec_capacity words }
    requires named { AreBelow (length slots.now) site.now.stmts }
    requires count { word_count site.now.stmts < 2 ^ 32 }
    requires low { at + 4 * word_count site.now.stmts < 2 ^ 63 }
    ensures { result ≡ a_mini site.now.at at (body_of slots.now site.now.stmts) }
{
    let mut words = words;
    compile(site.stmts.as_slice(), slots, &mut words);
    mini_block(site.at, at, words, at)
}
