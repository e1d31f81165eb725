//! Base blocks and mini blocks.

ghost use Rattle.std.specs.Prelude.{◌≡◌, ℕ, ◌<◌, ◌≤◌, ◌+◌, ◌-◌, ◌*◌, ◌%◌, ◌^◌, ◌++◌, [], ◌∷◌, length, true, false, Some, List, vec_capacity, vec_len};
ghost use Rattle.rv_word.specs.Plain.{Words, program_word};
ghost use Rattle.tramp_spec.specs.Blocks.{base_words, mini_words, tail_of, moved_at, IsBase, IsMini};
ghost use Rattle.tramp_spec.specs.Bodies.{Harmless};
ghost use Rattle.tramp_spec.specs.Jumps as jumps;
ghost use Rattle.tramp_spec.specs.MovedWords.{moved_of};
ghost use Rattle.tramp_spec.specs.declared.mark.MarkedWord.{MarkedWord as Word};

use pn_types::Seq;
use rv_word::{Instr, LoadOp, StoreOp, encode};
use tramp_spec::{Block, MarkedWord, Moved, jump_word};

/// The first three words of a base block: `sd x5, 8(x0)`, the head, which leads to the tail, and there `ld x5, 8(x0)`.
fn frame_of_base(at: u64) -> [MarkedWord; 3]
    requires { at < 2 ^ 63 }
    ensures { result ≡ base_words at (tail_of at) [] }
{
    let save = Instr::Store {
        op: StoreOp::Sd,
        rs1: 0,
        rs2: 5,
        offset: 8,
    };
    let restore = Instr::Load {
        op: LoadOp::Ld,
        rd: 5,
        rs1: 0,
        offset: 8,
    };
    [
        MarkedWord::tool(encode(&save)),
        MarkedWord::tool(jump_word(at + 4, at + 8)),
        MarkedWord::tool(encode(&restore)),
    ]
}

/// Appends words for which there is room.
fn append(out: &mut Vec<MarkedWord>, words: &[MarkedWord])
    requires room { vec_len out.old + length words.now ≤ vec_capacity out.old }
    ensures words { out.new.items ≡ out.old.items ++ words.now }
    ensures len { vec_len out.new ≡ vec_len out.old + length words.now }
    ensures capacity { vec_capacity out.new ≡ vec_capacity out.old }
{
    for word in words {
        out.push_reserved(*word);
    }
}

/// The base block of a point at an address, out of the moved words of the program's word, which were moved to `at + 12`. Its
/// head leads to its own tail. `words` gives the room, and is empty.
pub fn base_block(point: u64, at: u64, moved: &Moved, words: Vec<MarkedWord>) -> Block
    requires empty { words.items ≡ [] }
    requires room { 7 ≤ vec_capacity words }
    requires low { at < 2 ^ 63 }
    ensures point { result.point ≡ point }
    ensures at { result.at ≡ at }
    ensures base { result.base ≡ true }
    ensures words { result.words ≡ base_words at (tail_of at) moved.now }
    ensures shape { (program : Words) (word : ℕ) → program_word program point ≡ Some word
        → moved_of word point (moved_at at) ≡ Some moved.now → at % 4 ≡ 0 → IsBase program point at (tail_of at) result.words }
{
    let mut words = words;
    append(&mut words, &frame_of_base(at));
    append(&mut words, moved.as_slice());
    Block {
        point,
        at,
        words: Seq::from_vec(words),
        base: true,
    }
}

/// The mini block of a point at an address, out of the words of its body, which have room for one more. It leads to `next`.
pub fn mini_block(point: u64, at: u64, words: Vec<MarkedWord>, next: u64) -> Block
    requires room { vec_len words < vec_capacity words }
    requires low { at + 4 * length words.items < 2 ^ 63 }
    ensures point { result.point ≡ point }
    ensures at { result.at ≡ at }
    ensures base { result.base ≡ false }
    ensures words { result.words ≡ mini_words at words.items next }
    ensures shape { Harmless words.items → at % 4 ≡ 0 → jumps.reaches (at + 4 * length words.items) next ≡ true
        → IsMini at next result.words }
{
    let mut words = words;
    let end = at + 4 * words.len() as u64;
    words.push_reserved(MarkedWord::tool(jump_word(end, next)));
    Block {
        point,
        at,
        words: Seq::from_vec(words),
        base: false,
    }
}

/// Lets a mini block lead to another address.
pub fn set_next(block: &mut Block, next: u64)
    requires some { 0 < length block.old.words }
    requires low { block.old.at + 4 * length block.old.words < 2 ^ 63 }
    ensures point { block.new.point ≡ block.old.point }
    ensures at { block.new.at ≡ block.old.at }
    ensures base { block.new.base ≡ block.old.base }
    ensures words { (body : List Word) (last : Word) → block.old.words ≡ body ++ last ∷ []
        → block.new.words ≡ mini_words block.old.at body next }
    ensures shape { (before : ℕ) → IsMini block.old.at before block.old.words
        → jumps.reaches (block.old.at + 4 * (length block.old.words - 1)) next ≡ true → IsMini block.new.at next block.new.words }
{
    let last = block.words.as_slice().len() - 1;
    let jump = MarkedWord::tool(jump_word(block.at + 4 * last as u64, next));
    block.words.set(last, jump);
}
