//! The words of a text at which blocks begin.

ghost use Rattle.std.specs.Prelude.{◌≡◌, ℕ, ◌+◌, ◌*◌, ◌<◌, ◌^◌, ◌==◌, ◌||◌, false, get_or, length, IfOk};
ghost use Rattle.std.specs.List.{list_any};
ghost use Rattle.pn_types.specs.Images.{IsImage};
ghost use Rattle.rv_mem.specs.Start.{program_of};
ghost use Rattle.block_count.specs.Heads.{begins, is_opened, opens};

use crate::text::ends_block;
use pn_types::{Image, NoMemory, Proc};
use rv_word::jump_target;
use std::alloc::Global;

/// Marks the word at an address, where a text that begins at `at` has one there.
fn mark(marks: &mut [bool], at: u64, address: u64)
    requires { at + 4 * length marks.old < 2 ^ 64 }
    ensures { (k : ℕ) → k < length marks.old → get_or marks.new k false ≡ (get_or marks.old k false || (address == at + 4 * k)) }
{
    if address < at || (address - at) % 4 != 0 {
        return;
    }
    let place = (address - at) / 4;
    if place < marks.len() as u64 {
        marks[place as usize] = true;
    }
}

/// Marks where the word at an address leads, and the word after it if it ends a block.
fn mark_opened(marks: &mut [bool], at: u64, address: u64, word: u32)
    requires text { at + 4 * length marks.old < 2 ^ 64 }
    requires address { address + 4 < 2 ^ 64 }
    ensures { (k : ℕ) → k < length marks.old → get_or marks.new k false ≡ (get_or marks.old k false || opens word address (at + 4 * k)) }
{
    if let Some(target) = jump_target(word, address) {
        mark(marks, at, target);
    }
    if ends_block(word) {
        mark(marks, at, address + 4);
    }
}

/// Does the same for each word of a text.
fn mark_all_opened(marks: &mut [bool], at: u64, words: &[u32])
    requires text { at + 4 * length marks.old < 2 ^ 64 }
    requires words { at + 4 * length words.now < 2 ^ 64 }
    ensures { (k : ℕ) → k < length marks.old
        → get_or marks.new k false ≡ (get_or marks.old k false || is_opened words.now at (at + 4 * k)) }
{
    for place in 0..words.len() {
        mark_opened(marks, at, at + 4 * place as u64, words[place]);
    }
}

/// Marks the first words of procedures.
fn mark_starts(marks: &mut [bool], at: u64, procs: &[Proc])
    requires { at + 4 * length marks.old < 2 ^ 64 }
    ensures { (k : ℕ) → k < length marks.old
        → get_or marks.new k false ≡ (get_or marks.old k false || list_any (λ p. p.start == at + 4 * k) procs.now) }
{
    for proc in procs {
        mark(marks, at, proc.start);
    }
}

/// Marks the words of an image's text at which a block begins.
///
/// # Errors
///
/// `NoMemory` where memory runs out.
pub fn marks(
    alloc: Global,
    image: &Image,
    procs: &[Proc],
    words: &[u32],
) -> Result<Vec<bool>, NoMemory>
    requires words { words.now ≡ (program_of image.now).words }
    requires text { image.now.text_at + 4 * length words.now < 2 ^ 64 }
    ensures len { IfOk result (λ marks. length marks.items ≡ length words.now) }
    ensures marks { IfOk result (λ marks. (k : ℕ)
        → k < length words.now → get_or marks.items k false ≡ begins image.now procs.now (image.now.text_at + 4 * k)) }
{
    let mut marks = vec![in alloc; false; words.len()]?;
    mark(&mut marks, image.text_at, image.entry);
    mark_starts(&mut marks, image.text_at, procs);
    mark_all_opened(&mut marks, image.text_at, words);
    Ok(marks)
}
