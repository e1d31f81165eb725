//! The counts of words, from those of blocks.

ghost use Rattle.std.specs.Prelude.{◌≡◌, ℕ, ◌+◌, ◌*◌, ◌<◌, ◌^◌, ◌==◌, if◌then◌else◌, None, get_or, length, IfOk};
ghost use Rattle.word_counts.specs.Placing.{count_at};

use block_count::BlockHead;
use pn_types::NoMemory;
use std::alloc::Global;

/// Sets the count of the word at an address, where a text that begins at `at` has one there.
fn set_count(counts: &mut [Option<u64>], at: u64, address: u64, count: Option<u64>)
    requires { at + 4 * length counts.old < 2 ^ 64 }
    ensures { (k : ℕ) → k < length counts.old
        → get_or counts.new k None ≡ (if address == at + 4 * k then count else get_or counts.old k None) }
{
    if address < at || (address - at) % 4 != 0 {
        return;
    }
    let place = (address - at) / 4;
    if place < counts.len() as u64 {
        counts[place as usize] = count;
    }
}

/// Returns the counts of so many words, the first of which stands at `at`, from the counts of the blocks with these heads: the count of
/// a block is that of its first word, and other words have none.
///
/// # Errors
///
/// `NoMemory` where memory runs out.
pub fn counts_of_words(
    alloc: Global,
    at: u64,
    words: usize,
    heads: &[BlockHead],
    block_counts: &[Option<u64>],
) -> Result<Vec<Option<u64>>, NoMemory>
    requires text { at + 4 * words < 2 ^ 64 }
    requires counts { length block_counts.now ≡ length heads.now }
    ensures len { IfOk result (λ counts. length counts.items ≡ words) }
    ensures counts { IfOk result (λ counts. (k : ℕ)
        → k < words → get_or counts.items k None ≡ count_at None heads.now block_counts.now (at + 4 * k)) }
{
    let mut counts = vec![in alloc; None; words]?;
    for block in 0..heads.len() {
        set_count(&mut counts, at, heads[block].at, block_counts[block]);
    }
    Ok(counts)
}
