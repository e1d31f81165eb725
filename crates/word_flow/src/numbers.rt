//! The numbers of words: how often each was executed at least.

ghost use Rattle.std.specs.Prelude.{◌≡◌, ◌+◌, ◌*◌, ◌<◌, ◌^◌, length, IfOk};
ghost use Rattle.rv_word.specs.Names.{ends_block};
ghost use Rattle.rv_word.specs.Table.{decode_of};
ghost use Rattle.word_flow.specs.Numbers.{flow_to_next, number_of, numbers_of};

use crate::hart_end::{HartEnd, harts_stopped_at, harts_waiting_at};
use pn_types::NoMemory;
use rv_word::{Instr, decode};
use std::alloc::Global;

/// Returns whether a basic block ends with the word.
fn ends_block(word: u32) -> bool
    ensures { result ≡ ends_block (decode_of word) }
{
    matches!(
        decode(word),
        None | Some(Instr::Jal { .. } | Instr::Jalr { .. } | Instr::Branch { .. })
    )
}

/// Returns how many of the executions of the word at an address, `number` of them, go on with the next word.
fn flow_to_next(ends: &[HartEnd], word: u32, at: u64, number: u64) -> u64
    requires { at + 4 < 2 ^ 64 }
    ensures { result ≡ flow_to_next ends.now word at number }
{
    if ends_block(word) {
        return 0;
    }
    number
        .saturating_sub(harts_stopped_at(ends, at) as u64)
        .saturating_sub(harts_waiting_at(ends, at + 4) as u64)
}

/// Returns the number of the word at an address, from its count and the flow from the word before.
fn number_of(count: Option<u64>, ends: &[HartEnd], at: u64, flow: u64) -> u64
    ensures { result ≡ number_of count ends.now at flow }
{
    match count {
        Some(number) => number,
        None => flow.max(harts_stopped_at(ends, at) as u64),
    }
}

/// Returns the numbers of a text's words, from the counts of those that were counted and from how the harts of the run ended. The
/// first word stands at `at`. A number is how often its word was executed, or less, where no count is more than that.
///
/// # Errors
///
/// `NoMemory` where memory runs out.
pub fn word_numbers(
    alloc: Global,
    at: u64,
    words: &[u32],
    counts: &[Option<u64>],
    ends: &[HartEnd],
) -> Result<Vec<u64>, NoMemory>
    requires text { at + 4 * length words.now < 2 ^ 64 }
    requires counts { length counts.now ≡ length words.now }
    ensures { IfOk result (λ numbers. numbers.items ≡ numbers_of (record { at = at; words = words.now }) ends.now counts.now) }
{
    let mut numbers = Vec::with_capacity(alloc, words.len())?;
    let mut flow = 0;
    for place in 0..words.len() {
        let address = at + 4 * place as u64;
        let number = number_of(counts[place], ends, address, flow);
        numbers.push(number)?;
        flow = flow_to_next(ends, words[place], address, number);
    }
    Ok(numbers)
}
