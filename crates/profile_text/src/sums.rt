//! Sums of the numbers of words.

ghost use Rattle.std.specs.Prelude.{◌<◌, ◌^◌, IfOk, sum_by};
ghost use Rattle.profile_text.specs.Sums.{AreSums};

use crate::numbered_word::NumberedWord;
use pn_types::NoMemory;
use std::alloc::Global;

/// Returns, for each place among these words and for that behind them, the sum of the numbers of all words before it.
///
/// # Errors
///
/// `NoMemory` where memory runs out.
pub fn sums(alloc: Global, words: &[NumberedWord]) -> Result<Vec<u64>, NoMemory>
    requires { sum_by (λ x. x.number) words.now < 2 ^ 64 }
    ensures { IfOk result (λ sums. AreSums words.now sums.items) }
{
    let mut sums = Vec::new(alloc);
    let mut sum = 0;
    for word in words {
        sums.push(sum)?;
        sum += word.number;
    }
    sums.push(sum)?;
    Ok(sums)
}
