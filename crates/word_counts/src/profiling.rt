//! Profiles the words of a program.

ghost use Rattle.std.specs.Prelude.{◌≡◌, ◌≤◌, ◌<◌, ◌^◌, None, sum, IfErr, IfOk};
ghost use Rattle.pn_types.specs.Images.{IsImage, text_of};
ghost use Rattle.rv_word.specs.Names.{scratch_in, words_of};
ghost use Rattle.block_count.specs.Counted.{IsFault};
ghost use Rattle.word_counts.specs.Profiles.{IsProfile};

use crate::ends::hart_ends;
use crate::placing::counts_of_words;
use crate::profile::Profile;
use block_count::{CountFault, count, heads, text_words};
use pn_types::{Image, MAX_BUDGET, MAX_HARTS, Proc, Seq};
use std::alloc::Global;
use word_flow::{untold_ticks, word_numbers};

/// Returns the ticks of all harts together.
fn total(ticks: &[u64]) -> u64
    requires { sum ticks.now < 2 ^ 64 }
    ensures { result ≡ sum ticks.now }
{
    ticks.iter().sum()
}

/// Counts how often each basic block of a program is executed, as `count` does with the same arguments, and from that how often each
/// word of its text is: a number for each, which is never more than that, and how many ticks the numbers don't tell.
///
/// # Errors
///
/// Those of `count`: `TooManyBlocks` with the number of blocks that can be counted exactly where there are more than slots; `NoMemory`
/// where memory runs out.
pub fn profile_words(
    alloc: Global,
    image: &Image,
    procs: &[Proc],
    harts: u32,
    budget: u64,
    seed: u32,
    quantum: u32,
) -> Result<Profile, CountFault>
    requires image { IsImage image.now }
    requires unscratched { scratch_in (words_of (text_of image.now)) image.now.text_at ≡ None }
    requires harts { harts ≤ MAX_HARTS }
    requires budget { budget ≤ MAX_BUDGET }
    ensures profile { IfOk result (IsProfile image.now procs.now budget (record { harts = harts; turns = quantum; seed = seed })) }
    ensures refused { IfErr result (IsFault image.now procs.now) }
{
    let heads = heads(alloc, image, procs)?;
    let words = text_words(alloc, image)?;
    let counts = count(alloc, image, procs, harts, budget, seed, quantum)?;
    let word_counts = counts_of_words(
        alloc,
        image.text_at,
        words.len(),
        &heads,
        counts.counts.as_slice(),
    )?;
    let ends = hart_ends(alloc, counts.stops.as_slice())?;
    let numbers = word_numbers(alloc, image.text_at, &words, &word_counts, &ends)?;
    let ticks = total(counts.ticks.as_slice());
    let untold = untold_ticks(ticks, image.text_at, &words, &ends, &numbers);
    Ok(Profile {
        counts,
        numbers: Seq::from_vec(numbers),
        untold,
    })
}
