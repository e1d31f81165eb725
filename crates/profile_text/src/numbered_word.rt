//! Words with their numbers.

ghost use Rattle.std.specs.Prelude.{◌≡◌, ◌+◌, ◌*◌, ◌<◌, ◌^◌, length, IfOk};
ghost use Rattle.pn_types.specs.Images.{IsImage};
ghost use Rattle.rv_mem.specs.Start.{program_of};
ghost use Rattle.profile_text.specs.NumberedWords.{numbered_words, with_numbers};

use block_count::text_words;
use pn_types::{Image, NoMemory};
use std::alloc::Global;
use word_counts::Profile;

/// A word of a program's text, with the number that a profile has for it.
#[derive(Clone, Copy, Debug, PartialEq, Eq, Drop)]
pub struct NumberedWord {
    /// Its address.
    pub at: u64,
    /// The word.
    pub word: u32,
    /// How often it was executed, or less.
    pub number: u64,
}

/// Returns words with their numbers, the first standing at an address.
fn with_numbers(
    alloc: Global,
    at: u64,
    words: &[u32],
    numbers: &[u64],
) -> Result<Vec<NumberedWord>, NoMemory>
    requires text { at + 4 * length words.now < 2 ^ 64 }
    requires numbers { length numbers.now ≡ length words.now }
    ensures { IfOk result (λ numbered. numbered.items ≡ with_numbers at words.now numbers.now) }
{
    let mut numbered = Vec::with_capacity(alloc, words.len())?;
    for place in 0..words.len() {
        numbered.push(NumberedWord {
            at: at + 4 * place as u64,
            word: words[place],
            number: numbers[place],
        })?;
    }
    Ok(numbered)
}

/// Returns the words of a program's text with the numbers of a profile.
///
/// # Errors
///
/// `NoMemory` where memory runs out.
pub fn numbered_words(
    alloc: Global,
    image: &Image,
    profile: &Profile,
) -> Result<Vec<NumberedWord>, NoMemory>
    requires image { IsImage image.now }
    requires numbers { length profile.now.numbers ≡ length (program_of image.now).words }
    ensures { IfOk result (λ numbered. numbered.items ≡ numbered_words image.now profile.now) }
{
    let words = text_words(alloc, image)?;
    with_numbers(alloc, image.text_at, &words, profile.numbers.as_slice())
}
