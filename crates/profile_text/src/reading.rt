//! What a profile says of parts of a program's text.

ghost use Rattle.std.specs.Prelude.{◌≡◌, ◌+◌, ◌-◌, ◌%◌, ◌≤◌, is_none, IfOk};
ghost use Rattle.code_points.specs.Procedures.{AreProcsOf, IsProcOf};
ghost use Rattle.pn_types.specs.Images.{IsImage};
ghost use Rattle.rv_word.specs.Memory.{in_range};
ghost use Rattle.word_flow.specs.Numbers.{sum_at};
ghost use Rattle.profile_text.specs.NumberedWords.{number_at, words_of_none, words_of_procedure};
ghost use Rattle.profile_text.specs.ProfiledTexts.{IsProfiledText};
ghost use Rattle.profile_text.specs.Totals.{Fits};

use crate::finding::procedure_at;
use crate::numbered_word::{NumberedWord, numbered_words};
use crate::profiled_text::ProfiledText;
use crate::sums::sums;
use pn_types::{Image, NoMemory, Proc};
use std::alloc::Global;
use word_counts::Profile;

/// Returns a program's text with its procedures and its profile.
///
/// # Errors
///
/// `NoMemory` where memory runs out.
pub fn profiled_text<'a>(
    alloc: Global,
    image: &'a Image,
    procs: &'a [Proc],
    profile: &'a Profile,
) -> Result<ProfiledText<'a>, NoMemory>
    requires image { IsImage image.now }
    requires procs { AreProcsOf image.now procs.now }
    requires fits { Fits image.now profile.now }
    ensures is { IfOk result IsProfiledText }
    ensures image { IfOk result (λ text. text.image.now ≡ image.now) }
    ensures procs { IfOk result (λ text. text.procs.now ≡ procs.now) }
    ensures profile { IfOk result (λ text. text.profile.now ≡ profile.now) }
{
    let words = numbered_words(alloc, image, profile)?;
    let sums = sums(alloc, &words)?;
    Ok(ProfiledText {
        image,
        procs,
        profile,
        words,
        sums,
    })
}

/// Returns the words of a procedure.
pub fn words_of<'a>(text: &'a ProfiledText<'_>, proc: &Proc) -> &'a [NumberedWord]
    requires text { IsProfiledText text.now }
    requires proc { IsProcOf text.now.image.now proc.now }
    ensures { result.now ≡ words_of_procedure text.now.image.now text.now.profile.now proc.now }
{
    let first = (proc.start - text.image.text_at) / 4;
    let words = proc.len / 4;
    &text.words[first as usize..(first + words) as usize]
}

/// Returns the number of the word at an address of the text.
pub fn number_at(text: &ProfiledText<'_>, at: u64) -> u64
    requires text { IsProfiledText text.now }
    requires behind { text.now.image.now.text_at ≤ at }
    requires before { at + 4 ≤ text.now.image.now.text_at + text.now.image.now.text_len }
    ensures { result ≡ number_at text.now.image.now text.now.profile.now at }
{
    let place = (at - text.image.text_at) / 4;
    text.words[place as usize].number
}

/// Returns the ticks at the words from `first` up to `end`, which are addresses of words.
pub fn ticks_between(text: &ProfiledText<'_>, first: u64, end: u64) -> u64
    requires text { IsProfiledText text.now }
    requires first { first % 4 ≡ 0 }
    requires end { end % 4 ≡ 0 }
    requires behind { text.now.image.now.text_at ≤ first }
    requires order { first ≤ end }
    requires before { end ≤ text.now.image.now.text_at + text.now.image.now.text_len }
    ensures { result ≡ sum_at (in_range first (end - first)) text.now.profile.now.numbers text.now.image.now.text_at }
{
    let at = text.image.text_at;
    text.sums[((end - at) / 4) as usize] - text.sums[((first - at) / 4) as usize]
}

/// Returns the words that no procedure has.
///
/// # Errors
///
/// `NoMemory` where memory runs out.
pub fn words_of_none(alloc: Global, text: &ProfiledText<'_>) -> Result<Vec<NumberedWord>, NoMemory>
    requires { IsProfiledText text.now }
    ensures { IfOk result (λ words. words.items ≡ words_of_none text.now.image.now text.now.procs.now text.now.profile.now) }
{
    let mut words = Vec::new(alloc);
    for word in &text.words {
        if procedure_at(text.procs, word.at).is_none() {
            words.push(*word)?;
        }
    }
    Ok(words)
}
