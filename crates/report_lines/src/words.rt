//! What the words of a line spell.

ghost use Rattle.std.specs.Prelude.{◌≡◌, ◌≤◌, IfOk, bytes_eq, codes, drop, take};
ghost use Rattle.std.specs.Option.{unwrap_or};
ghost use Rattle.pn_text.specs.Numbers.{small_number};
ghost use Rattle.report_lines.specs.Causes.{says};
ghost use Rattle.report_lines.specs.Words.{byte_at, moment_of, number_before, number_of_word, parent_number, short_at};

use advice::{decimal_number, word_at};
use pn_text::number;
use pn_types::{NoMemory, Text};
use std::alloc::Global;

/// Returns whether the word at a place of a line, counted from 0, is this text.
pub fn says(place: usize, line: &[u8], text: &[u8]) -> bool
    ensures { result ≡ says place line.now text.now }
{
    word_at(place, line) == text
}

/// Returns a copy of these bytes as a text.
///
/// # Errors
///
/// `NoMemory` where memory runs out.
pub(crate) fn text_of(alloc: Global, bytes: &[u8]) -> Result<Text, NoMemory>
    ensures { IfOk result (λ text. text ≡ bytes.now) }
{
    Ok(Text::from_vec(Vec::from_slice(alloc, bytes)?))
}

/// The bytes after the first of them, as many as this.
pub(crate) fn bytes_behind(count: usize, bytes: &[u8]) -> &[u8]
    ensures { result.now ≡ drop count bytes.now }
{
    if count < bytes.len() {
        &bytes[count..]
    } else {
        &[]
    }
}

/// The first bytes, as many as this.
pub(crate) fn first_bytes(count: usize, bytes: &[u8]) -> &[u8]
    ensures { result.now ≡ take count bytes.now }
{
    if count < bytes.len() {
        &bytes[..count]
    } else {
        bytes
    }
}

/// The number that a word spells, if it isn't above this one, which has 32 bits; else 0.
#[tactic(auto, using(crate::proofs::Ranges::number_is_at_most))]
fn small(word: &[u8], most: u32) -> u32
    ensures value { result ≡ unwrap_or (small_number word.now most) 0 }
    ensures least { result ≤ most }
{
    match number(word, u64::from(most)) {
        Some(value) => value as u32,
        None => 0,
    }
}

/// Returns the number of 8 bits at a place of a line, or 0.
pub(crate) fn byte_at(place: usize, line: &[u8]) -> u8
    ensures { result ≡ byte_at place line.now }
{
    small(word_at(place, line), 255) as u8
}

/// Returns the number of 32 bits at a place of a line, counted from 0, or 0 where no such number stands.
pub fn short_at(place: usize, line: &[u8]) -> u32
    ensures { result ≡ short_at place line.now }
{
    small(word_at(place, line), u32::MAX)
}

/// Returns the number that a word spells, or 0.
pub(crate) fn number_of_word(word: &[u8]) -> u64
    ensures { result ≡ number_of_word word.now }
{
    decimal_number(word).unwrap_or(0)
}

fn is_none(word: &[u8]) -> bool
    ensures { result ≡ bytes_eq word.now (codes "none") }
{
    word == b"none".as_slice()
}

/// Returns the number that a word spells, and None for `none`.
pub(crate) fn moment_of(word: &[u8]) -> Option<u64>
    ensures { result ≡ moment_of word.now }
{
    if is_none(word) {
        None
    } else {
        Some(number_of_word(word))
    }
}

/// Returns the number of 32 bits that a word spells, and None for `none`.
pub(crate) fn parent_number(word: &[u8]) -> Option<u32>
    ensures { result ≡ parent_number word.now }
{
    if is_none(word) {
        None
    } else {
        Some(small(word, u32::MAX))
    }
}

/// Returns the number that a word spells before its last byte.
pub(crate) fn number_before(word: &[u8]) -> u64
    ensures { result ≡ number_before word.now }
{
    number_of_word(first_bytes(word.len().saturating_sub(1), word))
}
