//! What a store begins with.

ghost use Rattle.std.specs.Prelude.{◌≡◌, ◌<◌, ◌^◌, IfOk, map};
ghost use Rattle.std.specs.List.{AllByRecursion};
ghost use Rattle.rv_word.specs.Names.{words_of};
ghost use Rattle.tramp_spec.specs.Marks.{own};
ghost use Rattle.code_store.specs.Operations.{AreFlatsOf};

use crate::slot::Slot;
use pn_types::NoMemory;
use rv_exec::Flat;
use rv_word::split_word;
use std::alloc::Global;
use tramp_spec::MarkedWord;

/// Splits a text into its words.
///
/// # Errors
///
/// `NoMemory` if memory runs out.
pub fn words(alloc: Global, text: &[u8]) -> Result<Vec<u32>, NoMemory>
    ensures { IfOk result (λ words. words.items ≡ words_of text.now) }
{
    let mut words = Vec::with_capacity(alloc, text.len() / 4)?;
    let mut rest = text;
    for _ in 0..text.len() / 4 {
        let (word, others) = split_word(rest);
        words.push(word)?;
        rest = others;
    }
    Ok(words)
}

/// What holds of any words: they have 32 bits.
pub fn have_32_bits(words: &[u32])
    ensures { AllByRecursion (λ word. word < 2 ^ 32) words.now }
{}

/// Makes a slot for each word, as the program's own.
///
/// # Errors
///
/// `NoMemory` if memory runs out.
pub fn own_slots(alloc: Global, words: &[u32]) -> Result<Vec<Slot>, NoMemory>
    ensures { IfOk result (λ slots. slots.items ≡ map own words.now) }
{
    let mut slots = Vec::with_capacity(alloc, words.len())?;
    for word in words {
        slots.push(Slot::new(MarkedWord::own(*word)))?;
    }
    Ok(slots)
}

/// The flats of the words of these slots.
///
/// # Errors
///
/// `NoMemory` if memory runs out.
pub fn flats_of(alloc: Global, slots: &[Slot]) -> Result<Vec<Flat>, NoMemory>
    ensures { IfOk result (λ flats. AreFlatsOf slots.now flats.items) }
{
    let mut flats = Vec::with_capacity(alloc, slots.len())?;
    for slot in slots {
        flats.push(slot.flat())?;
    }
    Ok(flats)
}
