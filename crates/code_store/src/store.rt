//! The store of the words that harts fetch.

ghost use Rattle.std.specs.Prelude.{◌≡◌, ℕ, false, true, ◌+◌, ◌-◌, ◌*◌, ◌/◌, ◌<◌, ◌≤◌, ◌^◌, ◌||◌, IfOk, IsTrue, Some, length, slice_index_or};
ghost use Rattle.std.specs.FinMap.{get, insert, remove};
ghost use Rattle.std.specs.List.{AllByRecursion};
ghost use Rattle.std.specs.Option.{option_copied, option_map};
ghost use Rattle.pn_types.specs.Images.{IsImage};
ghost use Rattle.rv_word.specs.Plain.{program_word};
ghost use Rattle.tramp_spec.specs.Codes.{fetched_at, is_text_word, is_tool_word, put_words, tool_at};
ghost use Rattle.tramp_spec.specs.Marks.{tool};
ghost use Rattle.code_store.specs.Owners.{owners_with, owners_without};
ghost use Rattle.code_store.specs.Operations.{IsFlatAt};
ghost use Rattle.code_store.specs.Stores.{first_code, marked, IsInToolText};
ghost use Rattle.code_store.specs.Views.{at_place};

use crate::building::{flats_of, have_32_bits, own_slots, words};
use crate::filling::{fill_slots, fill_uses};
use crate::slot::Slot;
use crate::span::{Span, place_of};
use crate::word_use::WordUse;
use pn_types::{Image, NoMemory, TOOL_TEXT_LEN};
use rv_exec::Flat;
use std::alloc::Global;
use std::marker::Model;
use tramp_spec::{Block, Mark, MarkedWord};

/// The words of a program's text and of the tool text after it, as harts fetch them, and the points of the blocks in the
/// tool text. Contracts see the program's words, the map of marked words, and the map of owners. Only [`Store::new`] takes
/// memory.
pub struct Store {
    /// The program's words, which stay.
    words: Vec<u32>,
    text: Span,
    /// The flats of the text's words, apart from their slots, so that the program's words run one after another by these alone.
    flats: Vec<Flat>,
    /// The words of the tool text up to the last that was put. Behind them is room for the others.
    tool: Span,
    /// What these words are for.
    uses: Vec<WordUse>,
    /// The word of the tool text where nothing was put.
    blank: Slot,
}

impl Model for Store {
    ghost use Rattle.code_store.specs.Stores.{StoredCode};
    ghost use Rattle.code_store.specs.Codes.{stored_coded};

    ghost Value = { StoredCode };

    ghost coded = { stored_coded };

    ghost use Rattle.std.specs.Prelude.{vec_capacity};
    ghost use Rattle.code_store.specs.Views.{code_of, owners_of, FitTogether};

    ghost view = { λ s. record {
      program = record { at = s.text.at; words = s.words.items };
      code = code_of s.text.at s.text.slots.items s.tool.at s.tool.slots.items s.uses.items;
      owners = owners_of s.tool.at s.uses.items;
    } };

    ghost invariant = { λ s. FitTogether s.words.items s.text.at s.text.slots.items s.flats.items
        s.tool.at s.tool.slots.items s.uses.items s.blank (vec_capacity s.tool.slots) (vec_capacity s.uses) };
}

// By a call of its own: what drops it need not prove the drops of all its parts.
impl Drop for Store {
    fn drop(self) {
        let Store {
            words: _,
            text: _,
            flats: _,
            tool: _,
            uses: _,
            blank: _,
        } = self;
    }
}

impl Store {
    /// The words of an image, each of 32 bits, with a tool text to which nothing was put. It takes all the memory that the store ever
    /// has.
    ///
    /// # Errors
    ///
    /// `NoMemory` if memory runs out.
    pub fn new(alloc: Global, image: &Image) -> Result<Store, NoMemory>
        requires { IsImage image.now }
        ensures first { IfOk result (λ store. store ≡ first_code image.now) }
        ensures narrow { IfOk result (λ store. AllByRecursion (λ word. word < 2 ^ 32) store.program.words) }
    {
        Store::with_room(alloc, image, (TOOL_TEXT_LEN / 4) as usize)
    }

    /// The same, with room for `room` words in the tool text.
    fn with_room(alloc: Global, image: &Image, room: usize) -> Result<Store, NoMemory>
        requires image { IsImage image.now }
        requires room { 4 * room ≡ TOOL_TEXT_LEN }
        ensures first { IfOk result (λ store. store ≡ first_code image.now) }
        ensures narrow { IfOk result (λ store. AllByRecursion (λ word. word < 2 ^ 32) store.program.words) }
    {
        let words = words(alloc, image.text_bytes())?;
        have_32_bits(&words);
        let text = Span {
            at: image.text_at,
            slots: own_slots(alloc, &words)?,
        };
        let flats = flats_of(alloc, &text.slots)?;
        let end = image.text_at + 4 * words.len() as u64;
        let tool = Span {
            at: end.next_multiple_of(4096),
            slots: Vec::with_capacity(alloc, room)?,
        };
        let uses = Vec::with_capacity(alloc, room)?;
        Ok(Store {
            words,
            text,
            flats,
            tool,
            uses,
            blank: Slot::new(MarkedWord::tool(0)),
        })
    }

    /// The word that a hart fetches at the pc, with its mark: inside a trampoline one of the tool text, which is 0 where nothing was put;
    /// outside one of the text; and none where that text has no word there.
    pub fn fetch(&self, pc: u64, inside: bool) -> Option<(u32, Mark)>
        ensures { option_map marked result ≡ fetched_at self.now.program self.now.code pc inside }
    {
        match self.slot(pc, inside) {
            Some(slot) => Some(slot.word_and_mark()),
            None => None,
        }
    }

    /// The slot of the word that a hart fetches, by one index.
    #[inline(always)]
    pub fn slot(&self, pc: u64, inside: bool) -> Option<&Slot>
        ensures { option_copied result ≡ fetched_at self.now.program self.now.code pc inside }
    {
        if inside {
            self.tool_slot(pc)
        } else {
            self.text.get(pc)
        }
    }

    /// The slot of the word of the tool text at an address.
    #[inline(always)]
    fn tool_slot(&self, at: u64) -> Option<&Slot>
        ensures { option_copied result ≡ fetched_at self.now.program self.now.code at true }
    {
        let i = place_of(self.tool.at, at);
        if i < self.tool.slots.len() as u64 {
            Some(&self.tool.slots[i as usize])
        } else if i < TOOL_TEXT_LEN / 4 {
            Some(&self.blank)
        } else {
            None
        }
    }

    /// The first address of the text, and the flat of each of its words that a hart outside fetches: for another word than one of the
    /// program, `Rest`.
    #[inline(always)]
    pub fn flats(&self) -> (u64, &[Flat])
        ensures flats { (pc : ℕ) → IsFlatAt (fetched_at self.now.program self.now.code pc false) (at_place result.0 result.1.now pc) }
        ensures ends { result.0 + 4 * length result.1.now < 2 ^ 64 }
    {
        (self.text.at, self.flats.as_slice())
    }

    /// The first address of the tool text, and the slots of its words up to the last that was put.
    #[inline(always)]
    pub fn tool_slots(&self) -> (u64, &[Slot])
        ensures slots { (place : ℕ) → place < length result.1.now
            → fetched_at self.now.program self.now.code (result.0 + 4 * place) true ≡ Some (slice_index_or result.1.now place (tool 0)) }
        ensures ends { result.0 + 4 * length result.1.now < 2 ^ 64 }
    {
        (self.tool.at, self.tool.slots.as_slice())
    }

    /// The first address of the tool text.
    pub fn tool_at(&self) -> u64
        ensures { result ≡ tool_at self.now.program }
    {
        self.tool.at
    }

    /// The program's word at an address, whatever stands there now.
    pub fn program_word(&self, at: u64) -> Option<u32>
        ensures { result ≡ program_word self.now.program at }
    {
        let i = place_of(self.text.at, at);
        if i < self.words.len() as u64 {
            Some(self.words[i as usize])
        } else {
            None
        }
    }

    /// The point of the block to which the word at an address belongs; none where no such word is.
    pub fn owner(&self, at: u64) -> Option<u64>
        ensures { result ≡ get self.now.owners at }
    {
        let i = place_of(self.tool.at, at);
        if i < self.uses.len() as u64 {
            self.uses[i as usize].point()
        } else {
            None
        }
    }

    /// Puts the words of a block into the tool text; they belong to its point from now on.
    pub fn put_block(&mut self, block: &Block)
        requires { IsInToolText self.old.program block.now.at (length block.now.words) }
        ensures { self.new ≡ record self.old {
          code = put_words block.now.at block.now.words self.old.code;
          owners = owners_with block.now.at (length block.now.words) block.now.point self.old.owners;
        } }
    {
        let first = self.tool_place(block.at);
        for (i, word) in block.words.as_slice().iter().enumerate() {
            self.put_word(first + i, *word, block.point);
        }
    }

    /// Puts a word in the place of another; it belongs to the same block as that.
    pub fn set_word(&mut self, at: u64, word: MarkedWord)
        requires { IsTrue (is_text_word self.old.program at || is_tool_word self.old.program at) }
        ensures { self.new ≡ record self.old { code = insert self.old.code at word } }
    {
        let place = place_of(self.text.at, at);
        if place < self.text.slots.len() as u64 {
            self.set_text_word(place as usize, word);
        } else {
            self.set_tool_word(self.tool_place(at), word);
        }
    }

    /// Takes `len` words of the tool text from the block to which they belong: they belong to none. The words stay as they are.
    pub fn drop_block(&mut self, at: u64, len: u32)
        requires { IsInToolText self.old.program at len }
        ensures { self.new ≡ record self.old { owners = owners_without at len self.old.owners } }
    {
        let first = self.tool_place(at);
        for i in 0..len {
            self.free_word(first + i as usize);
        }
    }

    /// The number of a word of the tool text.
    fn tool_place(&self, at: u64) -> usize
        requires { tool_at self.now.program ≤ at }
        ensures { result ≡ (at - tool_at self.now.program) / 4 }
    {
        ((at - self.tool.at) / 4) as usize
    }

    /// Puts a word in the place of the text's word of this number.
    fn set_text_word(&mut self, place: usize, word: MarkedWord)
        requires { place < length self.old.program.words }
        ensures { self.new ≡ record self.old { code = insert self.old.code (self.old.program.at + 4 * place) word } }
    {
        let slot = Slot::new(word);
        self.flats[place] = slot.flat();
        self.text.slots[place] = slot;
    }

    /// Puts a word in the place of the tool text's word of this number.
    fn set_tool_word(&mut self, place: usize, word: MarkedWord)
        requires { 4 * place < TOOL_TEXT_LEN }
        ensures { self.new ≡ record self.old { code = insert self.old.code (tool_at self.old.program + 4 * place) word } }
    {
        fill_slots(&mut self.tool.slots, &self.blank, place + 1);
        fill_uses(&mut self.uses, place + 1);
        self.tool.slots[place] = Slot::new(word);
        self.uses[place] = self.uses[place].written();
    }

    /// Puts a word of a block.
    fn put_word(&mut self, place: usize, word: MarkedWord, point: u64)
        requires { 4 * place < TOOL_TEXT_LEN }
        ensures { self.new ≡ record self.old {
          code = insert self.old.code (tool_at self.old.program + 4 * place) word;
          owners = insert self.old.owners (tool_at self.old.program + 4 * place) point;
        } }
    {
        fill_slots(&mut self.tool.slots, &self.blank, place + 1);
        fill_uses(&mut self.uses, place + 1);
        self.tool.slots[place] = Slot::new(word);
        self.uses[place] = WordUse::Block(point);
    }

    /// The tool text's word of this number belongs to no block any more.
    fn free_word(&mut self, place: usize)
        requires { 4 * place < TOOL_TEXT_LEN }
        ensures { self.new ≡ record self.old { owners = remove self.old.owners (tool_at self.old.program + 4 * place) } }
    {
        if place < self.uses.len() {
            self.uses[place] = self.uses[place].freed();
        }
    }
}
