//! The blocks of the tool text: their rooms, and what is to be done for them.

ghost use Rattle.std.specs.Prelude.{◌≡◌, ◌+◌, ◌*◌, ◌<◌, ◌≤◌, ◌++◌, ◌∷◌, [], Ok, Err, IfNone, IfOk, IfSome, OnOk, filter, length, take};
ghost use Rattle.std.specs.List.{list_any};
ghost use Rattle.pn_types.specs.Images.{IsImage};
ghost use Rattle.instrument.specs.Freed.{AllStay, IsTakenOut};
ghost use Rattle.instrument.specs.Books as books;
ghost use Rattle.instrument.specs.Placements.{agenda_in, book_after, first_of, is_mini_room_of, is_site_of, point_in, without_sites};
ghost use Rattle.instrument.specs.ToolTexts as texts;
ghost use Rattle.instrument.specs.declared.entry.Entry.TheVariants.{Free};

use crate::costs::{entries_for, takes_for};
use crate::entry::Entry;
use crate::ledger::Ledger;
use crate::program::Program;
use crate::room::Room;
use pn_types::{Image, NoMemory, TOOL_TEXT_LEN};
use std::alloc::{AllocError, Global};
use std::marker::Model;
use tool_space::Space;

/// The tool text, which follows a program: the rooms that were taken there, which words are free beside them, and the agenda.
pub struct ToolText {
    pub(crate) program: Program,
    pub(crate) ledger: Ledger,
    // Which words are free. A word is the unit of its address divided by 4.
    pub(crate) words: Space,
}

impl Model for ToolText {
    ghost use Rattle.instrument.specs.ToolTexts.{ToolTextData, IsToolText, text_data};

    ghost Value = { ToolTextData };

    ghost view = { λ t. text_data t.program t.ledger t.words };

    ghost invariant = { λ t. IsToolText t.program t.ledger t.words };
}

// Its drop is a function of its own, so that callers need not prove the drops of all its parts.
impl Drop for ToolText {
    fn drop(self) {
        let ToolText {
            program: _,
            ledger: _,
            words: _,
        } = self;
    }
}

impl ToolText {
    /// Makes the tool text of an image, with no blocks.
    ///
    /// # Errors
    ///
    /// `NoMemory` where memory runs out.
    pub fn new(alloc: Global, image: &Image) -> Result<ToolText, NoMemory>
        requires { IsImage image.now }
        ensures { IfOk result (λ text. text ≡ texts.no_blocks image.now) }
    {
        let program = Program::new(alloc, image)?;
        let words = Space::new(alloc, program.tool_at() / 4, (TOOL_TEXT_LEN / 4) as u32)?;
        let ledger = Ledger::new(alloc)?;
        Ok(ToolText {
            program,
            ledger,
            words,
        })
    }

    /// Returns whether a mini block of an instrument has a room.
    pub fn has_room_of(&self, owner: u64) -> bool
        ensures { result ≡ list_any (is_mini_room_of owner) self.now.book.rooms }
    {
        self.ledger.has_room_of(owner)
    }

    /// Returns how many entries the agenda has.
    pub fn agenda_len(&self) -> usize
        ensures { result ≡ length self.now.book.agenda }
    {
        self.ledger.entries()
    }

    /// Hands out the first entry of the agenda. Where it unlinks a block, the block's room is noted.
    pub fn hand_out(&mut self) -> Option<Entry>
        ensures entry { result ≡ first_of self.old.book.agenda }
        ensures program { self.new.program ≡ self.old.program }
        ensures book { self.new.book ≡ book_after self.old.book.agenda self.old.book }
        ensures spare { self.new.spare_rooms ≡ self.old.spare_rooms }
        ensures takes { self.new.takes ≡ self.old.takes }
        ensures entries { self.old.entries ≤ self.new.entries }
        ensures freed { IfSome result (λ entry. self.old.entries < self.new.entries) }
    {
        self.ledger.hand_out()
    }

    /// Removes the first Free before which no unlinking of its point stands, and returns its point.
    pub fn take_free(&mut self) -> Option<u64>
        ensures point { result ≡ point_in (books.first_free [] self.old.book.agenda) }
        ensures program { self.new.program ≡ self.old.program }
        ensures book { self.new.book ≡ record {
          rooms = self.old.book.rooms;
          agenda = agenda_in (books.first_free [] self.old.book.agenda) self.old.book.agenda;
        } }
        ensures spare { self.new.spare_rooms ≡ self.old.spare_rooms }
        ensures takes { self.new.takes ≡ self.old.takes }
        ensures entries { self.old.entries ≤ self.new.entries }
        ensures freed { IfSome result (λ point. self.old.entries < self.new.entries) }
    {
        self.ledger.take_free()
    }

    /// Puts a refused Free at the back of the agenda.
    pub fn put_back(&mut self, point: u64)
        requires { 0 < self.old.entries }
        ensures program { self.new.program ≡ self.old.program }
        ensures book { self.new.book ≡ record { rooms = self.old.book.rooms; agenda = self.old.book.agenda ++ Free point ∷ [] } }
        ensures spare { self.new.spare_rooms ≡ self.old.spare_rooms }
        ensures takes { self.new.takes ≡ self.old.takes }
        ensures entries { self.new.entries + 1 ≡ self.old.entries }
    {
        self.ledger.put_back(point);
    }

    /// Gives back the first room of a point whose block was unlinked, and returns it.
    pub fn take_unlinked(&mut self, point: u64) -> Option<Room>
        ensures none { IfNone result (AllStay point self.old.book.rooms) }
        ensures same { IfNone result (self.new ≡ self.old) }
        ensures taken { IfSome result (λ room. IsTakenOut point room self.old.book.rooms self.new.book.rooms) }
        ensures program { self.new.program ≡ self.old.program }
        ensures agenda { self.new.book.agenda ≡ self.old.book.agenda }
        ensures spare { self.new.spare_rooms ≡ self.old.spare_rooms }
        ensures takes { self.new.takes ≡ self.old.takes }
        ensures entries { self.old.entries ≤ self.new.entries }
    {
        let room = self.ledger.take_unlinked(point)?;
        self.words.give(room.at / 4, room.len);
        Some(room)
    }

    /// Drops the sites of an instrument, in the order of their placing.
    pub fn drop_sites(&mut self, owner: u64)
        ensures program { self.new.program ≡ self.old.program }
        ensures book { self.new.book ≡ without_sites (filter (is_site_of owner) self.old.book.rooms) self.old.book }
        ensures spare { self.new.spare_rooms ≡ self.old.spare_rooms }
        ensures takes { self.new.takes ≡ self.old.takes }
        ensures entries { self.old.entries ≤ self.new.entries }
    {
        self.ledger.drop_sites(owner);
    }

    /// Reserves memory for the placing and the dropping of `sites` sites.
    ///
    /// # Errors
    ///
    /// `NoMemory` where memory runs out.
    pub fn reserve(&mut self, sites: usize) -> Result<(), NoMemory>
        ensures program { self.new.program ≡ self.old.program }
        ensures book { self.new.book ≡ self.old.book }
        ensures rooms { OnOk result (2 * sites ≤ self.new.spare_rooms) }
        ensures takes { OnOk result (2 * sites ≤ self.new.takes) }
        ensures entries { OnOk result (7 * sites ≤ self.new.entries) }
        ensures rooms_kept { self.old.spare_rooms ≤ self.new.spare_rooms }
        ensures takes_kept { self.old.takes ≤ self.new.takes }
        ensures entries_kept { self.old.entries ≤ self.new.entries }
    {
        let Some(takes) = takes_for(sites) else {
            return Err(AllocError);
        };
        let Some(entries) = entries_for(self.ledger.count(), sites) else {
            return Err(AllocError);
        };
        // A site has two rooms at most, and each is one take.
        self.ledger.reserve(takes as usize, entries)?;
        self.words.reserve(takes)
    }
}
