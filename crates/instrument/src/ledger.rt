//! The rooms that were taken and not given back, and the agenda.

ghost use Rattle.std.specs.Prelude.{◌≡◌, ◌+◌, ◌<◌, ◌≤◌, [], ◌∷◌, ◌++◌, ◌^◌, None, IfNone, IfOk, IfSome, OnOk, filter, find, length, take, vec_capacity};
ghost use Rattle.std.specs.List.{list_any};
ghost use Rattle.rv_word.specs.Plain.{Words};
ghost use Rattle.instrument.specs.Agendas as lists;
ghost use Rattle.instrument.specs.Books as books;
ghost use Rattle.instrument.specs.Freed.{AllStay, IsTakenOut};
ghost use Rattle.instrument.specs.Ledgers as ledgers;
ghost use Rattle.instrument.specs.Placements as placements;
ghost use Rattle.instrument.specs.Placements.{agenda_in, book_after, first_of, is_mini_room_of, is_site_of, point_in, without_sites};
ghost use Rattle.instrument.specs.Spaces.{AreDistinct, AreRoomsOf};
ghost use Rattle.instrument.specs.ToolTexts.{for_drops};
ghost use Rattle.instrument.specs.declared.entry.Entry.TheVariants.{Free};

use crate::agenda::Agenda;
use crate::dropping::drop_sites;
use crate::entry::Entry;
use crate::giving::give_behind;
use crate::room::Room;
use crate::room_list::Rooms;
use pn_types::{NoMemory, PlacedSite};
use std::alloc::Global;
use std::marker::Model;
use tool_space::Space;
use tramp_spec::Block;

/// The rooms that were taken and not given back, and the agenda.
#[derive(Drop)]
pub struct Ledger {
    rooms: Rooms,
    agenda: Agenda,
}

impl Model for Ledger {
    ghost use Rattle.bucket_chains.specs.Left.{present_entries};
    ghost use Rattle.instrument.specs.Ledgers.{LedgerData};

    ghost Value = { LedgerData };

    ghost view = { λ l. record {
      book = record { rooms = present_entries l.rooms.places; agenda = l.agenda.entries };
      spare_rooms = l.rooms.spare;
      spare_entries = l.agenda.room;
    } };
}

impl Ledger {
    /// Makes a ledger with no rooms and no entries.
    ///
    /// # Errors
    ///
    /// `NoMemory` where memory runs out.
    pub fn new(alloc: Global) -> Result<Ledger, NoMemory>
        ensures { IfOk result (λ ledger. ledger ≡ ledgers.no_ledger) }
    {
        Ok(Ledger {
            rooms: Rooms::new(alloc)?,
            agenda: Agenda::new(alloc),
        })
    }

    /// Reserves memory for at least `rooms` more rooms and `entries` more entries.
    ///
    /// # Errors
    ///
    /// `NoMemory` where memory runs out. Then the book has not changed, and no memory is lost.
    pub fn reserve(&mut self, rooms: usize, entries: usize) -> Result<(), NoMemory>
        ensures ok { OnOk result (self.new ≡ ledgers.with_spare rooms entries self.old) }
        ensures book { self.new.book ≡ self.old.book }
        ensures rooms { self.old.spare_rooms ≤ self.new.spare_rooms }
        ensures entries { self.old.spare_entries ≤ self.new.spare_entries }
    {
        self.rooms.reserve(rooms)?;
        self.agenda.reserve(entries)
    }

    /// Returns how many rooms there are.
    pub fn count(&self) -> usize
        ensures { result ≡ length self.now.book.rooms }
    {
        self.rooms.count()
    }

    /// Returns the room of the base block of a point whose unlinking wasn't asked for.
    pub fn find_base(&self, point: u64) -> Option<Room>
        ensures { result ≡ find (books.is_base_of point) self.now.book.rooms }
    {
        self.rooms.find_base(point)
    }

    /// Returns whether a mini block of an instrument has a room.
    pub fn has_room_of(&self, owner: u64) -> bool
        ensures { result ≡ list_any (is_mini_room_of owner) self.now.book.rooms }
    {
        self.rooms.has_mini_of(owner)
    }

    /// Returns the sites of an instrument, by its rooms. `sites` gives the memory.
    pub fn sites_of(&self, sites: Vec<PlacedSite>, owner: u64) -> Vec<PlacedSite>
        requires empty { sites.items ≡ [] }
        requires room { length (placements.sites_of owner self.now.book.rooms) ≤ vec_capacity sites }
        ensures { result.items ≡ placements.sites_of owner self.now.book.rooms }
    {
        self.rooms.sites_of(sites, owner)
    }

    /// Returns how many entries the agenda has.
    pub fn entries(&self) -> usize
        ensures { result ≡ length self.now.book.agenda }
    {
        self.agenda.len()
    }

    /// Keeps the first `rooms` rooms and the first `entries` entries, and no others: the other rooms are given back.
    pub fn truncate(&mut self, words: &mut Space, rooms: usize, entries: usize)
        requires tied { (program : Words) × AreRoomsOf program words.old self.old.book.rooms }
        requires within { rooms ≤ length self.old.book.rooms }
        ensures rooms { self.new.book.rooms ≡ take rooms self.old.book.rooms }
        ensures agenda { self.new.book.agenda ≡ take entries self.old.book.agenda }
        ensures spare { self.new.spare_rooms ≡ self.old.spare_rooms }
        ensures entries { self.new.spare_entries ≡ self.old.spare_entries }
        ensures tied { (program : Words)
            → AreRoomsOf program words.old self.old.book.rooms → AreRoomsOf program words.new self.new.book.rooms }
        ensures takes { words.new.takes ≡ words.old.takes }
    {
        give_behind(words, &mut self.rooms, rooms);
        self.agenda.truncate(entries);
    }

    /// Hands out the first entry of the agenda. Where it unlinks a block, the block's room is noted.
    pub fn hand_out(&mut self) -> Option<Entry>
        ensures entry { result ≡ first_of self.old.book.agenda }
        ensures book { self.new.book ≡ book_after self.old.book.agenda self.old.book }
        ensures spare { self.new.spare_rooms ≡ self.old.spare_rooms }
        ensures entries { self.new.spare_entries
            ≡ (lists.without_first (record { entries = self.old.book.agenda; room = self.old.spare_entries })).room }
    {
        let entry = self.agenda.take_first()?;
        if let Entry::UnlinkMini { at, .. } | Entry::UnlinkPoint { at, .. } = &entry {
            self.rooms.unlink(*at);
        }
        Some(entry)
    }

    /// Removes the first room of a point whose block was unlinked, and returns it.
    pub fn take_unlinked(&mut self, point: u64) -> Option<Room>
        ensures none { IfNone result (AllStay point self.old.book.rooms) }
        ensures same { IfNone result (self.new ≡ self.old) }
        ensures taken { IfSome result (λ room. IsTakenOut point room self.old.book.rooms self.new.book.rooms) }
        ensures agenda { self.new.book.agenda ≡ self.old.book.agenda }
        ensures spare { self.new.spare_rooms ≡ self.old.spare_rooms }
        ensures entries { self.new.spare_entries ≡ self.old.spare_entries }
    {
        self.rooms.take_unlinked(point)
    }

    /// Removes the first Free before which no unlinking of its point stands, and returns its point.
    pub fn take_free(&mut self) -> Option<u64>
        ensures point { result ≡ point_in (books.first_free [] self.old.book.agenda) }
        ensures rooms { self.new.book.rooms ≡ self.old.book.rooms }
        ensures agenda { self.new.book.agenda ≡ agenda_in (books.first_free [] self.old.book.agenda) self.old.book.agenda }
        ensures spare { self.new.spare_rooms ≡ self.old.spare_rooms }
        ensures entries { self.new.spare_entries
            ≡ (lists.without_free (record { entries = self.old.book.agenda; room = self.old.spare_entries })).room }
    {
        self.agenda.take_free()
    }

    /// Puts a refused Free at the back of the agenda.
    pub fn put_back(&mut self, point: u64)
        requires { 0 < self.old.spare_entries }
        ensures rooms { self.new.book.rooms ≡ self.old.book.rooms }
        ensures agenda { self.new.book.agenda ≡ self.old.book.agenda ++ Free point ∷ [] }
        ensures spare { self.new.spare_rooms ≡ self.old.spare_rooms }
        ensures entries { self.new.spare_entries + 1 ≡ self.old.spare_entries }
    {
        self.agenda.push(Entry::Free { point });
    }

    /// Drops the sites of an instrument, in the order of their placing.
    pub fn drop_sites(&mut self, owner: u64)
        requires distinct { AreDistinct self.old.book.rooms }
        requires entries { for_drops self.old.book.rooms ≤ self.old.spare_entries }
        ensures book { self.new.book ≡ without_sites (filter (is_site_of owner) self.old.book.rooms) self.old.book }
        ensures distinct { AreDistinct self.new.book.rooms }
        ensures spare { self.new.spare_rooms ≡ self.old.spare_rooms }
        ensures entries { self.old.spare_entries + for_drops self.new.book.rooms ≤ self.new.spare_entries + for_drops self.old.book.rooms }
    {
        drop_sites(&mut self.rooms, &mut self.agenda, owner);
    }

    /// Appends a room.
    fn take_room(&mut self, room: Room)
        requires { 0 < self.old.spare_rooms }
        ensures rooms { self.new.book.rooms ≡ self.old.book.rooms ++ room ∷ [] }
        ensures agenda { self.new.book.agenda ≡ self.old.book.agenda }
        ensures spare { self.new.spare_rooms + 1 ≡ self.old.spare_rooms }
        ensures entries { self.new.spare_entries ≡ self.old.spare_entries }
    {
        self.rooms.push(room);
    }

    /// Places the mini block of a site of an instrument.
    fn place_mini(&mut self, owner: u64, mini: Block)
        requires rooms { 1 ≤ self.old.spare_rooms }
        requires entries { 2 ≤ self.old.spare_entries }
        requires short { length mini.words < 2 ^ 32 }
        ensures book { self.new.book ≡ books.with_blocks owner (record { base = None; mini = mini }) self.old.book }
        ensures rooms_left { self.new.spare_rooms + 1 ≡ self.old.spare_rooms }
        ensures entries_left { self.new.spare_entries + 2 ≡ self.old.spare_entries }
    {
        let Block { point, at, .. } = mini;
        self.take_room(Room::of_mini(owner, &mini));
        self.agenda.push(Entry::WriteMini(mini));
        self.agenda.push(Entry::LinkMini { point, at });
    }

    /// Places a site of an instrument: its blocks get their rooms, and what is to be done for them is put into the agenda.
    pub fn place(&mut self, owner: u64, base: Option<Block>, mini: Block)
        requires rooms { 2 ≤ self.old.spare_rooms }
        requires entries { 4 ≤ self.old.spare_entries }
        requires bases { IfSome base (λ block. length block.words < 2 ^ 32) }
        requires minis { length mini.words < 2 ^ 32 }
        ensures book { self.new.book ≡ books.with_blocks owner (record { base = base; mini = mini }) self.old.book }
        ensures rooms_left { self.old.spare_rooms ≤ self.new.spare_rooms + 2 }
        ensures entries_left { self.old.spare_entries ≤ self.new.spare_entries + 4 }
    {
        match base {
            None => self.place_mini(owner, mini),
            Some(base) => {
                let link = Entry::LinkPoint {
                    point: base.point,
                    at: base.at,
                };
                self.take_room(Room::of_base(&base));
                self.agenda.push(Entry::WriteBase(base));
                self.place_mini(owner, mini);
                self.agenda.push(link);
            }
        }
    }
}
