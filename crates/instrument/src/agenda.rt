//! The agenda: what is to be done in the machine, in order.

ghost use Rattle.std.specs.Prelude.{◌≡◌, ◌<◌, [], OnErr, OnOk, length, take};
ghost use Rattle.instrument.specs.Agendas as lists;
ghost use Rattle.instrument.specs.Books.{first_free};
ghost use Rattle.instrument.specs.Placements.{first_of, point_in};

use crate::entry::Entry;
use crate::freeing::{FreeAt, find_free};
use pn_types::NoMemory;
use std::alloc::Global;
use std::collections::VecDeque;
use std::marker::Model;

/// What is to be done in the machine, in order.
#[derive(Drop)]
pub struct Agenda {
    entries: VecDeque<Entry>,
    // How many more entries need no memory.
    room: usize,
}

impl Model for Agenda {
    ghost use Rattle.std.specs.Prelude.{◌+◌, ◌≤◌};
    ghost use Rattle.std.specs.VecDeque.{deque_capacity, deque_len};
    ghost use Rattle.instrument.specs.Agendas.{AgendaData};

    ghost Value = { AgendaData };

    ghost view = { λ a. record { entries = a.entries.items; room = a.room } };

    ghost invariant = { λ a. deque_len a.entries + a.room ≤ deque_capacity a.entries };
}

impl Agenda {
    /// Makes an agenda with no entries.
    pub fn new(alloc: Global) -> Agenda
        ensures { result ≡ lists.no_entries }
    {
        Agenda {
            entries: VecDeque::new(alloc),
            room: 0,
        }
    }

    /// Reserves memory for at least `count` more entries.
    ///
    /// # Errors
    ///
    /// `NoMemory` where memory runs out. Then nothing has changed.
    pub fn reserve(&mut self, count: usize) -> Result<(), NoMemory>
        ensures ok { OnOk result (self.new ≡ lists.with_room count self.old) }
        ensures err { OnErr result (self.new ≡ self.old) }
    {
        let room = self.room.max(count);
        self.entries.reserve(room)?;
        self.room = room;
        Ok(())
    }

    /// Appends an entry.
    pub fn push(&mut self, entry: Entry)
        requires { 0 < self.old.room }
        ensures { self.new ≡ lists.with_entry entry self.old }
    {
        self.entries.push_back_reserved(entry);
        self.room -= 1;
    }

    /// Returns how many entries there are.
    pub fn len(&self) -> usize
        ensures { result ≡ length self.now.entries }
    {
        self.entries.len()
    }

    /// Keeps the first `len` entries, and no others.
    pub fn truncate(&mut self, len: usize)
        ensures { self.new ≡ record self.old { entries = take len self.old.entries } }
    {
        self.entries.truncate(len);
    }

    /// Removes the first entry and returns it.
    pub fn take_first(&mut self) -> Option<Entry>
        ensures entry { result ≡ first_of self.old.entries }
        ensures taken { self.new ≡ lists.without_first self.old }
    {
        let entry = self.entries.pop_front()?;
        self.room += 1;
        Some(entry)
    }

    /// Removes the first Free before which no unlinking of its point stands, and returns its point.
    pub fn take_free(&mut self) -> Option<u64>
        ensures point { result ≡ point_in (first_free [] self.old.entries) }
        ensures taken { self.new ≡ lists.without_free self.old }
    {
        let FreeAt { place, point } = find_free(&self.entries)?;
        self.entries.remove(place);
        self.room += 1;
        Some(point)
    }
}
