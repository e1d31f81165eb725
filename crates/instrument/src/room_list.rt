//! The rooms of the tool text that were taken and not given back.

ghost use Rattle.std.specs.Prelude.{◌≡◌, ℕ, ◌+◌, ◌-◌, ◌<◌, ◌≤◌, ◌++◌, ◌∷◌, [], None, Some, IfOk, OnErr, OnOk, length, max, set, slice_index_or};
ghost use Rattle.bucket_chains.specs.Entries.{IsFirst, bucket_at, bucket_of};
ghost use Rattle.bucket_chains.specs.Left.{buckets_of, present_entries};
ghost use Rattle.instrument.specs.RoomPlaces.{AreIndexed, no_entries, no_rooms, owner_key};
ghost use Rattle.instrument.specs.declared.room.Room.{Room};

use crate::room::Room;
use crate::room_index::RoomIndex;
use bucket_chains::BUCKETS;
use pn_types::NoMemory;
use std::alloc::Global;
use std::marker::Model;

/// The rooms in the order of their taking. Contracts see what each place has, which is none where a room was given back, and for
/// how many more rooms there is memory.
#[derive(Drop)]
pub struct Rooms {
    pub(crate) places: Vec<Option<Room>>,
    pub(crate) index: RoomIndex,
    count: usize,
    spare: usize,
}

impl Model for Rooms {
    ghost use Rattle.std.specs.Prelude.{vec_capacity, vec_len};
    ghost use Rattle.instrument.specs.RoomPlaces.{AreRooms, RoomPlaces};

    ghost Value = { RoomPlaces };

    ghost view = { λ r. record { places = r.places.items; spare = r.spare } };

    ghost invariant = { λ r. AreRooms r.places.items r.index (vec_len r.places) (vec_capacity r.places) r.count r.spare };
}

/// Enters the places into an index without entries.
fn enter(index: &mut RoomIndex, places: &[Option<Room>])
    requires empty { index.old ≡ record no_entries { room = index.old.room } }
    requires room { length places.now ≤ index.old.room }
    ensures indexed { AreIndexed places.now index.new }
    ensures room { index.new.room + length places.now ≡ index.old.room }
{
    for place in places {
        index.push(*place);
    }
}

impl Rooms {
    /// Makes a list without rooms.
    ///
    /// # Errors
    ///
    /// `NoMemory` where memory runs out.
    pub fn new(alloc: Global) -> Result<Rooms, NoMemory>
        ensures { IfOk result (λ rooms. rooms ≡ no_rooms) }
    {
        Ok(Rooms {
            places: Vec::new(alloc),
            index: RoomIndex::new(alloc)?,
            count: 0,
            spare: 0,
        })
    }

    /// Returns how many rooms there are.
    pub fn count(&self) -> usize
        ensures { result ≡ length (present_entries self.now.places) }
    {
        self.count
    }

    /// Returns how many places there are.
    pub fn places(&self) -> usize
        ensures { result ≡ length self.now.places }
    {
        self.places.len()
    }

    /// Returns the room at a place, if it wasn't given back.
    pub fn at(&self, place: usize) -> Option<Room>
        requires { place < length self.now.places }
        ensures { result ≡ slice_index_or self.now.places place None }
    {
        self.places[place]
    }

    /// Returns the place of the first room in the bucket of an instrument.
    pub fn first_of(&self, owner: u64) -> Option<usize>
        ensures { IsFirst (bucket_of owner) 0 (buckets_of owner_key self.now.places) result }
    {
        self.index.first_of(owner)
    }

    /// Returns the place of the next room in the bucket of the instrument of the one at a place.
    pub fn next_of(&self, place: usize) -> Option<usize>
        requires { place < length self.now.places }
        ensures { (bucket : ℕ) → bucket_at (buckets_of owner_key self.now.places) place ≡ Some bucket
            → IsFirst bucket (place + 1) (buckets_of owner_key self.now.places) result }
    {
        self.index.next_of(place)
    }

    /// Removes the places without rooms.
    fn compact(&mut self)
        ensures rooms { present_entries self.new.places ≡ present_entries self.old.places }
        ensures spare { self.new.spare ≡ self.old.spare }
    {
        self.places.retain(|place| place.is_some());
        self.index.clear();
        enter(&mut self.index, &self.places);
    }

    /// Reserves memory for at least `rooms` more rooms.
    ///
    /// # Errors
    ///
    /// `NoMemory` where memory runs out. Then no more is reserved.
    pub fn reserve(&mut self, rooms: usize) -> Result<(), NoMemory>
        ensures rooms { present_entries self.new.places ≡ present_entries self.old.places }
        ensures ok { OnOk result (self.new.spare ≡ max self.old.spare rooms) }
        ensures err { OnErr result (self.new.spare ≡ self.old.spare) }
    {
        // More than half of the places are empty, so this takes time in proportion to the removals since the last time.
        if self.places.len() / 2 > self.count.max(BUCKETS as usize) {
            self.compact();
        }
        let spare = self.spare.max(rooms);
        self.places.reserve(spare)?;
        self.index.reserve(spare)?;
        self.spare = spare;
        Ok(())
    }

    /// Appends a room.
    pub fn push(&mut self, room: Room)
        requires { 0 < self.old.spare }
        ensures places { self.new ≡ record { places = self.old.places ++ Some room ∷ []; spare = self.old.spare - 1 } }
        ensures rooms { present_entries self.new.places ≡ present_entries self.old.places ++ room ∷ [] }
    {
        self.places.push_reserved(Some(room));
        self.index.push(Some(room));
        self.count += 1;
        self.spare -= 1;
    }

    /// Gives the room at a place back. Its place stays empty.
    pub fn remove(&mut self, place: usize)
        requires { (room : Room) × (slice_index_or self.old.places place None ≡ Some room) }
        ensures { self.new ≡ record self.old { places = set self.old.places place None } }
    {
        self.places[place] = None;
        self.index.remove(place);
        self.count -= 1;
    }
}
