//! The buckets by which rooms are looked up.

ghost use Rattle.std.specs.Prelude.{◌≡◌, ℕ, ◌+◌, ◌-◌, ◌<◌, ◌≤◌, ◌++◌, ◌∷◌, [], None, IfOk, OnErr, OnOk, length, max, set};
ghost use Rattle.instrument.specs.RoomPlaces.{at_key, bucket_by, no_entries, owner_key, point_key};
ghost use Rattle.bucket_chains.specs.Entries.{IsFirst, bucket_at, bucket_of};

use crate::room::Room;
use bucket_chains::Chains;
use pn_types::NoMemory;
use std::alloc::Global;
use std::marker::Model;

/// Entries for rooms, by their places: in buckets of their points, of their addresses, and of their instruments. Contracts
/// see the buckets, and for how many more entries there is room.
#[derive(Drop)]
pub struct RoomIndex {
    points: Chains,
    addresses: Chains,
    owners: Chains,
}

impl Model for RoomIndex {
    ghost use Rattle.instrument.specs.RoomPlaces.{AreEntries, RoomEntries};

    ghost Value = { RoomEntries };

    ghost view = { λ i. record {
      points = i.points.buckets;
      addresses = i.addresses.buckets;
      owners = i.owners.buckets;
      room = i.points.room;
    } };

    ghost invariant = { λ i. AreEntries i.points i.addresses i.owners };
}

/// Returns the number of the room's instrument. A base block's room is no instrument's, and gets into any bucket.
fn owner_key(room: &Room) -> u64
    ensures { result ≡ owner_key room.now }
{
    if room.base { room.at } else { room.owner }
}

impl RoomIndex {
    /// Makes an index without entries.
    ///
    /// # Errors
    ///
    /// `NoMemory` where memory runs out.
    pub fn new(alloc: Global) -> Result<RoomIndex, NoMemory>
        ensures { IfOk result (λ index. index ≡ no_entries) }
    {
        Ok(RoomIndex {
            points: Chains::new(alloc)?,
            addresses: Chains::new(alloc)?,
            owners: Chains::new(alloc)?,
        })
    }

    /// Reserves memory for `entries` more entries, counting the room that there is.
    ///
    /// # Errors
    ///
    /// `NoMemory` where memory runs out. Then nothing has changed.
    pub fn reserve(&mut self, entries: usize) -> Result<(), NoMemory>
        ensures ok { OnOk result (self.new ≡ record self.old { room = max entries self.old.room }) }
        ensures err { OnErr result (self.new ≡ self.old) }
    {
        self.addresses.reserve(entries)?;
        self.owners.reserve(entries)?;
        self.points.reserve(entries)
    }

    /// Appends the entry of a place. A place without a room is in no bucket.
    pub fn push(&mut self, place: Option<Room>)
        requires { 0 < self.old.room }
        ensures { self.new ≡ record {
          points = self.old.points ++ bucket_by point_key place ∷ [];
          addresses = self.old.addresses ++ bucket_by at_key place ∷ [];
          owners = self.old.owners ++ bucket_by owner_key place ∷ [];
          room = self.old.room - 1;
        } }
    {
        match place {
            Some(room) => {
                self.points.push(room.point);
                self.addresses.push(room.at);
                self.owners.push(owner_key(&room));
            }
            None => {
                self.points.skip();
                self.addresses.skip();
                self.owners.skip();
            }
        }
    }

    /// Takes the entry at a place out of its buckets.
    pub fn remove(&mut self, place: usize)
        requires { place < length self.old.points }
        ensures { self.new ≡ record self.old {
          points = set self.old.points place None;
          addresses = set self.old.addresses place None;
          owners = set self.old.owners place None;
        } }
    {
        self.points.remove(place);
        self.addresses.remove(place);
        self.owners.remove(place);
    }

    /// Takes all entries out.
    pub fn clear(&mut self)
        ensures { self.new ≡ record no_entries { room = self.old.room + length self.old.points } }
    {
        self.points.clear();
        self.addresses.clear();
        self.owners.clear();
    }

    /// Returns the place of the first room in the bucket of a point.
    pub fn first_at_point(&self, point: u64) -> Option<usize>
        ensures { IsFirst (bucket_of point) 0 self.now.points result }
    {
        self.points.first(point)
    }

    /// Returns the place of the next room in the bucket of the point of the one at a place.
    pub fn next_at_point(&self, place: usize) -> Option<usize>
        requires { place < length self.now.points }
        ensures { (bucket : ℕ) → bucket_at self.now.points place ≡ Some bucket → IsFirst bucket (place + 1) self.now.points result }
    {
        self.points.next(place)
    }

    /// Returns the place of the first room in the bucket of an address.
    pub fn first_at(&self, at: u64) -> Option<usize>
        ensures { IsFirst (bucket_of at) 0 self.now.addresses result }
    {
        self.addresses.first(at)
    }

    /// Returns the place of the next room in the bucket of the address of the one at a place.
    pub fn next_at(&self, place: usize) -> Option<usize>
        requires { place < length self.now.points }
        ensures { (bucket : ℕ) → bucket_at self.now.addresses place ≡ Some bucket → IsFirst bucket (place + 1) self.now.addresses result }
    {
        self.addresses.next(place)
    }

    /// Returns the place of the first room in the bucket of an instrument.
    pub fn first_of(&self, owner: u64) -> Option<usize>
        ensures { IsFirst (bucket_of owner) 0 self.now.owners result }
    {
        self.owners.first(owner)
    }

    /// Returns the place of the next room in the bucket of the instrument of the one at a place.
    pub fn next_of(&self, place: usize) -> Option<usize>
        requires { place < length self.now.points }
        ensures { (bucket : ℕ) → bucket_at self.now.owners place ≡ Some bucket → IsFirst bucket (place + 1) self.now.owners result }
    {
        self.owners.next(place)
    }
}
