//! Looks for rooms in the buckets of their points and of their instruments.

ghost use Rattle.std.specs.Prelude.{◌≡◌, ◌≤◌, [], find, length, vec_capacity};
ghost use Rattle.std.specs.List.{list_any};
ghost use Rattle.bucket_chains.specs.Left.{present_entries};
ghost use Rattle.instrument.specs.Books as books;
ghost use Rattle.instrument.specs.Placements as placements;

use crate::room::Room;
use crate::room_list::Rooms;
use pn_types::PlacedSite;

impl Rooms {
    /// Returns the room of the base block of a point whose unlinking wasn't asked for.
    pub fn find_base(&self, point: u64) -> Option<Room>
        ensures { result ≡ find (books.is_base_of point) (present_entries self.now.places) }
    {
        let mut next = self.index.first_at_point(point);
        while let Some(place) = next {
            if let Some(room) = self.places[place] {
                if room.is_base_of(point) {
                    return Some(room);
                }
            }
            next = self.index.next_at_point(place);
        }
        None
    }

    /// Returns the room of the first mini block of a point whose unlinking wasn't asked for.
    pub fn find_mini(&self, point: u64) -> Option<Room>
        ensures { result ≡ find (books.is_mini_of point) (present_entries self.now.places) }
    {
        let mut next = self.index.first_at_point(point);
        while let Some(place) = next {
            if let Some(room) = self.places[place] {
                if room.is_mini_of(point) {
                    return Some(room);
                }
            }
            next = self.index.next_at_point(place);
        }
        None
    }

    /// Returns whether a mini block of an instrument has a room.
    pub fn has_mini_of(&self, owner: u64) -> bool
        ensures { result ≡ list_any (placements.is_mini_room_of owner) (present_entries self.now.places) }
    {
        let mut next = self.index.first_of(owner);
        while let Some(place) = next {
            if let Some(room) = self.places[place] {
                if room.is_mini_room_of(owner) {
                    return true;
                }
            }
            next = self.index.next_of(place);
        }
        false
    }

    /// Returns the sites of an instrument, by its rooms. `sites` gives the memory.
    pub fn sites_of(&self, sites: Vec<PlacedSite>, owner: u64) -> Vec<PlacedSite>
        requires empty { sites.items ≡ [] }
        requires room { length (placements.sites_of owner (present_entries self.now.places)) ≤ vec_capacity sites }
        ensures { result.items ≡ placements.sites_of owner (present_entries self.now.places) }
    {
        let mut sites = sites;
        let mut next = self.index.first_of(owner);
        while let Some(place) = next {
            if let Some(room) = self.places[place] {
                if room.is_mini_room_of(owner) {
                    sites.push_reserved(PlacedSite {
                        at: room.point,
                        mini: room.at,
                    });
                }
            }
            next = self.index.next_of(place);
        }
        sites
    }
}
