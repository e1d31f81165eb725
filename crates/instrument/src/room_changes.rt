//! Changes how rooms are kept, and gives them back.

ghost use Rattle.std.specs.Prelude.{◌≡◌, ◌≤◌, IfNone, IfSome, filter, length, map, take};
ghost use Rattle.std.specs.Option.{option_map};
ghost use Rattle.bucket_chains.specs.Left.{present_entries};
ghost use Rattle.instrument.specs.Books as books;
ghost use Rattle.instrument.specs.Freed.{AllStay, IsTakenOut};
ghost use Rattle.instrument.specs.RoomPlaces.{IsFirstToGo};

use crate::room::Room;
use crate::room_list::Rooms;

impl Rooms {
    /// Notes that the mini block at an address is to leave.
    pub fn leave_mini(&mut self, at: u64)
        ensures { self.new ≡ record self.old { places = map (option_map (books.with_hold (books.mini_leaves at))) self.old.places } }
    {
        let mut next = self.index.first_at(at);
        while let Some(place) = next {
            if let Some(room) = self.places[place] {
                self.places[place] = Some(room.after_mini_leaves(at));
            }
            next = self.index.next_at(place);
        }
    }

    /// Notes that the base block of a point is to leave.
    pub fn leave_base(&mut self, point: u64)
        ensures { self.new ≡ record self.old { places = map (option_map (books.with_hold (books.base_leaves point))) self.old.places } }
    {
        let mut next = self.index.first_at_point(point);
        while let Some(place) = next {
            if let Some(room) = self.places[place] {
                self.places[place] = Some(room.after_base_leaves(point));
            }
            next = self.index.next_at_point(place);
        }
    }

    /// Notes that the block at an address was unlinked.
    pub fn unlink(&mut self, at: u64)
        ensures places { self.new ≡ record self.old { places = map (option_map (books.with_hold (books.unlinked_at at))) self.old.places } }
        ensures rooms { present_entries self.new.places ≡ map (books.with_hold (books.unlinked_at at)) (present_entries self.old.places) }
    {
        let mut next = self.index.first_at(at);
        while let Some(place) = next {
            if let Some(room) = self.places[place] {
                self.places[place] = Some(room.after_unlinking(at));
            }
            next = self.index.next_at(place);
        }
    }

    /// Returns the place of the first room of a point whose block was unlinked.
    fn unlinked_at(&self, point: u64) -> Option<usize>
        ensures none { IfNone result (AllStay point (present_entries self.now.places)) }
        ensures some { IfSome result (λ place. IsFirstToGo point self.now.places place) }
    {
        let mut next = self.index.first_at_point(point);
        while let Some(place) = next {
            if let Some(room) = self.places[place] {
                if !room.stays(point) {
                    return Some(place);
                }
            }
            next = self.index.next_at_point(place);
        }
        None
    }

    /// Removes the first room of a point whose block was unlinked, and returns it.
    pub fn take_unlinked(&mut self, point: u64) -> Option<Room>
        ensures none { IfNone result (AllStay point (present_entries self.old.places)) }
        ensures same { IfNone result (self.new ≡ self.old) }
        ensures taken { IfSome result (λ room. IsTakenOut point room (present_entries self.old.places) (present_entries self.new.places)) }
        ensures spare { self.new.spare ≡ self.old.spare }
    {
        let place = self.unlinked_at(point)?;
        let room = self.places[place]?;
        self.remove(place);
        Some(room)
    }
}
