//! Drops the sites of instruments.

ghost use Rattle.std.specs.Prelude.{◌≡◌, ◌+◌, ◌≤◌, filter};
ghost use Rattle.bucket_chains.specs.Left.{present_entries};
ghost use Rattle.instrument.specs.Books as books;
ghost use Rattle.instrument.specs.Droppings.{book_of, places_without};
ghost use Rattle.instrument.specs.Placements.{is_site_of, without_sites};
ghost use Rattle.instrument.specs.Spaces.{AreDistinct};
ghost use Rattle.instrument.specs.ToolTexts.{for_drops};

use crate::agenda::Agenda;
use crate::entry::Entry;
use crate::room::Room;
use crate::room_list::Rooms;

/// Drops the site whose mini block has this room: it is unlinked, with its point where no other mini block is held there, and the
/// point is freed.
fn drop_site(rooms: &mut Rooms, agenda: &mut Agenda, room: Room)
    requires { 3 ≤ agenda.old.room }
    ensures rooms { rooms.new ≡ record rooms.old { places = places_without room rooms.old.places } }
    ensures agenda { agenda.new.entries ≡ (books.without_site room (book_of rooms.old agenda.old)).agenda }
    ensures entries { agenda.old.room ≤ agenda.new.room + 3 }
{
    let Room { point, at, .. } = room;
    rooms.leave_mini(at);
    agenda.push(Entry::UnlinkMini { point, at });
    if rooms.find_mini(point).is_none() {
        if let Some(base) = rooms.find_base(point) {
            agenda.push(Entry::UnlinkPoint { point, at: base.at });
        }
        rooms.leave_base(point);
    }
    agenda.push(Entry::Free { point });
}

/// Drops the sites of an instrument, in the order of their placing.
pub fn drop_sites(rooms: &mut Rooms, agenda: &mut Agenda, owner: u64)
    requires distinct { AreDistinct (present_entries rooms.old.places) }
    requires entries { for_drops (present_entries rooms.old.places) ≤ agenda.old.room }
    ensures book { book_of rooms.new agenda.new
        ≡ without_sites (filter (is_site_of owner) (present_entries rooms.old.places)) (book_of rooms.old agenda.old) }
    ensures distinct { AreDistinct (present_entries rooms.new.places) }
    ensures spare { rooms.new.spare ≡ rooms.old.spare }
    ensures entries { agenda.old.room + for_drops (present_entries rooms.new.places) ≤ agenda.new.room + for_drops (present_entries rooms.old.places) }
{
    let mut next = rooms.first_of(owner);
    while let Some(place) = next {
        if let Some(room) = rooms.at(place) {
            if room.is_site_of(owner) {
                drop_site(rooms, agenda, room);
            }
        }
        next = rooms.next_of(place);
    }
}
