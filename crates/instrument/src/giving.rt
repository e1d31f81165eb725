//! Gives rooms back.

ghost use Rattle.std.specs.Prelude.{◌≡◌, ◌≤◌, length, take};
ghost use Rattle.bucket_chains.specs.Left.{present_entries};
ghost use Rattle.rv_word.specs.Plain.{Words};
ghost use Rattle.instrument.specs.Spaces.{AreRoomsOf};

use crate::room_list::Rooms;
use tool_space::Space;

/// Gives back all rooms but the first `count`.
pub fn give_behind(words: &mut Space, rooms: &mut Rooms, count: usize)
    requires tied { (program : Words) × AreRoomsOf program words.old (present_entries rooms.old.places) }
    requires within { count ≤ length (present_entries rooms.old.places) }
    ensures rooms { present_entries rooms.new.places ≡ take count (present_entries rooms.old.places) }
    ensures spare { rooms.new.spare ≡ rooms.old.spare }
    ensures tied { (program : Words)
        → AreRoomsOf program words.old (present_entries rooms.old.places) → AreRoomsOf program words.new (present_entries rooms.new.places) }
    ensures takes { words.new.takes ≡ words.old.takes }
{
    let mut place = rooms.places();
    while rooms.count() > count && place > 0 {
        place -= 1;
        if let Some(room) = rooms.at(place) {
            rooms.remove(place);
            words.give(room.at / 4, room.len);
        }
    }
}
