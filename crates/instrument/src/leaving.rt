//! An instrument that was dropped is gone when its last room is given back.

ghost use Rattle.std.specs.Prelude.{◌≡◌, ◌≤◌, filter};
ghost use Rattle.instrument.specs.Books as books;
ghost use Rattle.instrument.specs.Freed.{AreHere, is_settled};
ghost use Rattle.instrument.specs.Placements as placements;

use crate::number::InstrumentNo;
use crate::roster::Roster;
use crate::tool_text::ToolText;

/// Removes the instrument of a number if it was dropped and none of its mini blocks has a room.
pub fn settle(text: &ToolText, roster: &mut Roster, number: InstrumentNo)
    ensures { roster.new ≡ record roster.old { instruments = filter (is_settled text.now.book.rooms number.n) roster.old.instruments } }
{
    if !text.has_room_of(number.n) {
        roster.let_go(number);
    }
}

/// Gives back the rooms of the unlinked blocks of a point. An instrument that was dropped is removed with its last room.
pub fn free(text: &mut ToolText, roster: &mut Roster, point: u64)
    requires { AreHere text.old.book.rooms roster.old.instruments }
    ensures program { text.new.program ≡ text.old.program }
    ensures book { text.new.book ≡ record { rooms = filter (books.stays point) text.old.book.rooms; agenda = text.old.book.agenda } }
    ensures spare { text.new.spare_rooms ≡ text.old.spare_rooms }
    ensures takes { text.new.takes ≡ text.old.takes }
    ensures entries { text.old.entries ≤ text.new.entries }
    ensures roster { roster.new ≡ record roster.old {
      instruments = filter
          (placements.is_here (filter (books.stays point) text.old.book.rooms)) roster.old.instruments;
    } }
{
    while let Some(room) = text.take_unlinked(point) {
        if !room.base {
            settle(text, roster, InstrumentNo { n: room.owner });
        }
    }
}
