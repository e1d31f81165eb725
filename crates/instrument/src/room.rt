//! A room of the tool text, and how it is kept.

ghost use Rattle.std.specs.Prelude.{◌≡◌, ◌<◌, ◌^◌, length};
ghost use Rattle.instrument.specs.Books as books;
ghost use Rattle.instrument.specs.Placements as placements;

use tramp_spec::Block;

/// How a room of the tool text is kept.
#[derive(Clone, Copy, PartialEq, Eq, Drop)]
pub enum Hold {
    /// Its block stands in the program or will: no unlinking was asked for.
    Held,
    /// The unlinking of its block stands in the agenda.
    Leaving,
    /// The unlinking of its block was handed out. The room is given back when its point is freed.
    Unlinked,
}

/// A room of the tool text that was taken and not given back.
#[derive(Clone, Copy, PartialEq, Eq, Drop)]
pub struct Room {
    /// The address of the program's word for which its block stands.
    pub point: u64,
    /// The address of its first word, a multiple of 4.
    pub at: u64,
    /// How many words it has.
    pub len: u32,
    /// Whether its block is a base block, and not a mini block.
    pub base: bool,
    /// The number of the instrument of its mini block. A base block is no instrument's, and has 0 here.
    pub owner: u64,
    /// How it is kept.
    pub hold: Hold,
}

impl Hold {
    /// Returns whether no unlinking of its block was asked for.
    pub fn is_held(self) -> bool
        ensures { result ≡ books.is_held self }
    {
        matches!(self, Hold::Held)
    }

    /// Returns whether the unlinking of its block was handed out.
    pub fn is_unlinked(self) -> bool
        ensures { result ≡ books.is_unlinked self }
    {
        matches!(self, Hold::Unlinked)
    }

    /// Returns how it is kept once the unlinking of its block is asked for.
    pub fn leaving(self) -> Hold
        ensures { result ≡ books.leaving self }
    {
        match self {
            Hold::Held | Hold::Leaving => Hold::Leaving,
            Hold::Unlinked => Hold::Unlinked,
        }
    }
}

impl Room {
    /// Returns the room of a base block.
    pub fn of_base(block: &Block) -> Room
        requires { length block.now.words < 2 ^ 32 }
        ensures { result ≡ books.base_room block.now }
    {
        Room {
            point: block.point,
            at: block.at,
            len: block.words.as_slice().len() as u32,
            base: true,
            owner: 0,
            hold: Hold::Held,
        }
    }

    /// Returns the room of a mini block of an instrument.
    pub fn of_mini(owner: u64, block: &Block) -> Room
        requires { length block.now.words < 2 ^ 32 }
        ensures { result ≡ books.mini_room owner block.now }
    {
        Room {
            point: block.point,
            at: block.at,
            len: block.words.as_slice().len() as u32,
            base: false,
            owner,
            hold: Hold::Held,
        }
    }

    /// Returns whether it is the room of a base block of the point whose unlinking wasn't asked for.
    pub fn is_base_of(&self, point: u64) -> bool
        ensures { result ≡ books.is_base_of point self.now }
    {
        self.base && self.point == point && self.hold.is_held()
    }

    /// Returns whether it is the room of a mini block of the point whose unlinking wasn't asked for.
    pub fn is_mini_of(&self, point: u64) -> bool
        ensures { result ≡ books.is_mini_of point self.now }
    {
        !self.base && self.point == point && self.hold.is_held()
    }

    /// Returns whether it is the room of a mini block of an instrument whose unlinking wasn't asked for.
    pub fn is_site_of(&self, owner: u64) -> bool
        ensures { result ≡ placements.is_site_of owner self.now }
    {
        !self.base && self.owner == owner && self.hold.is_held()
    }

    /// Returns whether it is the room of a mini block of an instrument.
    pub fn is_mini_room_of(&self, owner: u64) -> bool
        ensures { result ≡ placements.is_mini_room_of owner self.now }
    {
        !self.base && self.owner == owner
    }

    /// Returns whether it stays when the point is freed.
    pub fn stays(&self, point: u64) -> bool
        ensures { result ≡ books.stays point self.now }
    {
        !(self.point == point && self.hold.is_unlinked())
    }

    /// Returns the room as it is once the mini block at an address is to leave.
    pub fn after_mini_leaves(self, at: u64) -> Room
        ensures { result ≡ books.with_hold (books.mini_leaves at) self }
    {
        let leaves = !self.base && self.at == at;
        Room {
            hold: if leaves {
                self.hold.leaving()
            } else {
                self.hold
            },
            ..self
        }
    }

    /// Returns the room as it is once the base block of the point is to leave.
    pub fn after_base_leaves(self, point: u64) -> Room
        ensures { result ≡ books.with_hold (books.base_leaves point) self }
    {
        let leaves = self.base && self.point == point;
        Room {
            hold: if leaves {
                self.hold.leaving()
            } else {
                self.hold
            },
            ..self
        }
    }

    /// Returns the room as it is once the block at an address was unlinked.
    pub fn after_unlinking(self, at: u64) -> Room
        ensures { result ≡ books.with_hold (books.unlinked_at at) self }
    {
        Room {
            hold: if self.at == at {
                Hold::Unlinked
            } else {
                self.hold
            },
            ..self
        }
    }
}
