//! The events that the agenda hands out.

ghost use Rattle.std.specs.Prelude.{◌≡◌};
ghost use Rattle.instrument.specs.Shown.{point_of, shown};

use crate::entry::Entry;
use tramp_spec::Block;

/// What is to be done in the machine next.
#[derive(Drop)]
pub enum Event {
    /// This base block is written.
    WriteBase(Block),
    /// This mini block is written, so that it leads on to where the head of its point's base block leads just then.
    WriteMini(Block),
    /// The mini block at an address becomes the newest of its point.
    LinkMini {
        /// The point.
        point: u64,
        /// The address of the mini block.
        at: u64,
    },
    /// The point's word becomes a jump to its base block.
    LinkPoint {
        /// The point.
        point: u64,
    },
    /// The mini block at an address is passed by from now on.
    UnlinkMini {
        /// The point.
        point: u64,
        /// The address of the mini block.
        at: u64,
    },
    /// The point's word becomes the program's again.
    UnlinkPoint {
        /// The point.
        point: u64,
    },
    /// The unlinked blocks of the point are given back.
    Free {
        /// The point.
        point: u64,
    },
}

impl Event {
    /// Returns the event of an entry of the agenda.
    pub fn of(entry: Entry) -> Event
        ensures { result ≡ shown entry }
    {
        match entry {
            Entry::WriteBase(block) => Event::WriteBase(block),
            Entry::WriteMini(block) => Event::WriteMini(block),
            Entry::LinkMini { point, at } => Event::LinkMini { point, at },
            Entry::LinkPoint { point, .. } => Event::LinkPoint { point },
            Entry::UnlinkMini { point, at } => Event::UnlinkMini { point, at },
            Entry::UnlinkPoint { point, .. } => Event::UnlinkPoint { point },
            Entry::Free { point } => Event::Free { point },
        }
    }

    /// Returns the point at which it is done.
    pub fn point(&self) -> u64
        ensures { result ≡ point_of self.now }
    {
        match self {
            Event::WriteBase(block) | Event::WriteMini(block) => block.point,
            Event::LinkMini { point, .. }
            | Event::LinkPoint { point }
            | Event::UnlinkMini { point, .. }
            | Event::UnlinkPoint { point }
            | Event::Free { point } => *point,
        }
    }
}
