//! The entries of the agenda.

ghost use Rattle.std.specs.Prelude.{◌≡◌};
ghost use Rattle.instrument.specs.Books as books;

use tramp_spec::Block;

/// An entry of the agenda.
#[derive(Drop)]
pub enum Entry {
    /// A base block is to be written.
    WriteBase(Block),
    /// A mini block is to be written. It is to lead on to where the head of its point's base block then leads.
    WriteMini(Block),
    /// The mini block at an address becomes the newest of its point.
    LinkMini {
        /// The point.
        point: u64,
        /// The address of the mini block.
        at: u64,
    },
    /// The point's word becomes a jump to its base block.
    LinkPoint {
        /// The point.
        point: u64,
        /// The address of the base block.
        at: u64,
    },
    /// The mini block at an address is passed by from now on.
    UnlinkMini {
        /// The point.
        point: u64,
        /// The address of the mini block.
        at: u64,
    },
    /// The point's word becomes the program's again.
    UnlinkPoint {
        /// The point.
        point: u64,
        /// The address of the base block.
        at: u64,
    },
    /// The rooms of the point's unlinked blocks are to be given back.
    Free {
        /// The point.
        point: u64,
    },
}

impl Entry {
    /// Returns the point of a Free.
    pub fn freed_point(&self) -> Option<u64>
        ensures { result ≡ books.freed_point self.now }
    {
        match self {
            Entry::Free { point } => Some(*point),
            _ => None,
        }
    }

    /// Returns whether it unlinks the point, or a mini block there.
    pub fn unlinks(&self, of: u64) -> bool
        ensures { result ≡ books.unlinks of self.now }
    {
        match self {
            Entry::UnlinkMini { point, .. } | Entry::UnlinkPoint { point, .. } => *point == of,
            _ => false,
        }
    }
}
