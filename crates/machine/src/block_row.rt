//! What a machine knows of one block.

ghost use Rattle.std.specs.Prelude.{◌≡◌, ◌^◌, ◌<◌, ◌&&◌, ◌==◌, Some};
ghost use Rattle.machine.specs.Cores.{is_current};
ghost use Rattle.machine.specs.Effects.{is_kept};
ghost use Rattle.machine.specs.Events.{is_before, is_linked, link_at, next_of};
ghost use Rattle.machine.specs.LinkedSites.{is_live_mini};
ghost use Rattle.machine.specs.Links.{HasLink};
ghost use Rattle.machine.specs.Views.{row_of, status_of};

use code_store::Store;
use rv_word::jump_target;

/// How far a block is.
#[derive(Clone, Copy, PartialEq, Eq, Drop)]
pub enum BlockStatus {
    /// It can be linked.
    Written,
    /// It is linked.
    Live,
    /// It was unlinked.
    Retired,
}

/// A block that isn't freed.
#[derive(Clone, Copy, PartialEq, Eq, Drop)]
pub struct BlockRow {
    /// The point for which it stands.
    pub point: u64,
    /// The address of its first word.
    pub at: u64,
    /// How many words it has.
    pub len: u32,
    /// It is a base block, and not a mini block.
    pub base: bool,
    pub status: BlockStatus,
}

impl BlockStatus {
    /// It isn't retired.
    fn is_current(self) -> bool
        ensures { result ≡ is_current (status_of self) }
    {
        match self {
            BlockStatus::Written | BlockStatus::Live => true,
            BlockStatus::Retired => false,
        }
    }
}

impl BlockRow {
    /// It leads to other blocks.
    fn is_linked(&self) -> bool
        ensures { result ≡ is_linked (row_of self.now) }
    {
        match self.status {
            BlockStatus::Written => self.base,
            BlockStatus::Live => true,
            BlockStatus::Retired => false,
        }
    }

    /// It stands for the point, and leads to other blocks.
    pub fn is_linked_at(&self, point: u64) -> bool
        ensures { result ≡ ((row_of self.now).point == point) && is_linked (row_of self.now) }
    {
        self.point == point && self.is_linked()
    }

    /// It is the base block of the point, and isn't retired.
    pub fn is_current_base(&self, point: u64) -> bool
        ensures { result ≡ (row_of self.now).base && (((row_of self.now).point == point) && is_current (row_of self.now).status) }
    {
        self.base && self.point == point && self.status.is_current()
    }

    /// It stands for the point, and begins at an address.
    pub fn is_at(&self, point: u64, at: u64) -> bool
        ensures { result ≡ ((row_of self.now).point == point) && ((row_of self.now).at == at) }
    {
        self.point == point && self.at == at
    }

    /// It isn't one of the retired blocks of the point.
    pub fn is_kept(&self, point: u64) -> bool
        ensures { result ≡ is_kept point (row_of self.now) }
    {
        self.point != point || self.status.is_current()
    }

    /// It is a live mini block of the point.
    pub fn is_live_mini(&self, point: u64) -> bool
        ensures { result ≡ is_live_mini point (Some (row_of self.now)) }
    {
        !self.base && self.point == point && matches!(self.status, BlockStatus::Live)
    }

    /// It stands for the point, and leads to the block at an address.
    pub fn is_before(&self, store: &Store, point: u64, at: u64) -> bool
        requires { HasLink store.now.program (row_of self.now) }
        ensures { result ≡ ((row_of self.now).point == point) && is_before store.now.code at (row_of self.now) }
    {
        self.is_linked_at(point) && self.next_of(store) == at
    }

    /// The address of the word that leads to the next block.
    pub fn link_at(&self) -> u64
        requires { link_at (row_of self.now) < 2 ^ 64 }
        ensures { result ≡ link_at (row_of self.now) }
    {
        if self.base {
            self.at + 4
        } else {
            self.at + 4 * u64::from(self.len.saturating_sub(1))
        }
    }

    /// The address to which that word leads.
    pub fn next_of(&self, store: &Store) -> u64
        requires { HasLink store.now.program (row_of self.now) }
        ensures { result ≡ next_of store.now.code (row_of self.now) }
    {
        let at = self.link_at();
        match store.fetch(at, true) {
            Some((word, _)) => jump_target(word, at).unwrap_or(0),
            None => 0,
        }
    }
}
