//! The blocks of a machine.

ghost use Rattle.std.specs.Prelude.{◌≡◌, ◌+◌, ◌-◌, ◌*◌, ◌^◌, ◌<◌, ◌≤◌, ◌&&◌, ◌==◌, [], ◌∷◌, ◌++◌, find, filter, map, length, max, IfOk, IsTrue, OnErr, OnOk};
ghost use Rattle.std.specs.Option.{option_map};
ghost use Rattle.pn_types.specs.declared.limits.TheConstants.{TOOL_TEXT_LEN};
ghost use Rattle.bucket_chains.specs.Left.{buckets_of, present_entries};
ghost use Rattle.machine.specs.Cores.{In, Row};
ghost use Rattle.machine.specs.Effects.{at_set, is_kept, retired_at, with_status};
ghost use Rattle.machine.specs.Events.{current_base, is_before, row_at};
ghost use Rattle.machine.specs.LinkedSites.{is_live_mini};
ghost use Rattle.machine.specs.Links.{HasLink, IsInText, owners_left};
ghost use Rattle.machine.specs.States.{words_in};
ghost use Rattle.machine.specs.Views.{row_of, status_of};

use crate::block_row::{BlockRow, BlockStatus};
use bucket_chains::{BUCKETS, Chains};
use code_store::Store;
use pn_types::NoMemory;
use std::alloc::Global;
use std::marker::Model;

/// The blocks that aren't freed, in the order in which they were written. Contracts see the definitions' list of them, and for
/// how many more there is room.
pub struct Blocks {
    // By place; none where a block was freed.
    rows: Vec<Option<BlockRow>>,
    // The places in the buckets of their blocks' points.
    places: Chains,
    // How many places have no block.
    empty: usize,
    room: usize,
}

impl Model for Blocks {
    ghost use Rattle.std.specs.Prelude.{◌≡◌, ◌+◌, ◌≤◌, length, map, vec_capacity};
    ghost use Rattle.bucket_chains.specs.Left.{buckets_of, present_entries};
    ghost use Rattle.machine.specs.Views.{BlockList, row_of};

    ghost Value = { BlockList };

    ghost view = { λ b. record { rows = map row_of (present_entries b.rows.items); room = b.room } };

    ghost invariant = { λ b.
        (b.places.buckets ≡ buckets_of (λ r. r.point) b.rows.items)
        × (b.room ≤ b.places.room)
        × (length b.rows.items + b.room ≤ vec_capacity b.rows) };
}

// By a call of its own: what drops it need not prove the drops of all its parts.
impl Drop for Blocks {
    fn drop(self) {
        let Blocks {
            rows: _,
            places: _,
            empty: _,
            room: _,
        } = self;
    }
}

/// How many words the blocks have.
fn words_of(rows: &[Option<BlockRow>]) -> u32
    requires { 4 * words_in (map row_of (present_entries rows.now)) ≤ TOOL_TEXT_LEN }
    ensures { result ≡ words_in (map row_of (present_entries rows.now)) }
{
    let mut words = 0;
    for row in rows {
        if let Some(row) = row {
            words += row.len;
        }
    }
    words
}

/// Puts the places of blocks into the buckets of their points, after those that are there.
fn put_places(rows: &[Option<BlockRow>], places: &mut Chains)
    requires { length rows.now ≤ places.old.room }
    ensures { places.new
        ≡ record { buckets = places.old.buckets ++ buckets_of (λ r. r.point) rows.now; room = places.old.room - length rows.now } }
{
    for row in rows {
        match row {
            Some(row) => places.push(row.point),
            None => places.skip(),
        }
    }
}

impl Blocks {
    /// No block, and room for none.
    ///
    /// # Errors
    ///
    /// `NoMemory` if memory runs out.
    pub fn new(alloc: Global) -> Result<Blocks, NoMemory>
        ensures { IfOk result (λ blocks. blocks ≡ record { rows = []; room = 0 }) }
    {
        Ok(Blocks {
            rows: Vec::new(alloc),
            places: Chains::new(alloc)?,
            empty: 0,
            room: 0,
        })
    }

    /// Makes room for `blocks` more blocks, counting the room that there is. Only this takes memory.
    ///
    /// # Errors
    ///
    /// `NoMemory` if memory runs out. Then nothing has changed.
    pub fn reserve(&mut self, blocks: u32) -> Result<(), NoMemory>
        ensures ok { OnOk result (self.new ≡ record self.old { room = max blocks self.old.room }) }
        ensures err { OnErr result (self.new ≡ self.old) }
    {
        self.compact();
        let room = self.room.max(blocks as usize);
        self.rows.reserve(room)?;
        self.places.reserve(room)?;
        self.room = room;
        Ok(())
    }

    /// Removes the places that have no block, where these are more than half of the places and more than the buckets.
    fn compact(&mut self)
        ensures { self.new ≡ self.old }
    {
        if self.empty <= self.rows.len() / 2 || self.empty <= BUCKETS as usize {
            return;
        }
        self.rows.retain(|row| row.is_some());
        self.places.clear();
        put_places(&self.rows, &mut self.places);
        self.empty = 0;
    }

    /// Appends a block.
    pub fn push(&mut self, row: BlockRow)
        requires { 0 < self.old.room }
        ensures { self.new ≡ record { rows = self.old.rows ++ row_of row ∷ []; room = self.old.room - 1 } }
    {
        self.rows.push_reserved(Some(row));
        self.places.push(row.point);
        self.room -= 1;
    }

    /// The base block of a point that isn't retired.
    pub fn current_base(&self, point: u64) -> Option<BlockRow>
        ensures { option_map row_of result ≡ current_base self.now.rows point }
    {
        let mut next = self.places.first(point);
        while let Some(place) = next {
            if let Some(row) = self.rows[place]
                && row.is_current_base(point)
            {
                return Some(row);
            }
            next = self.places.next(place);
        }
        None
    }

    /// The block of a point that begins at an address.
    fn row_of_point(&self, point: u64, at: u64) -> Option<BlockRow>
        ensures { option_map row_of result ≡ find (λ r. (r.point == point) && (r.at == at)) self.now.rows }
    {
        let mut next = self.places.first(point);
        while let Some(place) = next {
            if let Some(row) = self.rows[place]
                && row.is_at(point, at)
            {
                return Some(row);
            }
            next = self.places.next(place);
        }
        None
    }

    /// The block that begins at an address. It must be of the point, if there is one.
    pub fn row_at(&self, point: u64, at: u64) -> Option<BlockRow>
        requires { (r : Row) → In r self.now.rows → r.at ≡ at → r.point ≡ point }
        ensures { option_map row_of result ≡ row_at self.now.rows at }
    {
        self.row_of_point(point, at)
    }

    /// Whether a live mini block of the point begins at an address. No two blocks may begin at one address.
    pub fn has_live_mini(&self, point: u64, at: u64) -> bool
        requires { (r q : Row) → In r self.now.rows → In q self.now.rows → r.at ≡ q.at → r ≡ q }
        ensures { result ≡ is_live_mini point (row_at self.now.rows at) }
    {
        match self.row_of_point(point, at) {
            Some(row) => row.is_live_mini(point),
            None => false,
        }
    }

    /// The linked block that leads to an address. Each linked block that leads there must stand for the point.
    pub fn before(&self, store: &Store, point: u64, at: u64) -> Option<BlockRow>
        requires links { (r : Row) → In r self.now.rows → HasLink store.now.program r }
        requires of_point { (r : Row) → In r self.now.rows → IsTrue (is_before store.now.code at r) → r.point ≡ point }
        ensures { option_map row_of result ≡ find (is_before store.now.code at) self.now.rows }
    {
        let mut next = self.places.first(point);
        while let Some(place) = next {
            if let Some(row) = self.rows[place]
                && row.is_before(store, point, at)
            {
                return Some(row);
            }
            next = self.places.next(place);
        }
        None
    }

    /// Gives the block at an address a status. It must be of the point, if there is one.
    pub fn set_status(&mut self, point: u64, at: u64, status: BlockStatus)
        requires { (r : Row) → In r self.old.rows → r.at ≡ at → r.point ≡ point }
        ensures { self.new ≡ record self.old { rows = map (with_status (at_set at (status_of status))) self.old.rows } }
    {
        let mut next = self.places.first(point);
        while let Some(place) = next {
            if let Some(row) = self.rows[place]
                && row.is_at(point, at)
            {
                self.rows[place] = Some(BlockRow { status, ..row });
            }
            next = self.places.next(place);
        }
    }

    /// Retires what is linked at a point.
    pub fn retire_point(&mut self, point: u64)
        ensures { self.new ≡ record self.old { rows = map (with_status (retired_at point)) self.old.rows } }
    {
        let mut next = self.places.first(point);
        while let Some(place) = next {
            if let Some(row) = self.rows[place]
                && row.is_linked_at(point)
            {
                self.rows[place] = Some(BlockRow {
                    status: BlockStatus::Retired,
                    ..row
                });
            }
            next = self.places.next(place);
        }
    }

    /// Removes the retired blocks of a point. Their words belong to no block any more.
    pub fn remove_retired(&mut self, point: u64, store: &mut Store)
        requires { (r : Row) → In r self.old.rows → IsInText store.old.program r }
        ensures rows { self.new ≡ record self.old { rows = filter (is_kept point) self.old.rows } }
        ensures store { store.new ≡ record store.old { owners = owners_left point self.old.rows store.old.owners } }
    {
        let mut next = self.places.first(point);
        while let Some(place) = next {
            next = self.places.next(place);
            if let Some(row) = self.rows[place]
                && !row.is_kept(point)
            {
                store.drop_block(row.at, row.len);
                self.rows[place] = None;
                self.places.remove(place);
                self.empty = self.empty.saturating_add(1);
            }
        }
    }

    /// How many words the blocks have.
    pub fn words(&self) -> u32
        requires { 4 * words_in self.now.rows ≤ TOOL_TEXT_LEN }
        ensures { result ≡ words_in self.now.rows }
    {
        words_of(&self.rows)
    }
}
