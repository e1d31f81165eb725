//! The calls by which the tool patches a machine. Each is an event of the definitions.

ghost use Rattle.std.specs.Prelude.{◌≡◌, ◌↔◌, ◌-◌, ◌<◌, ◌&&◌, if◌then◌else◌, max, IfSome, IsSome, IsTrue, OnErr, OnOk, length};
ghost use Rattle.std.specs.List.{list_any};
ghost use Rattle.machine.specs.Cores.{Live};
ghost use Rattle.machine.specs.Effects.{after_event, lead_to};
ghost use Rattle.machine.specs.Events.{Free, HasMini, IsEntered, LinkMini, LinkPoint, May, MayLinkMini, MayLinkPoint, MayWrite, UnlinkMini, UnlinkPoint, Write, current_base, next_of};
ghost use Rattle.machine.specs.Links.{HasLink, is_of};
ghost use Rattle.machine.specs.Reached.{owner_by};
ghost use Rattle.machine.specs.States.{with_core};
ghost use Rattle.machine.specs.Views.{row_of};

use crate::block_row::{BlockRow, BlockStatus};
use crate::hart::HartState;
use crate::machine::Machine;
use code_store::Store;
use pn_types::NoMemory;
use tramp_spec::{Block, MarkedWord, jump_word};

/// Lets the word that leads from a block to the next lead to an address.
fn lead_to(store: &mut Store, row: &BlockRow, target: u64)
    requires { HasLink store.old.program (row_of row.now) }
    ensures { store.new ≡ record store.old { code = lead_to (row_of row.now) target store.old.code } }
{
    let at = row.link_at();
    store.set_word(at, MarkedWord::tool(jump_word(at, target)));
}

impl Machine {
    /// Makes room for `blocks` more blocks, counting the room that there is. Of the calls that patch only this one takes memory.
    ///
    /// # Errors
    ///
    /// `NoMemory` if memory runs out. Then nothing has changed.
    pub fn reserve(&mut self, blocks: u32) -> Result<(), NoMemory>
        ensures ok { OnOk result (self.new ≡ record self.old { room = max blocks self.old.room }) }
        ensures err { OnErr result (self.new ≡ self.old) }
    {
        self.blocks.reserve(blocks)
    }

    /// Writes the words of a block into the tool text. No word leads to them yet. The block must have the shape of a base block
    /// or a mini block, lie in the tool text apart from each block that isn't freed, and stand for a point that has no other
    /// base block, unless retired, if it is one. It takes room for one block.
    pub fn write(&mut self, block: &Block)
        requires may { MayWrite self.old.core block.now }
        requires room { 0 < self.old.room }
        ensures { self.new ≡ record { core = after_event self.old.core (Write block.now); room = self.old.room - 1 } }
    {
        self.store.put_block(block);
        self.blocks.push(BlockRow {
            point: block.point,
            at: block.at,
            len: block.words.as_slice().len() as u32,
            base: block.base,
            status: BlockStatus::Written,
        });
    }

    /// Links a mini block of a point that was written, which becomes the newest: the head of the point's base block, which must
    /// be there and not be retired, leads to it. The mini block must lead to where that head has led.
    pub fn link_mini(&mut self, point: u64, at: u64)
        requires { MayLinkMini self.old.core point at }
        ensures { self.new ≡ with_core self.old (after_event self.old.core (LinkMini point at)) }
    {
        if let Some(base) = self.blocks.current_base(point) {
            lead_to(&mut self.store, &base, at);
            self.blocks.set_status(point, at, BlockStatus::Live);
        }
    }

    /// Unlinks a live mini block of a point, which is retired: the block that leads to it leads to its next. Harts that are in it
    /// go on.
    pub fn unlink_mini(&mut self, point: u64, at: u64)
        requires { HasMini self.old.core point at Live }
        ensures { self.new ≡ with_core self.old (after_event self.old.core (UnlinkMini point at)) }
    {
        if let Some(holder) = self.blocks.before(&self.store, point, at) {
            if let Some(mini) = self.blocks.row_at(point, at) {
                let next = mini.next_of(&self.store);
                lead_to(&mut self.store, &holder, next);
                self.blocks.set_status(point, at, BlockStatus::Retired);
            }
        }
    }

    /// Puts the jump to its base block in the place of the program's word, which must stand at the point. The base block, which
    /// must be there and not be retired, is live.
    pub fn link_point(&mut self, point: u64)
        requires { MayLinkPoint self.old.core point }
        ensures { self.new ≡ with_core self.old (after_event self.old.core (LinkPoint point)) }
    {
        if let Some(base) = self.blocks.current_base(point) {
            self.store
                .set_word(point, MarkedWord::enter(jump_word(point, base.at)));
            self.blocks.set_status(point, base.at, BlockStatus::Live);
        }
    }

    /// Puts the program's word back in the place of the jump to a base block, which must stand at the point. The base block and
    /// the point's live mini blocks are retired. Harts that are in them go on.
    pub fn unlink_point(&mut self, point: u64)
        requires { IsEntered self.old.core point }
        ensures { self.new ≡ with_core self.old (after_event self.old.core (UnlinkPoint point)) }
    {
        if let Some(word) = self.store.program_word(point) {
            self.store.set_word(point, MarkedWord::own(word));
            self.blocks.retire_point(point);
        }
    }

    /// Frees the retired blocks of a point, so that others can be written in their place. Returns true exactly where no hart is inside
    /// a block of the point; else nothing changes. The room for more blocks stays as it is.
    pub fn free(&mut self, point: u64) -> bool
        ensures may { IsTrue result ↔ May self.old.core (Free point) }
        ensures state { self.new ≡ if result then with_core self.old (after_event self.old.core (Free point)) else self.old }
    {
        if self.has_hart_at(point) {
            return false;
        }
        self.blocks.remove_retired(point, &mut self.store);
        true
    }

    /// The address to which the head of the point's base block leads: its newest mini block, or the tail. The point must have
    /// a base block that isn't retired.
    pub fn head(&self, point: u64) -> u64
        requires { IsSome (current_base self.now.core.rows point) }
        ensures { IfSome (current_base self.now.core.rows point) (λ base. result ≡ next_of self.now.core.code base) }
    {
        let Some(base) = self.blocks.current_base(point) else {
            unreachable!();
        };
        base.next_of(&self.store)
    }

    /// Whether a hart is inside a block of the point.
    fn has_hart_at(&self, point: u64) -> bool
        ensures { result ≡ list_any (λ x. x.inside && is_of point (owner_by self.now.core.rows x.pc)) self.now.core.harts }
    {
        self.harts.iter().any(|hart| self.is_at(hart, point))
    }

    /// Whether the hart is inside, at a word of a block of the point.
    fn is_at(&self, hart: &HartState, point: u64) -> bool
        ensures { result ≡ hart.now.inside && is_of point (owner_by self.now.core.rows hart.now.pc) }
    {
        hart.is_inside() && self.store.owner(hart.pc()) == Some(point)
    }
}
