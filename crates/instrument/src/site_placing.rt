//! Places the sites of instruments in the tool text.

ghost use Rattle.std.specs.Prelude.{◌≡◌, ◌+◌, ◌*◌, ◌<◌, ◌≤◌, [], ◌^◌, Ok, Err, IfErr, IfOk, OnOk, length, map, take};
ghost use Rattle.pn_types.specs.declared.plan.Site.{Site};
ghost use Rattle.prim_code.specs.Counts.{site_words, word_count};
ghost use Rattle.prim_code.specs.Named.{AreBelow};
ghost use Rattle.machine.specs.Cores.{In};
ghost use Rattle.instrument.specs.Admission as table;
ghost use Rattle.instrument.specs.Placements.{sites_of};
ghost use Rattle.instrument.specs.ToolTexts.{IsGrown};

use crate::buffers::Buffers;
use crate::number::Refused;
use crate::placing::place_site;
use crate::site_memory::SiteMemory;
use crate::tool_text::ToolText;
use pn_types::{PlacedSite, SEGMENTS_TO, Site};
use std::collections::VecDeque;

impl ToolText {
    /// Places a site of an instrument, for which memory was reserved. `buffers` give the memory of its blocks' words.
    fn place_site(
        &mut self,
        owner: u64,
        slots: &[u32],
        site: &Site,
        buffers: Buffers,
    ) -> Result<(), Refused>
        requires rooms { 2 ≤ self.old.spare_rooms }
        requires takes { 2 ≤ self.old.takes }
        requires entries { 7 ≤ self.old.entries }
        requires named { AreBelow (length slots.now) site.now.stmts }
        requires count { word_count site.now.stmts + 1 < 2 ^ 32 }
        requires buffers { buffers ≡ word_count site.now.stmts + 1 }
        ensures ok { OnOk result (table.with_site self.old.program owner slots.now site.now self.old.book ≡ Ok self.new.book) }
        ensures refused { IfErr result (λ refused. table.with_site self.old.program owner slots.now site.now self.old.book ≡ Err refused) }
        ensures unchanged { IfErr result (λ refused. self.new.book ≡ self.old.book) }
        ensures program { self.new.program ≡ self.old.program }
        ensures rooms_left { self.old.spare_rooms ≤ self.new.spare_rooms + 2 }
        ensures takes_left { self.old.takes ≤ self.new.takes + 2 }
        ensures entries_left { self.old.entries ≤ self.new.entries + 7 }
    {
        prove!(self.program.tool_at() <= SEGMENTS_TO + 4095);
        place_site(
            &self.program,
            &mut self.ledger,
            &mut self.words,
            owner,
            slots,
            site,
            buffers,
        )
    }

    /// Places the sites of an instrument in turn, up to the first that is refused.
    fn place_each(
        &mut self,
        owner: u64,
        slots: &[u32],
        sites: &[Site],
        buffers: &mut VecDeque<Buffers>,
    ) -> Result<(), Refused>
        requires rooms { 2 * length sites.now ≤ self.old.spare_rooms }
        requires takes { 2 * length sites.now ≤ self.old.takes }
        requires entries { 7 * length sites.now ≤ self.old.entries }
        requires named { (s : Site) → In s sites.now → AreBelow (length slots.now) s.stmts }
        requires count { (s : Site) → In s sites.now → word_count s.stmts + 1 < 2 ^ 32 }
        requires buffers { buffers.old.items ≡ map site_words sites.now }
        ensures ok { OnOk result (table.with_sites self.old.program owner slots.now sites.now self.old.book ≡ Ok self.new.book) }
        ensures refused { IfErr result
            (λ refused. table.with_sites self.old.program owner slots.now sites.now self.old.book ≡ Err refused) }
        ensures program { self.new.program ≡ self.old.program }
        ensures grown { IsGrown self.old.book self.new.book }
        ensures rooms_left { self.old.spare_rooms ≤ self.new.spare_rooms + 2 * length sites.now }
        ensures takes_left { self.old.takes ≤ self.new.takes + 2 * length sites.now }
        ensures entries_left { self.old.entries ≤ self.new.entries + 7 * length sites.now }
    {
        for site in sites {
            let Some(buffers) = buffers.pop_front() else {
                unreachable!();
            };
            self.place_site(owner, slots, site, buffers)?;
        }
        Ok(())
    }

    /// Keeps the first `rooms` rooms and the first `entries` entries, and gives back the other rooms.
    fn truncate(&mut self, rooms: usize, entries: usize)
        requires { rooms ≤ length self.old.book.rooms }
        ensures program { self.new.program ≡ self.old.program }
        ensures book { self.new.book ≡ record { rooms = take rooms self.old.book.rooms; agenda = take entries self.old.book.agenda } }
        ensures spare { self.new.spare_rooms ≡ self.old.spare_rooms }
        ensures takes { self.new.takes ≡ self.old.takes }
        ensures entries { self.old.entries ≤ self.new.entries }
    {
        self.ledger.truncate(&mut self.words, rooms, entries);
    }

    /// Places the sites of an instrument, for which memory was reserved, and returns them. `memory` is the memory that was taken
    /// for them.
    ///
    /// # Errors
    ///
    /// Why the first site that is refused has no room. Then nothing was placed.
    pub fn place_sites(
        &mut self,
        owner: u64,
        slots: &[u32],
        sites: &[Site],
        memory: SiteMemory,
    ) -> Result<Vec<PlacedSite>, Refused>
        requires rooms { 2 * length sites.now ≤ self.old.spare_rooms }
        requires takes { 2 * length sites.now ≤ self.old.takes }
        requires entries { 7 * length sites.now ≤ self.old.entries }
        requires named { (s : Site) → In s sites.now → AreBelow (length slots.now) s.stmts }
        requires count { (s : Site) → In s sites.now → word_count s.stmts + 1 < 2 ^ 32 }
        requires new { sites_of owner self.old.book.rooms ≡ [] }
        requires memory { memory ≡ map site_words sites.now }
        ensures ok { OnOk result (table.with_sites self.old.program owner slots.now sites.now self.old.book ≡ Ok self.new.book) }
        ensures sites { IfOk result (λ placed. placed.items ≡ sites_of owner self.new.book.rooms) }
        ensures refused { IfErr result
            (λ refused. table.with_sites self.old.program owner slots.now sites.now self.old.book ≡ Err refused) }
        ensures unchanged { IfErr result (λ refused. self.new.book ≡ self.old.book) }
        ensures program { self.new.program ≡ self.old.program }
        ensures rooms_left { self.old.spare_rooms ≤ self.new.spare_rooms + 2 * length sites.now }
        ensures takes_left { self.old.takes ≤ self.new.takes + 2 * length sites.now }
        ensures entries_left { self.old.entries ≤ self.new.entries + 7 * length sites.now }
    {
        let rooms = self.ledger.count();
        let entries = self.ledger.entries();
        let SiteMemory { buffers, placed } = memory;
        let mut buffers = buffers;
        if let Err(refused) = self.place_each(owner, slots, sites, &mut buffers) {
            self.truncate(rooms, entries);
            return Err(refused);
        }
        Ok(self.ledger.sites_of(placed, owner))
    }
}
