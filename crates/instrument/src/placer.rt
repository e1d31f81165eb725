//! The instruments of a patched machine.

ghost use Rattle.std.specs.Prelude.{◌≡◌, nat_le, ◌+◌, ◌<◌, ◌≤◌, ◌⊎◌, ◌^◌, Ok, Err, IfErr, IfOk, IfSome, OnErr, OnOk, Some, [], length, map};
ghost use Rattle.std.specs.Option.{option_map};
ghost use Rattle.machine.specs.Cores.{In};
ghost use Rattle.pn_types.specs.Images.{IsImage};
ghost use Rattle.pn_types.specs.declared.plan.Plan.{Plan};
ghost use Rattle.pn_types.specs.declared.plan.Site.{Site};
ghost use Rattle.prim_code.specs.Counts as table;
ghost use Rattle.prim_code.specs.Named.{AreBelow};
ghost use Rattle.instrument.specs.Admission as admission;
ghost use Rattle.instrument.specs.Armable.{IsArmable};
ghost use Rattle.instrument.specs.Laws.{ArePlacingsDone};
ghost use Rattle.instrument.specs.Needs.{need_of, without};
ghost use Rattle.instrument.specs.Placements as placements;
ghost use Rattle.instrument.specs.Placers.{new_placer};
ghost use Rattle.instrument.specs.Shown.{point_of, shown};
ghost use Rattle.instrument.specs.declared.event.Event.TheVariants.{Free};
ghost use Rattle.instrument.specs.declared.instrument.Instrument.{Instrument};
ghost use Rattle.instrument.specs.declared.number.Refused.TheVariants.{NoMemory};
ghost use Rattle.instrument.specs.declared.number.State.TheVariants.{Placing, Armed, Gone};

use crate::admission::{is_over, place};
use crate::costs::slot_count;
use crate::event::Event;
use crate::kit::Kit;
use crate::kits::{kits_for, sites_in, take_kit};
use crate::leaving::{free, settle};
use crate::memory::{kit_for, take_memory};
use crate::number::{InstrumentNo, Refused, State};
use crate::roster::Roster;
use crate::tool_text::ToolText;
use pn_types::{Image, MAX_INSTRUMENTS, NoMemory, Placed, Plan};
use prim_code::predicted;
use std::alloc::{AllocError, Global};
use std::marker::Model;

/// The instruments of a patched machine: where they act, and what is to be done for them there. Contracts see the definitions'
/// placements, how many more entries of the agenda need no memory beside those of drops, and the needs of the plans that are ready:
/// the memory of their admissions was taken.
#[derive(Drop)]
pub struct Placer {
    text: ToolText,
    roster: Roster,
    // How many instruments are allowed at once, and how many were admitted so far.
    limit: u32,
    count: u64,
    // What the plans that are ready need for themselves.
    kits: Vec<Kit>,
}

impl Model for Placer {
    ghost use Rattle.instrument.specs.Placers.{IsPlacer, PlacerData, placer_data};

    ghost Value = { PlacerData };

    ghost view = { λ p. placer_data p.text p.roster p.limit p.count p.kits.items };

    ghost invariant = { λ p. IsPlacer p.text p.roster p.count p.kits.items };
}

impl Placer {
    /// Makes a placer with no instruments, for the program of an image. At most `instruments` may be there at once.
    ///
    /// # Errors
    ///
    /// `NoMemory` where memory runs out.
    pub fn new(alloc: Global, image: &Image, instruments: u32) -> Result<Placer, NoMemory>
        requires image { IsImage image.now }
        requires some { 0 < instruments }
        requires few { instruments ≤ MAX_INSTRUMENTS }
        ensures { IfOk result (λ placer. placer ≡ new_placer image.now instruments) }
    {
        Ok(Placer {
            text: ToolText::new(alloc, image)?,
            roster: Roster::new(alloc)?,
            limit: instruments,
            count: 0,
            kits: Vec::new(alloc),
        })
    }

    /// Returns how far an instrument has come.
    pub fn state(&self, number: InstrumentNo) -> State
        ensures { result ≡ placements.state_of self.now.placements number.n }
    {
        self.roster.state(number)
    }

    /// Returns whether there are as many instruments that aren't gone as are allowed at once.
    pub fn is_full(&self) -> bool
        ensures { result ≡ nat_le self.now.placements.limit (length self.now.placements.instruments) }
    {
        self.roster.instruments().len() >= self.limit as usize
    }

    /// Returns where an instrument that isn't gone acts. It can be armed.
    pub fn placed(&self, number: InstrumentNo) -> &Placed
        requires { placements.state_of self.now.placements number.n ≡ Gone → ⊥ }
        ensures placed { option_map (λ i. i.placed) (placements.instrument_at self.now.placements number.n) ≡ Some result.now }
        ensures armable { IsArmable result.now.opens }
    {
        match self.roster.placed(number) {
            Some(placed) => placed,
            None => unreachable!(),
        }
    }

    /// Notes that an instrument is armed. It was being placed, and all entries of its placing were handed out.
    pub fn armed(&mut self, number: InstrumentNo)
        requires placing { placements.state_of self.old.placements number.n ≡ Placing }
        requires placed { (i : Instrument)
            → placements.instrument_at self.old.placements number.n ≡ Some i → ArePlacingsDone self.old.placements i }
        ensures placements { self.new.placements ≡ placements.with_armed number.n self.old.placements }
        ensures entries { self.new.entries ≡ self.old.entries }
        ensures ready { self.new.ready ≡ self.old.ready }
    {
        self.roster.set_state(number, State::Armed);
    }

    /// Drops an instrument that wasn't dropped: the unlinking of its sites is put into the agenda, in the order of their placing.
    pub fn drop(&mut self, number: InstrumentNo)
        requires { (placements.state_of self.old.placements number.n ≡ Placing)
            ⊎ (placements.state_of self.old.placements number.n ≡ Armed) }
        ensures placements { self.new.placements ≡ placements.dropped number.n self.old.placements }
        ensures entries { self.old.entries ≤ self.new.entries }
        ensures ready { self.new.ready ≡ self.old.ready }
    {
        self.text.drop_sites(number.n);
        self.roster.set_state(number, State::Leaving);
        settle(&self.text, &mut self.roster, number);
    }

    /// Returns how many entries the agenda has.
    pub fn agenda_len(&self) -> usize
        ensures { result ≡ length self.now.placements.book.agenda }
    {
        self.text.agenda_len()
    }

    /// Hands out the first entry of the agenda: None exactly where the agenda is empty.
    pub fn next(&mut self) -> Option<Event>
        ensures event { result ≡ option_map shown (placements.front self.old.placements) }
        ensures placements { self.new.placements ≡ placements.after_first self.old.placements }
        ensures entries { self.old.entries ≤ self.new.entries }
        ensures room { IfSome result (λ event. self.old.entries < self.new.entries) }
        ensures ready { self.new.ready ≡ self.old.ready }
    {
        match self.text.hand_out() {
            Some(entry) => Some(Event::of(entry)),
            None => None,
        }
    }

    /// Removes the first Free before which no unlinking of its point stands, and returns its point: None exactly where there is no
    /// such Free.
    pub fn next_free(&mut self) -> Option<u64>
        ensures point { result ≡ placements.free_front self.old.placements }
        ensures placements { self.new.placements ≡ placements.free_behind self.old.placements }
        ensures entries { self.old.entries ≤ self.new.entries }
        ensures room { IfSome result (λ point. self.old.entries < self.new.entries) }
        ensures ready { self.new.ready ≡ self.old.ready }
    {
        self.text.take_free()
    }

    /// Puts a Free that was refused at the back of the agenda. It needs no memory: an entry was taken before.
    pub fn put_back(&mut self, event: Event)
        requires free { event ≡ Free (point_of event) }
        requires entries { 0 < self.old.entries }
        ensures placements { self.new.placements ≡ placements.put_back (point_of event) self.old.placements }
        ensures entries { self.new.entries + 1 ≡ self.old.entries }
        ensures ready { self.new.ready ≡ self.old.ready }
    {
        self.text.put_back(event.point());
    }

    /// Gives back the rooms of the point's blocks whose unlinking was handed out. An instrument that was dropped is gone when its
    /// last mini block is.
    pub fn freed(&mut self, point: u64)
        ensures placements { self.new.placements ≡ placements.freed point self.old.placements }
        ensures entries { self.old.entries ≤ self.new.entries }
        ensures ready { self.new.ready ≡ self.old.ready }
    {
        free(&mut self.text, &mut self.roster, point);
    }

    /// Reserves memory and numbers for the admission of each of these plans, which are ready then. What was reserved for other
    /// plans is given up. Entries that no drop needs may be used up.
    ///
    /// # Errors
    ///
    /// `NoMemory` where memory or numbers run out. Then no plan is ready.
    pub fn reserve(&mut self, alloc: Global, plans: &[Plan]) -> Result<(), NoMemory>
        requires words { (p : Plan) → In p plans.now → table.predicted p < 2 ^ 32 }
        ensures placements { self.new.placements ≡ self.old.placements }
        ensures ok { OnOk result (self.new.ready ≡ map need_of plans.now) }
        ensures err { OnErr result (self.new.ready ≡ []) }
    {
        self.kits.clear();
        let kits = kits_for(alloc, plans)?;
        let Some(sites) = sites_in(kits.as_slice()) else {
            return Err(AllocError);
        };
        take_memory(
            &mut self.text,
            &mut self.roster,
            self.count,
            sites,
            kits.len(),
        )?;
        self.kits = kits;
        Ok(())
    }

    /// Admits a plan, under the search's limit of the cost in words if there is one: the instrument gets its slots and rooms, and
    /// the placing of its sites is put into the agenda, in the order of their addresses. Returns its number. A plan that is ready
    /// isn't ready afterwards, whatever is returned; for another one memory is taken, and entries that no drop needs may be used
    /// up.
    ///
    /// # Errors
    ///
    /// Why it is refused: it costs too much, there are as many instruments as are allowed, too few slots or words of the tool text
    /// are free, or a word can't be moved; or `NoMemory`, where the plan isn't ready and memory or numbers run out. Then no
    /// placement has changed.
    pub fn admit(
        &mut self,
        alloc: Global,
        plan: &Plan,
        cost: Option<u64>,
    ) -> Result<InstrumentNo, Refused>
        requires named { (s : Site) → In s plan.now.sites → AreBelow (length plan.now.vars) s.stmts }
        requires words { table.predicted plan.now < 2 ^ 32 }
        requires slots { admission.slot_count plan.now.vars < 2 ^ 32 }
        requires armable { IsArmable plan.now.opens }
        ensures number { IfOk result (λ number. number.n ≡ self.old.placements.count) }
        ensures ok { OnOk result (placements.admission self.old.placements plan.now cost ≡ Ok self.new.placements) }
        ensures refused { IfErr result (λ refused. (refused ≡ NoMemory)
            ⊎ (placements.admission self.old.placements plan.now cost ≡ Err refused)) }
        ensures unchanged { IfErr result (λ refused. self.new.placements ≡ self.old.placements) }
        ensures memory { In (need_of plan.now) self.old.ready → result ≡ Err NoMemory → ⊥ }
        ensures ready { self.new.ready ≡ without (need_of plan.now) self.old.ready }
    {
        let kit = take_kit(&mut self.kits, plan);
        let words = predicted(plan);
        if is_over(cost, words) {
            return Err(Refused::OverCost(words));
        }
        if self.roster.instruments().len() >= self.limit as usize {
            return Err(Refused::TooMany);
        }
        let kit = kit_for(
            alloc,
            &mut self.text,
            &mut self.roster,
            self.count,
            &self.kits,
            kit,
            plan,
        );
        let Ok(kit) = kit else {
            return Err(Refused::NoMemory);
        };
        let slots = slot_count(plan.vars.as_slice());
        let Some(first) = self.roster.free_slots(slots) else {
            return Err(Refused::NoSlot(slots));
        };
        let number = InstrumentNo { n: self.count };
        // The slots are taken after the sites: where a site is refused, none are to be given back.
        let instrument = place(&mut self.text, number, first, plan, kit)?;
        self.roster.add(instrument);
        self.count += 1;
        Ok(number)
    }
}
