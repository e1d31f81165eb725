//! The instruments that aren't gone, by number.

ghost use Rattle.std.specs.Prelude.{◌≡◌, ◌+◌, ◌*◌, ◌==◌, ◌<◌, ◌≤◌, ◌^◌, ◌++◌, ◌∷◌, [], IfOk, IfSome, OnErr, OnOk, None, Some, filter, find, flat_map, length, map};
ghost use Rattle.std.specs.Option.{option_copied, option_map};
ghost use Rattle.tramp_spec.specs.Slots.{places_of};
ghost use Rattle.instrument.specs.Admission.{slot_count};
ghost use Rattle.instrument.specs.Armable.{IsArmable};
ghost use Rattle.instrument.specs.Fits.{slots_for};
ghost use Rattle.instrument.specs.Freed.{is_kept};
ghost use Rattle.instrument.specs.Listed.{AreNumberedBelow};
ghost use Rattle.instrument.specs.Placements as placements;
ghost use Rattle.instrument.specs.Rosters as rosters;
ghost use Rattle.instrument.specs.Spaces.{IsRow, slots_of};

use crate::costs::{self, takes_for};
use crate::finding::{find_instrument, place_of_dropped, set_state};
use crate::instrument::Instrument;
use crate::number::{InstrumentNo, State};
use crate::slots::give_slots;
use pn_types::{BANK_LEN, FIRST_SLOT, NoMemory, Placed};
use std::alloc::{AllocError, Global};
use std::marker::Model;
use tool_space::Space;

/// The instruments that aren't gone, and the slots beside theirs.
pub struct Roster {
    // In the order of their numbers.
    instruments: Vec<Instrument>,
    // Which slots are free.
    slots: Space,
    // How many more instruments need no memory.
    room: usize,
}

impl Model for Roster {
    ghost use Rattle.std.specs.Prelude.{vec_capacity, vec_len};
    ghost use Rattle.instrument.specs.Rosters.{RosterData};

    ghost Value = { RosterData };

    ghost use Rattle.instrument.specs.Spaces.{IsRoster};

    ghost view = { λ r. record { instruments = r.instruments.items; room = r.room; takes = r.slots.takes } };

    ghost invariant = { λ r. IsRoster r.slots r.instruments.items (vec_len r.instruments) (vec_capacity r.instruments) r.room };
}

// Its drop is a function of its own, so that callers need not prove the drops of all its parts.
impl Drop for Roster {
    fn drop(self) {
        let Roster {
            instruments: _,
            slots: _,
            room: _,
        } = self;
    }
}

impl Roster {
    /// Makes a roster with no instruments, on which all slots are free.
    ///
    /// # Errors
    ///
    /// `NoMemory` where memory runs out.
    pub fn new(alloc: Global) -> Result<Roster, NoMemory>
        ensures { IfOk result (λ roster. roster ≡ rosters.no_roster) }
    {
        Ok(Roster {
            instruments: Vec::new(alloc),
            slots: Space::new(alloc, u64::from(FIRST_SLOT), BANK_LEN - FIRST_SLOT)?,
            room: 0,
        })
    }

    /// Returns the instruments, in the order of their admission.
    pub fn instruments(&self) -> &[Instrument]
        ensures { result.now ≡ self.now.instruments }
    {
        &self.instruments
    }

    /// Returns the state of an instrument. One that isn't listed is gone.
    pub fn state(&self, number: InstrumentNo) -> State
        ensures { result ≡ placements.state_in (find (λ i. i.no == number.n) self.now.instruments) }
    {
        match find_instrument(&self.instruments, number) {
            None => State::Gone,
            Some(instrument) => instrument.state,
        }
    }

    /// Returns where an instrument that isn't gone acts.
    pub fn placed(&self, number: InstrumentNo) -> Option<&Placed>
        ensures placed { option_copied result ≡ option_map (λ i. i.placed) (find (λ i. i.no == number.n) self.now.instruments) }
        ensures armable { IfSome result (λ placed. IsArmable placed.now.opens) }
    {
        match find_instrument(&self.instruments, number) {
            None => None,
            Some(instrument) => Some(&instrument.placed),
        }
    }

    /// Sets the state of the instrument of a number.
    pub fn set_state(&mut self, number: InstrumentNo, state: State)
        ensures { self.new ≡ record self.old { instruments = map (placements.with_state number.n state) self.old.instruments } }
    {
        set_state(&mut self.instruments, number, state);
    }

    /// Removes an instrument that was dropped, and gives its slots back. One that wasn't dropped stays.
    pub fn let_go(&mut self, number: InstrumentNo)
        ensures { self.new ≡ record self.old { instruments = filter (is_kept number.n) self.old.instruments } }
    {
        if let Some(place) = place_of_dropped(&self.instruments, number) {
            give_slots(&mut self.slots, &self.instruments[place].placed);
            self.instruments.remove(place);
        }
    }

    /// Reserves memory for `count` more instruments and the taking of their slots.
    ///
    /// # Errors
    ///
    /// `NoMemory` where memory runs out.
    pub fn reserve(&mut self, count: usize) -> Result<(), NoMemory>
        ensures instruments { self.new.instruments ≡ self.old.instruments }
        ensures room { OnOk result (count ≤ self.new.room) }
        ensures takes { OnOk result (2 * count ≤ self.new.takes) }
        ensures room_kept { self.old.room ≤ self.new.room }
        ensures takes_kept { self.old.takes ≤ self.new.takes }
    {
        let Some(takes) = takes_for(count) else {
            return Err(AllocError);
        };
        let room = self.room.max(count);
        self.instruments.reserve(room)?;
        self.room = room;
        self.slots.reserve(takes)
    }

    /// Returns the first of the lowest `count` consecutive free slots: None exactly where there are none. They stay free.
    pub fn free_slots(&mut self, count: u32) -> Option<u32>
        requires { 0 < self.old.takes }
        ensures slot { result ≡ slots_for (flat_map (λ i. places_of i.placed) self.old.instruments) count }
        ensures within { IfSome result (λ slot. slot + count < 2 ^ 32) }
        ensures instruments { self.new.instruments ≡ self.old.instruments }
        ensures room { self.new.room ≡ self.old.room }
        ensures takes { self.old.takes ≤ self.new.takes + 1 }
    {
        if count == 0 {
            return Some(FIRST_SLOT);
        }
        let slot = self.slots.take(count)?;
        self.slots.give(slot, count);
        Some(slot as u32)
    }

    /// Appends an instrument, which has a number above the others' and the lowest free slots.
    pub fn add(&mut self, instrument: Instrument)
        requires room { 0 < self.old.room }
        requires takes { 0 < self.old.takes }
        requires few { slot_count instrument.placed.vars < 2 ^ 32 }
        requires row { IsRow instrument }
        requires armable { IsArmable instrument.placed.opens }
        requires number { AreNumberedBelow instrument.no self.old.instruments }
        requires free { slots_for (flat_map (λ i. places_of i.placed) self.old.instruments) (slot_count instrument.placed.vars)
            ≡ Some (slots_of instrument).at }
        ensures instruments { self.new.instruments ≡ self.old.instruments ++ instrument ∷ [] }
        ensures room { self.old.room ≡ self.new.room + 1 }
        ensures takes { self.old.takes ≤ self.new.takes + 1 }
    {
        let count = costs::slot_count(instrument.placed.vars.as_slice());
        if count > 0 {
            self.slots.take(count);
        }
        self.instruments.push_reserved(instrument);
        self.room -= 1;
    }
}
