//! Instruments: the rooms of their blocks, their slots, and the agenda of what is to be done for them in the patched machine.
#![tactic(auto)]

mod admission;
mod agenda;
mod blocks;
mod buffers;
mod costs;
mod dropping;
mod entry;
mod event;
mod finding;
mod freeing;
mod giving;
mod instrument;
mod kit;
mod kits;
mod laws;
mod leaving;
mod ledger;
mod memory;
mod number;
mod opens;
mod placer;
mod placing;
mod program;
mod room;
mod room_changes;
mod room_index;
mod room_list;
mod room_search;
mod roster;
mod site_memory;
mod site_placing;
mod slots;
mod tool_text;

pub use entry::Entry;
pub use event::Event;
pub use instrument::Instrument;
pub use laws::{
    acts_are_legal, admissions_tell, armed_stays_in_force, comes_and_goes, linked_is_placed,
    rooms_and_slots_apart, states_stay,
};
pub use number::{InstrumentNo, Refused, State};
pub use placer::Placer;
pub use room::{Hold, Room};
