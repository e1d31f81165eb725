//! Finds an instrument by its number: the list is in the order of the numbers.

ghost use Rattle.std.specs.Prelude.{◌≡◌, ◌==◌, ◌<◌, ◌+◌, ◌++◌, IfNone, IfSome, Some, drop, filter, find, length, map, slice_get, take};
ghost use Rattle.std.specs.Option.{option_copied, option_map};
ghost use Rattle.machine.specs.Cores.{In};
ghost use Rattle.instrument.specs.Freed.{is_kept};
ghost use Rattle.instrument.specs.Listed.{AreInOrder};
ghost use Rattle.instrument.specs.Placements as placements;
ghost use Rattle.instrument.specs.declared.instrument.Instrument.{Instrument};

use crate::instrument::Instrument;
use crate::number::{InstrumentNo, State};

/// Returns the place of the instrument of a number.
fn place_of(instruments: &[Instrument], number: InstrumentNo) -> Option<usize>
    requires { AreInOrder instruments.now }
    ensures within { IfSome result (λ place. place < length instruments.now) }
    ensures some { IfSome result (λ place. option_map (λ i. i.no) (slice_get instruments.now place) ≡ Some number.n) }
    ensures none { IfNone result ((i : Instrument) → In i instruments.now → i.no ≡ number.n → ⊥) }
{
    instruments
        .binary_search_by_key(&number.n, |instrument| instrument.no)
        .ok()
}

/// Returns the instrument of a number.
pub fn find_instrument(instruments: &[Instrument], number: InstrumentNo) -> Option<&Instrument>
    requires { AreInOrder instruments.now }
    ensures { option_copied result ≡ find (λ i. i.no == number.n) instruments.now }
{
    let place = place_of(instruments, number)?;
    Some(&instruments[place])
}

/// Sets the state of the instrument of a number.
pub fn set_state(instruments: &mut [Instrument], number: InstrumentNo, state: State)
    requires { AreInOrder instruments.old }
    ensures { instruments.new ≡ map (placements.with_state number.n state) instruments.old }
{
    if let Some(place) = place_of(instruments, number) {
        instruments[place].state = state;
    }
}

/// Returns the place of the instrument of a number, if it was dropped.
pub fn place_of_dropped(instruments: &[Instrument], number: InstrumentNo) -> Option<usize>
    requires { AreInOrder instruments.now }
    ensures within { IfSome result (λ place. place < length instruments.now) }
    ensures some { IfSome result
        (λ place. take place instruments.now ++ drop (place + 1) instruments.now ≡ filter (is_kept number.n) instruments.now) }
    ensures none { IfNone result (instruments.now ≡ filter (is_kept number.n) instruments.now) }
{
    let place = place_of(instruments, number)?;
    if instruments[place].state.is_leaving() {
        Some(place)
    } else {
        None
    }
}
