//! What holds of the placer beside the machine.

ghost use Rattle.instrument.specs.ComesAndGoes.{ComesAndGoes};
ghost use Rattle.instrument.specs.Laws.{Always, IsApart, AreLegalActs, IsPlacedWhenLinked, StaysInForce};
ghost use Rattle.instrument.specs.Numbers.{AdmissionsTell, StatesStay};

/// Take any image whose text is of words of 32 bits that never name x31, and any list of acts: turns and samples, plans that are
/// admitted or refused, instruments that are armed and dropped, entries that are handed out and done, Frees that are put
/// back or swept. Each event that is done may happen when it comes, and the machine is what the events make of it.
pub fn acts_are_legal()
    ensures { Always AreLegalActs }
{}

/// After any list of acts no two rooms of blocks that weren't given back share a word, and no two instruments that aren't gone
/// share a slot.
pub fn rooms_and_slots_apart()
    ensures { Always IsApart }
{}

/// Where the machine can arm an instrument that is being placed, no entry of its placing is left in the agenda.
pub fn linked_is_placed()
    ensures { Always IsPlacedWhenLinked }
{}

/// An instrument that is armed and wasn't dropped is linked, its mini blocks have the code of its plan, and it was in force all
/// the time since it was armed.
pub fn armed_stays_in_force()
    ensures { Always StaysInForce }
{}

/// An instrument that is gone stays gone, and one that wasn't dropped is placing or armed until it is, whatever is called.
pub fn states_stay()
    ensures { StatesStay }
{}

/// An admission makes an instrument of the next number, which is being placed, and whose cost is within the limit.
pub fn admissions_tell()
    ensures { AdmissionsTell }
{}

/// Two instruments at one point come and go, and a third comes after them: the rooms and the agenda.
pub fn comes_and_goes()
    ensures { ComesAndGoes }
{}
