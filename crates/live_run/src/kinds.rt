//! The rule of the word that counts the entries, and the kinds of step that its seats take.

use crate::view::View;
use atomic_table::{Join, Play, Split, Table, TableRule};
use pn_types::Quantum;
use session::Session;
use std::alloc::Global;

/// The word, under its rule.
pub type EntryTable = Table<Quantum, View, Session, EntryRule, Global>;

/// A seat of the word.
pub type TableSeat = atomic_table::Seat<Quantum, View>;

/// What holds of the word and of what its seats know. It reads the session as it was when the word was made.
pub struct EntryRule;

impl TableRule<Quantum, View, Session> for EntryRule {
    ghost use Rattle.live_run.specs.Rule.{IsRuled, opening_view};

    ghost holds = { λ k s. IsRuled k.inputs k.quanta s };

    ghost first = { λ k. opening_view k.quanta };
}

/// Splits a worker's seat off the book's.
pub struct Hires;

impl Split<View> for Hires {
    ghost use Rattle.live_run.specs.Views.{hiring, hired};

    ghost left = { hiring };

    ghost right = { hired };
}

/// A seat takes in another.
pub struct Meets;

impl Join<View> for Meets {
    ghost use Rattle.live_run.specs.Views.{together, empty_view};

    ghost both = { together };

    ghost spent = { empty_view };
}

/// Splits the book's seat off a worker's.
pub struct Parts;

impl Split<View> for Parts {
    ghost use Rattle.live_run.specs.Views.{without_book, book_alone};

    ghost left = { without_book };

    ghost right = { book_alone };
}

/// Enters the announced quantum.
pub struct Enters;

impl Play<Quantum, View> for Enters {
    ghost use Rattle.live_run.specs.Rule.{IsEntering};

    ghost then = { IsEntering };
}

/// Notes the announced hart.
pub struct NotesHart;

impl Play<Quantum, View> for NotesHart {
    ghost use Rattle.live_run.specs.Rule.{IsNoting};

    ghost then = { IsNoting };
}
