//! The steps under the lock, over seats of the word.

ghost use Rattle.std.specs.Prelude.{◌≡◌, ◌<◌, ◌^◌, []};
ghost use Rattle.live_run.specs.Views.{together, with_quantum_entry, noting, without_book, book_alone};
ghost use Rattle.live_run.specs.Rule.{AreBelowBook};
ghost use Rattle.live_run.specs.Locked.{CanEnter, CanNote};

use crate::kinds::{Enters, EntryRule, Meets, NotesHart, Parts, TableSeat};
use crate::view::View;
use atomic_table::Shared;
use pn_types::Quantum;
use session::Session;

/// Enters a quantum: the worker's seat takes in the book's, the book and the worker's list gain the entry, before which there are
/// `made` entries, and the book's seat is split off again and returned.
pub fn enter(
    word: &Shared<Quantum, View, Session, EntryRule>,
    seat: &mut TableSeat,
    book: TableSeat,
    quantum: &Quantum,
    made: u64,
) -> TableSeat
    requires room { made < 2 ^ 63 }
    requires tables { (seat.old.table_id ≡ word.now.table_id) × (book.table_id ≡ word.now.table_id) × (word.now.table_id.words ≡ 1) }
    requires can { CanEnter quantum.now.worker book.me seat.old.me made }
    ensures tables { (seat.new.table_id ≡ seat.old.table_id) × (result.table_id ≡ seat.old.table_id) }
    ensures seat { seat.new.me ≡ (without_book (with_quantum_entry quantum.now (together seat.old.me.0 book.me.0)), []) }
    ensures book { result.me ≡ (book_alone (with_quantum_entry quantum.now (together seat.old.me.0 book.me.0)), []) }
    ensures below { AreBelowBook (together seat.old.me.0 book.me.0).book (together seat.old.me.0 book.me.0).lists }
{
    word.join_seat::<Meets>(seat, book);
    word.compare_exchange_with::<Enters>(seat, 0, made, made + 1, quantum);
    word.split_seat::<Parts>(seat)
}

/// Does the same, but notes the hart of what was asked for and enters nothing.
pub fn note(
    word: &Shared<Quantum, View, Session, EntryRule>,
    seat: &mut TableSeat,
    book: TableSeat,
    asked: &Quantum,
    made: u64,
) -> TableSeat
    requires tables { (seat.old.table_id ≡ word.now.table_id) × (book.table_id ≡ word.now.table_id) × (word.now.table_id.words ≡ 1) }
    requires can { CanNote word.now.key.inputs word.now.key.quanta asked.now.hart book.me seat.old.me made }
    ensures tables { (seat.new.table_id ≡ seat.old.table_id) × (result.table_id ≡ seat.old.table_id) }
    ensures seat { seat.new.me ≡ (without_book (noting asked.now (together seat.old.me.0 book.me.0)), []) }
    ensures book { result.me ≡ (book_alone (noting asked.now (together seat.old.me.0 book.me.0)), []) }
{
    word.join_seat::<Meets>(seat, book);
    word.compare_exchange_with::<NotesHart>(seat, 0, made, made, asked);
    word.split_seat::<Parts>(seat)
}
