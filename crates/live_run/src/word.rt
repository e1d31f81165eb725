//! The word that counts the entries of a shared session.

ghost use Rattle.std.specs.Prelude.{◌≡◌, ◌<◌, [], IfOk};
ghost use Rattle.live_run.specs.Rule.{opening_view};

use crate::kinds::{EntryTable, TableSeat};
use crate::name::RunName;
use atomic_table::Table;
use pn_types::NoMemory;
use session::Session;
use std::alloc::Global;
use std::marker::PhantomData;

/// A word that counts the entries which workers will make in a session. It has no name yet.
#[derive(Drop)]
pub struct Word {
    pub table: EntryTable,
    pub book: TableSeat,
    pub ghost one: { table.shared.table_id.words ≡ 1 },
    pub ghost none: { table.shared.table_id.slots ≡ 0 },
    pub ghost same: { book.table_id ≡ table.shared.table_id },
    pub ghost empty: { book.me ≡ (opening_view table.shared.key.quanta, []) },
}

impl Word {
    /// Makes the word of a session as it is.
    ///
    /// # Errors
    ///
    /// `NoMemory` where memory runs out.
    pub fn new(alloc: Global, session: &Session) -> Result<Word, NoMemory>
        ensures { IfOk result (λ word. word.table.shared.key ≡ session.now) }
    {
        let (table, book) = Table::of_words(alloc, &[0], session)?;
        Ok(Word { table, book })
    }
}

/// The word of the run that is named.
#[derive(Drop)]
pub struct NamedWord<I: RunName> {
    pub table: EntryTable,
    pub of: PhantomData<I>,
    pub ghost one: { table.shared.table_id.words ≡ 1 },
    pub ghost none: { table.shared.table_id.slots ≡ 0 },
    pub ghost named: { table.shared.table_id ≡ I.word },
    pub ghost inputs: { table.shared.key.inputs ≡ I.inputs },
    pub ghost first: { table.shared.key.quanta ≡ I.first },
}
