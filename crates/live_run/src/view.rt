//! Receipts, and what a seat of the word knows.

use pn_types::Quantum;
use std::collections::LinkedList;

/// A quantum that a worker took: an entry of the session's list, and its number there, from 0.
#[derive(Clone, Copy, PartialEq, Eq, Drop)]
pub struct Receipt {
    /// The place of the entry, below [`MAX_QUANTA`](pn_types::MAX_QUANTA).
    pub number: u64,
    /// The entry.
    pub quantum: Quantum,
}

// The following types are what a seat of the word knows. No value of them is made.

/// The receipts of a worker.
pub struct OwnList {
    pub worker: u64,
    pub receipts: LinkedList<Receipt>,
}

/// That a hart was halted once the book had a number of entries.
pub struct Note {
    pub hart: u64,
    pub at: u64,
}

/// The entries made since the session was shared, and how many workers' seats were split off.
pub struct Book {
    pub from: u64,
    pub entries: LinkedList<Quantum>,
    pub seats: u64,
}

/// What a seat has: the book, if it is the seat that has it, and lists and notes.
pub struct View {
    pub book: Option<Book>,
    pub lists: LinkedList<OwnList>,
    pub notes: LinkedList<Note>,
}
