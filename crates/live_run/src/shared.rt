//! A session that workers share.

ghost use Rattle.std.specs.Prelude.{false, ◌≡◌, ◌<◌, ◌≤◌, ◌++◌, [], ◌∷◌, length, map, Some, vec_capacity, IfOk, IfSome, IfNone, OnErr};
ghost use Rattle.live_run.specs.declared.view.Book.{Book};
ghost use Rattle.live_run.specs.Receipts.{AreBelow, entries_past};
ghost use Rattle.live_run.specs.Seats.{AreAllFoundIn, AreDealt, AreHalted, AreInOrder, fresh_seats};
ghost use Rattle.live_run.specs.Views.{keeping, a_book};
ghost use Rattle.live_run.specs.Locked.{IsGathered, IsSettled};

use crate::kinds::{EntryTable, Hires, Meets, TableSeat};
use crate::lock::LockedSession;
use crate::name::RunName;
use crate::seat::Seat;
use crate::view::Receipt;
use crate::word::{NamedWord, Word};
use pn_types::{MAX_QUANTA, MAX_QUANTUM, MAX_WORKERS, NoMemory};
use session::Session;
use std::alloc::Global;
use std::marker::PhantomData;
use std::sync::{Mutex, Wait};
use whole_run::Progress;

/// A session that workers share: it lies behind a lock, and each hold of the lock is one quantum.
#[derive(Drop)]
pub struct Shared<I: RunName> {
    word: NamedWord<I>,
    lock: Mutex<LockedSession<I>>,
    // The memory of what `finish` returns.
    answer: Vec<Vec<Receipt>>,
    ghost empty: { answer.items ≡ [] },
    ghost room: { I.workers ≤ vec_capacity answer },
}

impl<I: RunName> Shared<I> {
    /// Shares a session among `workers` workers, at most [`MAX_WORKERS`]. Returns also a seat for each, by the workers' numbers.
    /// The word is the session's, and both are those of the run that has the name.
    ///
    /// # Errors
    ///
    /// `NoMemory` where memory runs out.
    pub fn new(
        alloc: Global,
        word: Word,
        session: Session,
        workers: u32,
    ) -> Result<(Shared<I>, Vec<Seat<I>>), NoMemory>
        requires workers { (workers ≤ MAX_WORKERS) × (workers ≡ I.workers) }
        requires word { (word.table.shared.table_id ≡ I.word) × (word.table.shared.key ≡ session) }
        requires session { (session.closed ≡ false) × (session.inputs ≡ I.inputs) × (session.quanta ≡ I.first) }
        ensures { IfOk result (λ made. made.1.items ≡ fresh_seats workers) }
    {
        let mut seats = Vec::with_capacity(alloc, workers as usize)?;
        let answer = Vec::with_capacity(alloc, workers as usize)?;
        let (word, book) = named(word);
        let book = hire_all(alloc, &word, book, workers, &mut seats);
        let lock = Mutex::new(locked(session, book));
        Ok((Shared { word, lock, answer }, seats))
    }

    /// Lets the hart take a quantum of at most `turns` turns for the seat's worker, once the lock is got, and tells of it. Returns the
    /// receipt, which is appended to the seat's others, and none where the hart can't take a quantum, which the seat then notes.
    ///
    /// # Errors
    ///
    /// `NoMemory` where memory runs out. Then nothing has changed.
    pub fn quantum<R: Wait, P: Progress>(
        &self,
        rt: &R,
        seat: &mut Seat<I>,
        hart: u32,
        turns: u32,
        progress: &P,
    ) -> Result<Option<Receipt>, NoMemory>
        requires hart { hart < I.inputs.settings.harts }
        requires turns { (1 ≤ turns) × (turns ≤ MAX_QUANTUM) }
        ensures asked { IfOk result
            (λ answer. IfSome answer (λ r. (r.quantum.worker ≡ seat.old.worker) × (r.quantum.hart ≡ hart) × (r.quantum.turns ≡ turns))) }
        ensures number { IfOk result (λ answer. IfSome answer (λ r. (r.number < MAX_QUANTA) × AreBelow r.number seat.old.receipts)) }
        ensures receipts { IfOk result
            (λ answer. IfSome answer (λ r. seat.new ≡ record seat.old { receipts = seat.old.receipts ++ r ∷ [] })) }
        ensures none { IfOk result (λ answer. IfNone answer (seat.new ≡ record seat.old { noted = seat.old.noted ++ hart ∷ [] })) }
        ensures failed { OnErr result (seat.new ≡ seat.old) }
    {
        let mut locked = self.lock.lock(rt);
        let answer = locked.quantum(&self.word, seat, hart, turns)?;
        progress.see(locked.session());
        Ok(answer)
    }

    /// Ends the sharing: takes all seats, by the workers' numbers, and returns the session and the receipts of each worker. The
    /// session's quanta are the first ones and then the workers' entries: each entry is in the receipts of its worker, with its
    /// number and in order, and they have no other. A hart that a seat noted is halted.
    pub fn finish(self, seats: Vec<Seat<I>>) -> (Session, Vec<Vec<Receipt>>)
        requires all { length seats.items ≡ I.workers }
        requires order { AreInOrder 0 seats.items }
        ensures inputs { result.0.inputs ≡ I.inputs }
        ensures closed { result.0.closed ≡ false }
        ensures first { result.0.quanta ≡ I.first ++ entries_past I.first result.0.quanta }
        ensures dealt { AreDealt (length I.first) (entries_past I.first result.0.quanta) seats.items }
        ensures found { AreAllFoundIn result.0.quanta seats.items }
        ensures receipts { map (λ v. v.items) result.1.items ≡ map (λ s. s.receipts) seats.items }
        ensures halted { AreHalted I.inputs result.0.quanta seats.items }
    {
        let Shared {
            word,
            lock,
            mut answer,
        } = self;
        let LockedSession {
            session,
            from: _,
            book,
            of: _,
        } = lock.into_inner();
        let book = gather(&word, book.into_seat(), seats, &mut answer);
        let NamedWord { table, of: _ } = word;
        settle(table, book);
        session.laws();
        (session, answer)
    }
}

/// Returns the word under its name, and the book's seat.
fn named<I: RunName>(word: Word) -> (NamedWord<I>, TableSeat)
    requires named { word.table.shared.table_id ≡ I.word }
    requires inputs { word.table.shared.key.inputs ≡ I.inputs }
    requires first { word.table.shared.key.quanta ≡ I.first }
    ensures table { result.1.table_id ≡ I.word }
    ensures book { result.1.me ≡ (keeping (a_book (length I.first) [] 0), []) }
{
    let Word { table, book } = word;
    (
        NamedWord {
            table,
            of: PhantomData,
        },
        book,
    )
}

/// Returns the session with the book's seat, as they lie behind the lock.
fn locked<I: RunName>(session: Session, book: TableSeat) -> LockedSession<I>
    requires session { (session.closed ≡ false) × (session.inputs ≡ I.inputs) × (session.quanta ≡ I.first) }
    requires book { (book.table_id ≡ I.word) × (book.me ≡ (keeping (a_book (length I.first) [] I.workers), [])) }
    ensures { result ≡ session }
{
    let from = session.quanta().len();
    LockedSession {
        session,
        from,
        book: book.into_badge(),
        of: PhantomData,
    }
}

/// Splits a seat for each worker off the book's seat, which it returns.
fn hire_all<I: RunName>(
    alloc: Global,
    word: &NamedWord<I>,
    mut book: TableSeat,
    workers: u32,
    seats: &mut Vec<Seat<I>>,
) -> TableSeat
    requires workers { workers ≤ MAX_WORKERS }
    requires book { (book.table_id ≡ I.word) × (book.me ≡ (keeping (a_book (length I.first) [] 0), [])) }
    requires seats { (seats.old.items ≡ []) × (workers ≤ vec_capacity seats.old) }
    ensures book { (result.table_id ≡ I.word) × (result.me ≡ (keeping (a_book (length I.first) [] workers), [])) }
    ensures seats { seats.new.items ≡ fresh_seats workers }
{
    for worker in 0..workers {
        let seat = word.table.shared.split_seat::<Hires>(&mut book);
        seats.push_reserved(Seat {
            worker,
            receipts: Vec::new(alloc),
            seat,
            of: PhantomData,
        });
    }
    book
}

/// Joins all seats into the book's seat, which it returns, and puts the receipts of each worker into the answer.
fn gather<I: RunName>(
    word: &NamedWord<I>,
    mut book: TableSeat,
    seats: Vec<Seat<I>>,
    answer: &mut Vec<Vec<Receipt>>,
) -> TableSeat
    requires book { (book.table_id ≡ I.word) × (b : Book) × (book.me ≡ (keeping b, [])) }
    requires answer { (answer.old.items ≡ []) × (length seats.items ≤ vec_capacity answer.old) }
    ensures table { result.table_id ≡ I.word }
    ensures book { (b : Book) → book.me ≡ (keeping b, []) → IsGathered b seats.items result.me.0 }
    ensures answer { map (λ v. v.items) answer.new.items ≡ map (λ s. s.receipts) seats.items }
{
    for seat in seats {
        let Seat {
            worker: _,
            receipts,
            seat,
            of: _,
        } = seat;
        word.table.shared.join_seat::<Meets>(&mut book, seat);
        answer.push_reserved(receipts);
    }
    book
}

/// Ends the word. Afterwards what its rule says of the seat is known.
fn settle(table: EntryTable, seat: TableSeat)
    requires table { seat.table_id ≡ table.shared.table_id }
    requires slots { table.shared.table_id.slots ≡ 0 }
    ensures { (b : Book) → seat.me.0.book ≡ Some b → IsSettled table.shared.key.inputs table.shared.key.quanta b seat.me.0 }
{
    let closed = table.close_with(seat);
    closed.free();
}
