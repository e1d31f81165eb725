//! What lies behind the lock of a shared session.

ghost use Rattle.std.specs.Prelude.{◌≡◌, ◌≤◌, ◌<◌, ◌++◌, [], ◌∷◌, length, IfOk, IfSome, IfNone, OnErr};
ghost use Rattle.session_spec.specs.Work.{AreAllowed, Halted, quantum_of};
ghost use Rattle.session.specs.Sessions.{state_of};
ghost use Rattle.live_run.specs.Receipts.{AreBelow, entries_past, receipt};

use crate::name::RunName;
use crate::seat::Seat;
use crate::steps::{enter, note};
use crate::view::{Receipt, View};
use crate::word::NamedWord;
use atomic_table::Badge;
use pn_types::{MAX_QUANTA, MAX_QUANTUM, NoMemory, Quantum};
use session::Session;
use std::marker::{Model, PhantomData};
use std::mem;

/// What lies behind the lock: the session of a run that has a name. Contracts see the session.
#[derive(Drop)]
pub struct LockedSession<I: RunName> {
    pub(crate) session: Session,
    // How many quanta the session had at first.
    pub(crate) from: usize,
    // The book's seat.
    pub(crate) book: Badge<View>,
    pub(crate) of: PhantomData<I>,
}

impl<I: RunName> Model for LockedSession<I> {
    ghost use Rattle.session.specs.Sessions.{SessionData};
    ghost use Rattle.live_run.specs.Locked.{IsUnderLock};
    ghost use Rattle.session.specs.contracts.session.Session as session_type;

    ghost Value = { SessionData };

    ghost coded = { session_type.the_row.coded };

    ghost view = { λ l. l.session };

    ghost invariant = { λ l. IsUnderLock I.inputs I.first I.workers I.word l.from l.session l.book.table_id l.book.views };
}

impl<I: RunName> LockedSession<I> {
    /// Returns the session. Whenever the lock is got, it is the session of the inputs that the name names, and its quanta begin
    /// with the first ones.
    pub fn session(&self) -> &Session
        ensures same { result.now ≡ self.now }
        ensures inputs { result.now.inputs ≡ I.inputs }
        ensures first { result.now.quanta ≡ I.first ++ entries_past I.first result.now.quanta }
        ensures allowed { AreAllowed I.inputs result.now.quanta }
    {
        self.session.laws();
        &self.session
    }

    /// Lets the hart take a quantum of at most `turns` turns for the seat's worker. Returns the receipt, which is appended to the
    /// seat's others, and none exactly where the hart can't take a quantum, which the seat then notes.
    ///
    /// # Errors
    ///
    /// `NoMemory` where memory runs out. Then nothing has changed.
    pub fn quantum(
        &mut self,
        word: &NamedWord<I>,
        seat: &mut Seat<I>,
        hart: u32,
        turns: u32,
    ) -> Result<Option<Receipt>, NoMemory>
        requires hart { hart < I.inputs.settings.harts }
        requires turns { (1 ≤ turns) × (turns ≤ MAX_QUANTUM) }
        ensures inputs { self.new.inputs ≡ self.old.inputs }
        ensures taken { IfOk result (λ answer. IfSome answer (λ r. self.new.quanta ≡ self.old.quanta ++ r.quantum ∷ [])) }
        ensures asked { IfOk result
            (λ answer. IfSome answer (λ r. r.quantum ≡ quantum_of self.old.inputs seat.old.worker hart turns (state_of self.old).kept)) }
        ensures number { IfOk result (λ answer. IfSome answer (λ r. (r.number ≡ length self.old.quanta) × (r.number < MAX_QUANTA))) }
        ensures receipts { IfOk result (λ answer. IfSome answer
            (λ r. (seat.new ≡ record seat.old { receipts = seat.old.receipts ++ r ∷ [] }) × AreBelow r.number seat.old.receipts)) }
        ensures going_on { IfOk result (λ answer. IfSome answer (λ r. Halted self.old.inputs self.old.quanta hart → ⊥)) }
        ensures halted { IfOk result (λ answer. IfNone answer (Halted self.old.inputs self.old.quanta hart)) }
        ensures none { IfOk result
            (λ answer. IfNone answer ((self.new ≡ self.old) × (seat.new ≡ record seat.old { noted = seat.old.noted ++ hart ∷ [] }))) }
        ensures failed { OnErr result ((self.new ≡ self.old) × (seat.new ≡ seat.old)) }
    {
        seat.receipts.reserve(1)?;
        let number = self.session.quanta().len();
        let made = (number - self.from) as u64;
        match self.session.quantum(seat.worker, hart, turns)? {
            Some(quantum) => {
                self.session.laws();
                let book = mem::replace(&mut self.book, Badge::blank()).into_seat();
                let book = enter(&word.table.shared, &mut seat.seat, book, &quantum, made);
                self.book = book.into_badge();
                let receipt = Receipt {
                    number: number as u64,
                    quantum,
                };
                seat.receipts.push_reserved(receipt);
                Ok(Some(receipt))
            }
            None => {
                // For the proof alone: the hart fits a quantum.
                self.session.laws();
                let asked = Quantum {
                    worker: seat.worker as u8,
                    hart: hart as u8,
                    turns: turns as u16,
                    owns: 0,
                };
                let book = mem::replace(&mut self.book, Badge::blank()).into_seat();
                let book = note(&word.table.shared, &mut seat.seat, book, &asked, made);
                self.book = book.into_badge();
                Ok(None)
            }
        }
    }
}
