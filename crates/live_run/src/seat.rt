//! A worker's seat.

ghost use Rattle.std.specs.Prelude.{◌≡◌};

use crate::kinds::TableSeat;
use crate::name::RunName;
use crate::view::Receipt;
use std::marker::{Model, PhantomData};

/// A worker's right to quanta of a shared session. Contracts see the worker's number, its receipts, and the harts that it noted as
/// halted.
#[derive(Drop)]
pub struct Seat<I: RunName> {
    pub(crate) worker: u32,
    pub(crate) receipts: Vec<Receipt>,
    pub(crate) seat: TableSeat,
    pub(crate) of: PhantomData<I>,
}

impl<I: RunName> Model for Seat<I> {
    ghost use Rattle.live_run.specs.Seats.{SeatData};
    ghost use Rattle.live_run.specs.Locked.{halted_harts, IsSeated};

    ghost Value = { SeatData };

    ghost view = { λ s. record { worker = s.worker; receipts = s.receipts.items; noted = halted_harts s.seat.me.0.notes } };

    ghost invariant = { λ s. IsSeated I.word s.worker s.receipts.items s.seat.table_id s.seat.me };
}

impl<I: RunName> Seat<I> {
    /// Returns the worker's number, below [`MAX_WORKERS`](pn_types::MAX_WORKERS).
    pub fn worker(&self) -> u32
        ensures { result ≡ self.now.worker }
    {
        self.worker
    }

    /// Returns the receipts of the worker, in order.
    pub fn receipts(&self) -> &[Receipt]
        ensures { result.now ≡ self.now.receipts }
    {
        &self.receipts
    }
}
