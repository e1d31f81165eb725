//! The seats of all views.

ghost use Rattle.std.specs.Prelude.{◌≡◌, Ok, length, map, IfOk};
ghost use Rattle.atomic_table.specs.Seated.{TableId};
ghost use Rattle.visi_run.specs.Streams.{watch_lines};
ghost use Rattle.visi_run.specs.Gauges.{AreOf};
ghost use Rattle.visi_run.specs.Watching.{IsSameSeat, seat_lines, AreSeatsOf};

use crate::board::Board;
use crate::dial::GaugeReader;
use crate::publisher::View;
use crate::view::{Seat, follow};
use crossbeam_utils::sync::Parker;
use outside::Gate;
use pn_types::NoMemory;
use std::alloc::Global;
use std::sync::Wait;
use std::thread;
use std::thread::Threads;

/// Lets each view follow the run, in a thread of its own where one can be made.
///
/// # Errors
///
/// `NoMemory` where memory runs out, also for one view alone.
pub fn follow_all<R: Threads + Wait + Sync, G: Gate + Sync>(
    rt: &R,
    alloc: Global,
    board: &Board,
    seats: Vec<Seat>,
    gate: &G,
) -> Result<Vec<Seat>, NoMemory>
    requires { AreSeatsOf board.now.gauge.cell seats.items }
    ensures lines { IfOk result (λ v. seat_lines v.items ≡ seat_lines seats.items) }
    ensures cell { IfOk result (λ v. AreSeatsOf board.now.gauge.cell v.items) }
{
    let results = thread::map_vec(
        rt,
        seats,
        &|seat: Seat| -> Result<Seat, NoMemory>
            requires { seat.reader.cell ≡ board.now.gauge.cell }
            ensures { IfOk result (λ s. IsSameSeat seat s) }
        { follow(rt, board, seat, gate) },
    )?;
    let seats = all_seats(alloc, results)?;
    Ok(seats)
}

/// Returns all seats, if no view ran out of memory.
fn all_seats(alloc: Global, results: Vec<Result<Seat, NoMemory>>) -> Result<Vec<Seat>, NoMemory>
    ensures { IfOk result (λ seats. results.items ≡ map (λ seat. Ok seat) seats.items) }
{
    let mut seats = Vec::with_capacity(alloc, results.len())?;
    for answer in results {
        match answer {
            Ok(seat) => seats.push_reserved(seat),
            Err(error) => return Err(error),
        }
    }
    Ok(seats)
}

/// Gives each view a reader of the gauge and what it sleeps by.
///
/// # Errors
///
/// `NoMemory` where memory runs out.
pub fn pair(
    alloc: Global,
    views: Vec<View>,
    mut readers: Vec<GaugeReader>,
    mut parkers: Vec<Parker>,
) -> Result<Vec<Seat>, NoMemory>
    requires readers { length views.items ≡ length readers.items }
    requires parkers { length views.items ≡ length parkers.items }
    ensures lines { IfOk result (λ v. seat_lines v.items ≡ watch_lines views.items) }
    ensures cell { IfOk result (λ v. (cell : TableId) → AreOf cell readers.items → AreSeatsOf cell v.items) }
{
    let mut seats = Vec::with_capacity(alloc, views.len())?;
    let mut number = 0u32;
    for view in views {
        let Some(reader) = readers.pop() else {
            unreachable!();
        };
        let Some(parker) = parkers.pop() else {
            unreachable!();
        };
        seats.push_reserved(Seat {
            number,
            view,
            reader,
            parker,
        });
        number = number.saturating_add(1);
    }
    Ok(seats)
}

/// Takes seats apart into the views and the readers.
///
/// # Errors
///
/// `NoMemory` where memory runs out.
pub fn part(alloc: Global, seats: Vec<Seat>) -> Result<(Vec<View>, Vec<GaugeReader>), NoMemory>
    ensures lines { IfOk result (λ r. watch_lines r.0.items ≡ seat_lines seats.items) }
    ensures count { IfOk result (λ r. length r.1.items ≡ length seats.items) }
    ensures cell { IfOk result (λ r. (cell : TableId) → AreSeatsOf cell seats.items → AreOf cell r.1.items) }
{
    let mut views = Vec::with_capacity(alloc, seats.len())?;
    let mut readers = Vec::with_capacity(alloc, seats.len())?;
    for seat in seats {
        let Seat { view, reader, .. } = seat;
        views.push_reserved(view);
        readers.push_reserved(reader);
    }
    Ok((views, readers))
}
