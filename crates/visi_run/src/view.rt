//! One view's thread.

ghost use Rattle.std.specs.Prelude.{◌≡◌, IfOk};
ghost use Rattle.visi_run.specs.Watching.{IsSameSeat};

use crate::board::Board;
use crate::dial::GaugeReader;
use crate::publisher::View;
use crossbeam_utils::sync::Parker;
use outside::Gate;
use pn_types::NoMemory;
use std::sync::Wait;

/// A view's end of the stream, and its end of the gauge.
#[derive(Drop)]
pub struct Seat {
    /// The view's number, from 0.
    pub number: u32,
    /// The end of its channel.
    pub view: View,
    /// Its right to read the gauge.
    pub reader: GaugeReader,
    /// What it sleeps by.
    pub parker: Parker,
}

/// Takes items until the run has ended and the channel is empty, and sleeps while there are none. It passes the gate after each
/// item.
///
/// # Errors
///
/// `NoMemory` where memory runs out.
pub fn follow<R: Wait, G: Gate>(
    rt: &R,
    board: &Board,
    mut seat: Seat,
    gate: &G,
) -> Result<Seat, NoMemory>
    requires { seat.reader.cell ≡ board.now.gauge.cell }
    ensures { IfOk result (λ s. IsSameSeat seat s) }
{
    let worker = seat.number.saturating_add(1);
    let mut items = 0u64;
    let mut ended = false;
    'follow: for _ in rt.forever() {
        if seat.view.take(rt)?.is_some() {
            gate.pass(worker, items);
            items = items.saturating_add(1);
            continue;
        }
        // After the end nothing is moved into the channel: what still waits is given to the view when all views have left.
        if ended {
            break;
        }
        ended = board.gauge.read(rt, &mut seat.reader).ended || board.is_over();
        if !ended {
            // The run wakes its views after each step. Where that was between the take and here, this returns at once.
            seat.parker.park(rt);
        }
    }
    Ok(seat)
}
