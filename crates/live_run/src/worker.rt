//! The work of one worker.

ghost use Rattle.std.specs.Prelude.{◌≡◌, ◌<◌, ◌≤◌, IfOk};
ghost use Rattle.live_run.specs.Seats.{fresh_seat};
ghost use Rattle.live_run.specs.Serving.{AreHartsBelow, HasServed};

use crate::name::RunName;
use crate::seat::Seat;
use crate::shared::Shared;
use crate::team::Team;
use outside::Gate;
use pn_types::{MAX_QUANTUM, NoMemory};
use std::alloc::Global;
use std::collections::VecDeque;
use std::sync::Wait;
use whole_run::Progress;

/// Does the work of one worker: it takes quanta of its harts in turn, passes the gate before each, and leaves a hart that is
/// halted. Returns its seat when it has left them all.
///
/// # Errors
///
/// `NoMemory` where memory runs out.
pub fn serve<I: RunName, R: Wait, G: Gate + Progress>(
    rt: &R,
    alloc: Global,
    shared: &Shared<I>,
    team: Team,
    gate: &G,
    mut seat: Seat<I>,
) -> Result<Seat<I>, NoMemory>
    requires workers { 0 < team.workers }
    requires harts { team.harts ≡ I.inputs.settings.harts }
    requires turns { (1 ≤ team.turns) × (team.turns ≤ MAX_QUANTUM) }
    requires fresh { seat ≡ fresh_seat seat.worker }
    ensures { IfOk result (λ served. HasServed team.harts team.workers team.turns seat.worker served) }
{
    let worker = seat.worker();
    let mut waits = harts_of(alloc, team, worker)?;
    let mut calls = 0u64;
    'serve: for _ in rt.forever() {
        let Some(hart) = waits.pop_front() else {
            break;
        };
        gate.pass(worker, calls);
        calls = calls.wrapping_add(1);
        match shared.quantum(rt, &mut seat, hart, team.turns, gate)? {
            Some(_) => waits.push_back(hart)?,
            None => {}
        }
    }
    Ok(seat)
}

/// Returns the harts of the worker, by number.
///
/// # Errors
///
/// `NoMemory` where memory runs out.
fn harts_of(alloc: Global, team: Team, worker: u32) -> Result<VecDeque<u32>, NoMemory>
    requires { 0 < team.workers }
    ensures { IfOk result (λ harts. AreHartsBelow team.harts team.workers worker harts.items) }
{
    let mut own = VecDeque::new(alloc);
    for hart in 0..team.harts {
        if hart % team.workers == worker {
            own.push_back(hart)?;
        }
    }
    Ok(own)
}
