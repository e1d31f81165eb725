//! Runs a session by a team of workers.

ghost use Rattle.std.specs.Prelude.{false, ◌≡◌, ◌<◌, ◌≤◌, ◌++◌, length, map, IfOk};
ghost use Rattle.session_spec.specs.Work.{IsWhole};
ghost use Rattle.session.specs.Sessions.{new_session};
ghost use Rattle.live_run.specs.Receipts.{entries_past};
ghost use Rattle.live_run.specs.Seats.{fresh_seat, fresh_seats};
ghost use Rattle.live_run.specs.ByWorkers.{IsByWorkers};
ghost use Rattle.live_run.specs.Serving.{AreServed, HasServed};

use crate::name::RunName;
use crate::seat::Seat;
use crate::shared::Shared;
use crate::team::Team;
use crate::word::Word;
use crate::worker::serve;
use outside::Gate;
use pn_types::{MAX_QUANTUM, MAX_WORKERS, NoMemory};
use session::Session;
use std::alloc::Global;
use std::marker::Brand;
use std::sync::Wait;
use std::thread;
use std::thread::Threads;
use whole_run::Progress;

/// Lets a team of workers share a session that just began, each in a thread, or one after another where no thread can be made.
/// Returns the session after all its quanta, which isn't closed.
///
/// # Errors
///
/// `NoMemory` where memory runs out, also for one worker alone.
pub fn run_live<R: Threads + Wait + Sync, G: Gate + Progress + Sync>(
    rt: &R,
    alloc: Global,
    session: Session,
    team: Team,
    gate: &G,
) -> Result<Session, NoMemory>
    requires begun { session ≡ new_session session.inputs }
    requires workers { (1 ≤ team.workers) × (team.workers ≤ MAX_WORKERS) }
    requires harts { team.harts ≡ session.inputs.settings.harts }
    requires turns { (1 ≤ team.turns) × (team.turns ≤ MAX_QUANTUM) }
    ensures inputs { IfOk result (λ after. after.inputs ≡ session.inputs) }
    ensures closed { IfOk result (λ after. after.closed ≡ false) }
    ensures whole { IfOk result (λ after. IsWhole session.inputs after.quanta) }
    ensures by_workers { IfOk result (λ after. IsByWorkers team.workers team.turns after.quanta) }
{
    let word = Word::new(alloc, &session)?;
    run_named::<Brand, R, G>(rt, alloc, word, session, team, gate)
}

/// Does the same for a run that has a name. Its session may have quanta already.
///
/// # Errors
///
/// `NoMemory` where memory runs out, also for one worker alone.
fn run_named<I: RunName + Send + Sync, R: Threads + Wait + Sync, G: Gate + Progress + Sync>(
    rt: &R,
    alloc: Global,
    word: Word,
    session: Session,
    team: Team,
    gate: &G,
) -> Result<Session, NoMemory>
    requires word { (word.table.shared.table_id ≡ I.word) × (word.table.shared.key ≡ session) }
    requires session { (session.closed ≡ false) × (session.inputs ≡ I.inputs) × (session.quanta ≡ I.first) }
    requires workers { (1 ≤ team.workers) × (team.workers ≤ MAX_WORKERS) × (team.workers ≡ I.workers) }
    requires harts { team.harts ≡ session.inputs.settings.harts }
    requires turns { (1 ≤ team.turns) × (team.turns ≤ MAX_QUANTUM) }
    ensures inputs { IfOk result (λ after. after.inputs ≡ I.inputs) }
    ensures closed { IfOk result (λ after. after.closed ≡ false) }
    ensures first { IfOk result (λ after. after.quanta ≡ I.first ++ entries_past I.first after.quanta) }
    ensures whole { IfOk result (λ after. IsWhole I.inputs after.quanta) }
    ensures by_workers { IfOk result (λ after. IsByWorkers team.workers team.turns (entries_past I.first after.quanta)) }
{
    let (shared, seats) = Shared::<I>::new(alloc, word, session, team.workers)?;
    let seats = serve_all(rt, alloc, &shared, team, gate, seats)?;
    let (session, _) = shared.finish(seats);
    session.laws();
    Ok(session)
}

/// Does the work of all workers, and returns their seats.
///
/// # Errors
///
/// `NoMemory` where memory runs out, also for one worker alone.
fn serve_all<I: RunName + Send + Sync, R: Threads + Wait + Sync, G: Gate + Progress + Sync>(
    rt: &R,
    alloc: Global,
    shared: &Shared<I>,
    team: Team,
    gate: &G,
    seats: Vec<Seat<I>>,
) -> Result<Vec<Seat<I>>, NoMemory>
    requires workers { 0 < team.workers }
    requires harts { team.harts ≡ I.inputs.settings.harts }
    requires turns { (1 ≤ team.turns) × (team.turns ≤ MAX_QUANTUM) }
    requires seats { seats.items ≡ fresh_seats team.workers }
    ensures len { IfOk result (λ served. length served.items ≡ team.workers) }
    ensures served { IfOk result (λ served. AreServed team.harts team.workers team.turns 0 served.items) }
{
    let results = thread::map_vec(
        rt,
        seats,
        &|seat: Seat<I>| -> Result<Seat<I>, NoMemory>
            requires { (0 < team.workers) × (team.harts ≡ I.inputs.settings.harts)
                × ((1 ≤ team.turns) × (team.turns ≤ MAX_QUANTUM)) × (seat ≡ fresh_seat seat.worker) }
            ensures { IfOk result (λ served. HasServed team.harts team.workers team.turns seat.worker served) }
        { serve(rt, alloc, shared, team, gate, seat) },
    )?;
    all_seats(alloc, results)
}

/// Returns all seats, if no worker ran out of memory.
///
/// # Errors
///
/// `NoMemory` where memory runs out, or did for a worker.
fn all_seats<I: RunName>(
    alloc: Global,
    results: Vec<Result<Seat<I>, NoMemory>>,
) -> Result<Vec<Seat<I>>, NoMemory>
    ensures { IfOk result (λ seats. results.items ≡ map (λ seat. Ok seat) seats.items) }
{
    let mut seats = Vec::with_capacity(alloc, results.len())?;
    for answer in results {
        match answer {
            Ok(seat) => seats.push_reserved(seat),
            Err(error) => return Err(error),
        }
    }
    Ok(seats)
}
