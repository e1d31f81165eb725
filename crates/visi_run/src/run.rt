//! Runs a session before views.

ghost use Rattle.std.specs.Prelude.{◌≡◌, ◌≤◌, true, false, length, map, IfErr, IfOk, OnOk, None};
ghost use Rattle.std.specs.List.{AllByRecursion};
ghost use Rattle.session.specs.Given.{AreGiven};
ghost use Rattle.session.specs.Sessions.{new_session, IsStartFault, state_of};
ghost use Rattle.session_spec.specs.Opening.{bad_pick};
ghost use Rattle.whole_run.specs.Rounds.{StandAt};
ghost use Rattle.whole_run.specs.Seeded.{IsSeeded};
ghost use Rattle.visi_run.specs.Feed.{feed_of, last_reading};
ghost use Rattle.visi_run.specs.Steps.{HasRun, HasPublished};
ghost use Rattle.visi_run.specs.Viewed.{IsViewed};
ghost use Rattle.visi_run.specs.Watching.{seat_lines, AreSeatsOf};

use crate::board::Board;
use crate::dial::Reading;
use crate::making::gauge;
use crate::outlet::Outlet;
use crate::publisher::{gather, streams};
use crate::seats::{follow_all, pair, part};
use crate::text::{count_first, visi_text};
use crate::view::Seat;
use outside::Gate;
use pn_types::{MAX_HARTS, MAX_QUANTUM, NoMemory};
use session::{Inputs, Session, StartFault};
use session_spec::LatestSample;
use std::alloc::Global;
use std::sync::Wait;
use std::thread;
use std::thread::Threads;
use whole_run::{Progress, Rounds};

/// The number of items for which the channel of a view has room.
const ROOM: u32 = 64;

/// In which order harts take quanta, and how many view the run.
#[derive(Clone, Copy, PartialEq, Eq, Drop)]
pub struct ViewedCourse {
    /// The seed of the order.
    pub seed: u32,
    /// The turns of a quantum, at most.
    pub turns: u32,
    /// The views, from 1 to 8.
    pub views: u32,
}

/// Lets a session take the quanta of the seed that are left, passes the gate before each, and tells the views of each.
///
/// # Errors
///
/// `NoMemory` where memory runs out.
fn take_all<R: Wait, G: Gate + Progress>(
    rt: &R,
    board: &Board,
    mut rounds: Rounds,
    session: &mut Session,
    outlet: &mut Outlet,
    gate: &G,
) -> Result<(), NoMemory>
    requires at { StandAt rounds session.old }
    requires cell { outlet.old.writer.cell ≡ board.now.gauge.cell }
    requires told { HasPublished outlet.old (state_of session.old) false }
    ensures inputs { session.new.inputs ≡ session.old.inputs }
    ensures going { session.new.closed ≡ false }
    ensures seeded { OnOk result (IsSeeded session.old.inputs rounds.seed rounds.turns session.new.quanta) }
    ensures told { OnOk result (HasPublished outlet.new (state_of session.new) false) }
    ensures same { (outlet.new.publisher.lines ≡ outlet.old.publisher.lines) × (outlet.new.writer.cell ≡ outlet.old.writer.cell) }
{
    'quanta: for _ in rt.forever() {
        gate.pass(0, session.quanta().len() as u64);
        let Some(_) = rounds.next(session)? else {
            return Ok(());
        };
        outlet.tell(rt, board, session, false)?;
        gate.see(session);
    }
    unreachable!()
}

/// Runs a session to its end in rounds, and tells the views of each step.
///
/// # Errors
///
/// `NoMemory` where memory runs out.
fn run<R: Wait, G: Gate + Progress>(
    rt: &R,
    board: &Board,
    rounds: Rounds,
    mut session: Session,
    mut outlet: Outlet,
    gate: &G,
) -> Result<(Session, Outlet), NoMemory>
    requires at { StandAt rounds session }
    requires cell { outlet.writer.cell ≡ board.now.gauge.cell }
    requires told { HasPublished outlet (state_of session) false }
    ensures { IfOk result (λ r. HasRun session.inputs rounds.seed rounds.turns outlet r.0 r.1) }
{
    take_all(rt, board, rounds, &mut session, &mut outlet, gate)?;
    session.close();
    outlet.tell(rt, board, &session, true)?;
    Ok((session, outlet))
}

/// What remains of a run before views.
#[derive(Drop)]
struct Streamed {
    /// The session, which is closed.
    session: Session,
    /// What each view was given.
    lists: Vec<Vec<LatestSample>>,
    /// The last reading of the gauge.
    last: Reading,
}

/// Runs a session that just began to its end before the views.
///
/// # Errors
///
/// `NoMemory` where memory runs out, also for one view alone.
fn stream<R: Threads + Wait + Sync, G: Gate + Progress + Sync>(
    rt: &R,
    alloc: Global,
    course: ViewedCourse,
    session: Session,
    harts: u32,
    gate: &G,
) -> Result<Streamed, NoMemory>
    requires begun { session ≡ new_session session.inputs }
    requires harts { harts ≡ session.inputs.settings.harts }
    requires few { harts ≤ MAX_HARTS }
    requires turns { (1 ≤ course.turns) × (course.turns ≤ MAX_QUANTUM) }
    requires views { (1 ≤ course.views) × (course.views ≤ 8) }
    ensures inputs { IfOk result (λ r. (r.session.inputs ≡ session.inputs) × (r.session.closed ≡ true)) }
    ensures seeded { IfOk result (λ r. IsSeeded session.inputs course.seed course.turns r.session.quanta) }
    ensures count { IfOk result (λ r. length r.lists.items ≡ course.views) }
    ensures feed { IfOk result
        (λ r. AllByRecursion (λ xs. xs ≡ feed_of session.inputs r.session.quanta) (map (λ v. v.items) r.lists.items)) }
    ensures last { IfOk result (λ r. r.last ≡ last_reading session.inputs r.session.quanta) }
{
    let (publisher, views) = streams(alloc, course.views, ROOM)?;
    let (gauge, writer, readers) = gauge(alloc, course.views)?;
    let (board, parkers) = Board::new(alloc, gauge, course.views)?;
    let seats = pair(alloc, views, readers, parkers)?;
    let rounds = Rounds::begin(alloc, &session, harts, course.seed, course.turns)?;
    let outlet = Outlet::new(publisher, writer, &session);
    // The run is on this thread: where no other can be made, the views follow when it has ended.
    let (seats, ran) = thread::join(
        rt,
        || -> Result<Vec<Seat>, NoMemory>
            requires { AreSeatsOf board.gauge.cell seats.items }
            ensures { IfOk result (λ v. (seat_lines v.items ≡ seat_lines seats.items) × AreSeatsOf board.gauge.cell v.items) }
        { follow_all(rt, alloc, &board, seats, gate) },
        || -> Result<(Session, Outlet), NoMemory>
            requires { StandAt rounds session × (outlet.writer.cell ≡ board.gauge.cell) × HasPublished outlet (state_of session) false }
            ensures { IfOk result (λ r. HasRun session.inputs rounds.seed rounds.turns outlet r.0 r.1) }
        {
            let ran = run(rt, &board, rounds, session, outlet, gate);
            // This is done even where the run failed, so that no view waits for ever.
            board.end();
            ran
        },
    );
    let (session, outlet) = ran?;
    let (views, readers) = part(alloc, seats?)?;
    let Outlet {
        publisher,
        writer,
        ..
    } = outlet;
    let last = board.gauge.close(rt, writer, readers);
    let lists = gather(rt, alloc, publisher, views)?;
    Ok(Streamed {
        session,
        lists,
        last,
    })
}

/// Runs a session that just began, and returns the text of what its views were given.
///
/// # Errors
///
/// `NoMemory` where memory runs out, also for one view alone.
fn view_on<R: Threads + Wait + Sync, G: Gate + Progress + Sync>(
    rt: &R,
    alloc: Global,
    course: ViewedCourse,
    session: Session,
    harts: u32,
    gate: &G,
) -> Result<Vec<u8>, NoMemory>
    requires begun { session ≡ new_session session.inputs }
    requires harts { harts ≡ session.inputs.settings.harts }
    requires few { harts ≤ MAX_HARTS }
    requires turns { (1 ≤ course.turns) × (course.turns ≤ MAX_QUANTUM) }
    requires views { (1 ≤ course.views) × (course.views ≤ 8) }
    ensures { IfOk result (λ text. IsViewed session.inputs course text.items) }
{
    let streamed = stream(rt, alloc, course, session, harts, gate)?;
    streamed.session.laws();
    let parts = streamed.session.parts()?;
    if streamed.last.published != count_first(&streamed.lists) as u64 {
        // The gauge has counted what each view was given.
        unreachable!();
    }
    visi_text(alloc, parts.shown.as_slice(), &streamed.lists)
}

/// Runs a program with its instruments, with quanta in the order of a seed as [`record_run`](whole_run::record_run) does, while
/// view threads follow it, each of which is given all samples of what was wished. Returns the text of what each was given.
///
/// The run passes the gate as worker 0 before its quantum number n, and view number v as worker v + 1 after its item number n, both
/// from 0.
///
/// # Errors
///
/// `NoMemory` where memory runs out, also for one view alone; `BadPick` with the first wish at tick 0 that is refused, if one is.
pub fn view_run<R: Threads + Wait + Sync, G: Gate + Progress + Sync>(
    rt: &R,
    alloc: Global,
    inputs: Inputs,
    course: &ViewedCourse,
    gate: &G,
) -> Result<Vec<u8>, StartFault>
    requires given { AreGiven inputs }
    requires turns { (1 ≤ course.now.turns) × (course.now.turns ≤ MAX_QUANTUM) }
    requires views { (1 ≤ course.now.views) × (course.now.views ≤ 8) }
    ensures viewed { IfOk result (λ text. IsViewed inputs course.now text.items) }
    ensures picked { IfOk result (λ text. bad_pick inputs ≡ None) }
    ensures refused { IfErr result (IsStartFault inputs) }
{
    let harts = inputs.settings.harts;
    let session = Session::begin(alloc, inputs)?;
    match view_on(rt, alloc, *course, session, harts, gate) {
        Ok(text) => Ok(text),
        Err(_) => Err(StartFault::NoMemory),
    }
}
