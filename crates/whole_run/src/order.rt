//! Lets harts take quanta in the order of a seed.

ghost use Rattle.std.specs.Prelude.{◌≡◌, ◌<◌, ◌≤◌, ◌==◌, ◌||◌, ◌++◌, ◌∷◌, [], false, length, IfNone, IfOk, IfSome, OnOk};
ghost use Rattle.machine.specs.Turns.{is_runnable};
ghost use Rattle.session.specs.Sessions.{new_session};
ghost use Rattle.session_spec.specs.Work.{after_quanta};
ghost use Rattle.turn_order.specs.Orders.{ready_of};
ghost use Rattle.whole_run.specs.Rounds.{StandAt};
ghost use Rattle.whole_run.specs.Seeded.{IsSeeded};

use crate::progress::Progress;
use pn_types::{HartNo, MAX_HARTS, MAX_QUANTA, MAX_QUANTUM, NoMemory, Quantum};
use session::Session;
use std::alloc::Global;
use turn_order::{Order, Ready};

/// Fills in the harts that can take a quantum, by number: none where there are as many quanta as there may be.
///
/// # Errors
///
/// `NoMemory` where memory runs out.
fn fill(session: &Session, harts: u32, ready: &mut Ready) -> Result<(), NoMemory>
    requires harts { harts ≡ session.now.inputs.settings.harts }
    requires few { harts ≤ MAX_HARTS }
    requires going { session.now.closed ≡ false }
    ensures { length session.now.quanta < MAX_QUANTA
        → OnOk result (ready.new ≡ ready_of (is_runnable (after_quanta session.now.inputs session.now.quanta).kept.machine.core) harts) }
{
    ready.clear();
    for number in 0..harts {
        if session.runnable(number) {
            ready.push(HartNo::numbered(number))?;
        }
    }
    Ok(())
}

/// Does the same after a quantum of a hart, from the list before it: where no work was done, no other hart can have stopped.
///
/// # Errors
///
/// `NoMemory` where memory runs out.
#[inline(always)]
fn refresh(session: &Session, harts: u32, hart: HartNo, ready: &mut Ready) -> Result<(), NoMemory>
    requires harts { harts ≡ session.now.inputs.settings.harts }
    requires few { harts ≤ MAX_HARTS }
    requires hart { hart < harts }
    requires going { session.now.closed ≡ false }
    requires others { let kept = (after_quanta session.now.inputs session.now.quanta).kept in kept.worked ≡ false
        → ready.old ≡ ready_of (λ h. (h == hart) || is_runnable kept.machine.core h) harts }
    ensures { length session.now.quanta < MAX_QUANTA
        → OnOk result (ready.new ≡ ready_of (is_runnable (after_quanta session.now.inputs session.now.quanta).kept.machine.core) harts) }
{
    if session.worked() {
        return fill(session, harts, ready);
    }
    if !session.runnable(hart.get()) {
        ready.remove(hart);
    }
    Ok(())
}

/// The harts of a session as they take quanta in the order of a seed, with a limit of the turns of each.
#[derive(Drop)]
pub struct Rounds {
    seed: u32,
    turns: u32,
    harts: u32,
    order: Order,
    // The harts that can take the next quantum.
    ready: Ready,
}

impl Rounds {
    /// Makes the rounds of a session that just began.
    ///
    /// # Errors
    ///
    /// `NoMemory` where memory runs out.
    pub fn begin(
        alloc: Global,
        session: &Session,
        harts: u32,
        seed: u32,
        turns: u32,
    ) -> Result<Rounds, NoMemory>
        requires begun { session.now ≡ new_session session.now.inputs }
        requires harts { harts ≡ session.now.inputs.settings.harts }
        requires few { harts ≤ MAX_HARTS }
        requires turns { (1 ≤ turns) × (turns ≤ MAX_QUANTUM) }
        ensures at { IfOk result (λ rounds. StandAt rounds session.now) }
        ensures same { IfOk result (λ rounds. (rounds.seed ≡ seed) × (rounds.turns ≡ turns)) }
    {
        let mut ready = Ready::new(alloc);
        fill(session, harts, &mut ready)?;
        Ok(Rounds {
            seed,
            turns,
            harts,
            order: Order::of_seed(seed),
            ready,
        })
    }

    /// Lets the next hart take its quantum. Returns it, or none where none can follow: then the session's quanta are the whole list
    /// of the seed.
    ///
    /// # Errors
    ///
    /// `NoMemory` where memory runs out. Then these rounds mustn't be used any more.
    #[inline(always)]
    pub fn next(&mut self, session: &mut Session) -> Result<Option<Quantum>, NoMemory>
        requires { StandAt self.old session.old }
        ensures at { OnOk result (StandAt self.new session.new) }
        ensures same { (self.new.seed ≡ self.old.seed) × (self.new.turns ≡ self.old.turns) }
        ensures inputs { session.new.inputs ≡ session.old.inputs }
        ensures going { session.new.closed ≡ false }
        ensures taken { IfOk result (λ answer. IfSome answer (λ q. session.new.quanta ≡ session.old.quanta ++ q ∷ [])) }
        ensures none { IfOk result (λ answer. IfNone answer (session.new ≡ session.old)) }
        ensures whole { IfOk result
            (λ answer. IfNone answer (IsSeeded session.new.inputs self.new.seed self.new.turns session.new.quanta)) }
    {
        if session.quanta().len() >= MAX_QUANTA as usize {
            session.laws();
            return Ok(None);
        }
        let Some(hart) = self.order.pick(&self.ready) else {
            session.laws();
            return Ok(None);
        };
        let taken = session.next_quantum(0, hart.get(), self.turns)?;
        refresh(session, self.harts, hart, &mut self.ready)?;
        self.order = self.order.after(hart);
        Ok(Some(taken))
    }
}

/// Lets the harts of a session that just began take quanta of at most `turns` turns, in the order of a seed, until none can follow, and
/// tells of each.
///
/// # Errors
///
/// `NoMemory` where memory runs out.
pub fn take_quanta<P: Progress>(
    alloc: Global,
    session: &mut Session,
    harts: u32,
    seed: u32,
    turns: u32,
    progress: &P,
) -> Result<(), NoMemory>
    requires begun { session.old ≡ new_session session.old.inputs }
    requires harts { harts ≡ session.old.inputs.settings.harts }
    requires few { harts ≤ MAX_HARTS }
    requires turns { (1 ≤ turns) × (turns ≤ MAX_QUANTUM) }
    ensures inputs { session.new.inputs ≡ session.old.inputs }
    ensures going { session.new.closed ≡ false }
    ensures seeded { OnOk result (IsSeeded session.old.inputs seed turns session.new.quanta) }
{
    let mut rounds = Rounds::begin(alloc, session, harts, seed, turns)?;
    'quanta: for _ in 0..MAX_QUANTA {
        if rounds.next(session)?.is_none() {
            return Ok(());
        }
        progress.see(session);
    }
    session.laws();
    Ok(())
}
