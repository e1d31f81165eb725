//! A session: its opening, its quanta and its end.

ghost use Rattle.std.specs.Prelude.{◌≡◌, ℕ, ◌<◌, ◌≤◌, ◌^◌, ◌++◌, ◌∷◌, ◌&&◌, [], IfErr, IfNone, IfOk, IfSome, IsTrue, None, OnErr, false, length, nat_lt, sum_by, true};
ghost use Rattle.machine.specs.Quanta.{KeepsBudget};
ghost use Rattle.machine.specs.Turns.{is_runnable};
ghost use Rattle.session_spec.specs.Inputs.{inputs_of};
ghost use Rattle.session_spec.specs.Opening.{bad_pick};
ghost use Rattle.session_spec.specs.Run.{IsRun};
ghost use Rattle.session_spec.specs.Told.{AreEnded, AreJudged};
ghost use Rattle.session_spec.specs.Work.{AreAllowed, Halted, IsWhole, quantum_of};
ghost use Rattle.session_spec.specs.Bins.{AreRecorded};
ghost use Rattle.session_spec.specs.Costs.{AreWithin, IsWithinLimit};
ghost use Rattle.session_spec.specs.Feed.{IsFeed};
ghost use Rattle.session_spec.specs.Printed.{AreForOpening, AreWholeRuns};
ghost use Rattle.session_spec.specs.LastReadings.{AreReadNext};
ghost use Rattle.session_spec.specs.Laws.{AreBarred};
ghost use Rattle.session.specs.Bins.{AreParts, AreWholeParts};
ghost use Rattle.session.specs.Given.{AreGiven};
ghost use Rattle.session.specs.Parts.{parts_of};
ghost use Rattle.session.specs.Sessions.{new_session, IsStartFault, session_at, state_of};
ghost use Rattle.w3_search.specs.History.{IsHistory};

use crate::admitting::admit_from;
use crate::fault::StartFault;
use crate::inputs::Inputs;
use crate::known_costs::KnownCosts;
use crate::later::later;
use crate::parts::stored_parts;
use crate::room::put_quantum;
use crate::starting::opened;
use crate::stored::StoredState;
use instrumented::InstrumentedMachine;
use mdl_check::{Checked, CheckedWish};
use pn_types::{
    HartNo, Image, MAX_HARTS, MAX_QUANTA, MAX_QUANTUM, MAX_WORKERS, NoMemory, Point, Proc, Quantum,
    Seq, Settings,
};
use report::ReportParts;
use resource_tree::Tree;
use session_spec::LatestSample;
use std::alloc::Global;
use std::marker::Model;
use w3_search::Node;

/// The run of a program with instruments, quantum by quantum.
pub struct Session {
    inputs: Inputs,
    // The wishes after the opening, in the order of their ticks, and how many of them were looked at.
    wishes: Vec<CheckedWish>,
    looked: usize,
    stored: StoredState,
    costs: KnownCosts,
    quanta: Vec<Quantum>,
    closed: bool,
    alloc: Global,
}

impl Model for Session {
    ghost use Rattle.std.specs.Coded.{codes};
    ghost use Rattle.std.specs.Prelude.{◌≤◌, drop, vec_len};
    ghost use Rattle.machine.specs.Codes.{core_code};
    ghost use Rattle.session.specs.KnownCosts.{AreKnown};
    ghost use Rattle.session.specs.Kept.{IsTableAfter};
    ghost use Rattle.session.specs.Sessions.{SessionData};

    ghost Value = { SessionData };

    ghost coded = { Prim.hlevel (codes, core_code) };

    ghost view = { λ s. record { inputs = s.inputs; machine = s.stored.machine.state; quanta = s.quanta.items; closed = s.closed } };

    ghost invariant = { λ s. IsTableAfter s.inputs s.quanta.items s.closed (drop s.looked s.wishes.items) s.stored
        × (s.looked ≤ vec_len s.wishes) × AreKnown s.inputs s.costs };
}

// Its drop is a function of its own, so that callers need not prove the drops of all its parts.
impl Drop for Session {
    fn drop(self) {
        let Session {
            inputs: _,
            wishes: _,
            looked: _,
            stored: _,
            costs: _,
            quanta: _,
            closed: _,
            alloc: _,
        } = self;
    }
}

impl Session {
    /// Opens a session: looks at the wishes at tick 0, in the order of the text, then does the whole agenda, and then arms each
    /// instrument. It is given a program, what its configuration holds, the program's resources on the settings' harts, its
    /// procedures in the order of the resources, its points by address, and the numbers of the run.
    ///
    /// # Errors
    ///
    /// `NoMemory` where memory runs out; `BadPick` with the first wish at tick 0 that is refused, if one is.
    pub fn new(
        alloc: Global,
        image: Image,
        checked: Checked,
        tree: Tree,
        procs: Seq<Proc>,
        points: Seq<Point>,
        settings: Settings,
    ) -> Result<Session, StartFault>
        requires { AreGiven (inputs_of image checked tree procs points settings) }
        ensures begun { IfOk result (λ session. session ≡ new_session (inputs_of image checked tree procs points settings)) }
        ensures picked { IfOk result (λ session. bad_pick (inputs_of image checked tree procs points settings) ≡ None) }
        ensures refused { IfErr result (IsStartFault (inputs_of image checked tree procs points settings)) }
    {
        let inputs = Inputs::new(alloc, image, checked, tree, procs, points, settings)?;
        Session::begin(alloc, inputs)
    }

    /// Opens the same session, with inputs that were put together before.
    ///
    /// # Errors
    ///
    /// As [`Session::new`].
    pub fn begin(alloc: Global, inputs: Inputs) -> Result<Session, StartFault>
        requires { AreGiven inputs }
        ensures begun { IfOk result (λ session. session ≡ new_session inputs) }
        ensures picked { IfOk result (λ session. bad_pick inputs ≡ None) }
        ensures refused { IfErr result (IsStartFault inputs) }
    {
        let mut costs = KnownCosts::new(alloc);
        let stored = opened(alloc, &inputs, &mut costs)?;
        let wishes = later(alloc, inputs.checked.wishes.as_slice())?;
        Ok(Session {
            inputs,
            wishes,
            looked: 0,
            stored,
            costs,
            quanta: Vec::new(alloc),
            closed: false,
            alloc,
        })
    }

    /// Returns the machine with its instruments.
    pub fn machine(&self) -> &InstrumentedMachine
        ensures { result.now.state ≡ self.now.machine }
    {
        &self.stored.machine
    }

    /// Returns the quanta that it took.
    pub fn quanta(&self) -> &[Quantum]
        ensures { result.now ≡ self.now.quanta }
    {
        &self.quanta
    }

    /// Returns the time: how many of the program's words were executed.
    pub fn time(&self) -> u64
        ensures { result ≡ (state_of self.now).kept.time }
    {
        self.stored.time
    }

    /// Returns how many times samples were taken.
    pub fn samples(&self) -> u64
        ensures { result ≡ (state_of self.now).kept.samples }
    {
        self.stored.samples
    }

    /// Returns the nodes of its search, in the order in which they were made.
    pub fn nodes(&self) -> &[Node]
        ensures { result.now ≡ (state_of self.now).kept.search.nodes }
    {
        self.stored.search.nodes()
    }

    /// Returns whether work was done at the end of the last quantum, so that an admission is due.
    pub fn worked(&self) -> bool
        ensures { result ≡ (state_of self.now).kept.worked }
    {
        self.stored.worked
    }

    /// Returns the samples of the last time that any were taken, in the order of what they show.
    pub fn latest(&self) -> &[LatestSample]
        ensures { result.now ≡ (state_of self.now).latest }
    {
        &self.stored.latest
    }

    /// Returns what a report shows of it.
    ///
    /// # Errors
    ///
    /// `NoMemory` where memory runs out.
    pub fn parts(&self) -> Result<ReportParts, NoMemory>
        ensures parts { IfOk result (λ parts. parts ≡ parts_of self.now.inputs (state_of self.now)) }
        // With these the report's text can be made.
        ensures harts { IfOk result (λ parts. length parts.harts ≤ MAX_HARTS) }
        ensures ticks { IfOk result (λ parts. sum_by (λ part. part.ticks) parts.harts < 2 ^ 64) }
    {
        stored_parts(self.alloc, &self.inputs, &self.stored)
    }

    /// What holds of it: each of its quanta was allowed when it came; its machine is the one that the definitions say. That machine
    /// came about by events of which each could happen, and is the unpatched program's after a legal run of it, so it has that
    /// run's memory, output, ticks and stops. The samples that were recorded for an instrument, that its part of a report shows,
    /// and that were told of it, follow one another from its arming on, and are what its plan measures on that run; and each sample
    /// is a difference of readings. Where all wishes are for the opening, and none drops a pair, this holds for the whole run. The
    /// search's nodes are a history; each verdict is that of the program's own run, by the samples of an instrument of the node's
    /// own; each barred node was barred when its turn came; after the end each node has a verdict, or says why not; and what is
    /// under test costs no more than the limit, at each moment. It has at most [`MAX_HARTS`] harts.
    pub fn laws(&self)
        ensures allowed { AreAllowed self.now.inputs self.now.quanta }
        ensures machine { self.now.machine ≡ (state_of self.now).kept.machine }
        ensures run { IsRun self.now.inputs (state_of self.now) }
        ensures bins { AreRecorded self.now.inputs (state_of self.now) }
        ensures parts { AreParts self.now.inputs (state_of self.now) }
        ensures feed { IsFeed (state_of self.now) }
        ensures read { self.now.closed ≡ false → AreReadNext self.now.inputs self.now.quanta (state_of self.now) }
        ensures whole { self.now.closed ≡ true → AreForOpening self.now.inputs → AreWholeRuns self.now.inputs (state_of self.now) }
        ensures whole_parts { self.now.closed ≡ true → AreForOpening self.now.inputs → AreWholeParts self.now.inputs (state_of self.now) }
        ensures history { IsHistory (state_of self.now).kept.search }
        ensures verdicts { self.now.closed ≡ false → AreJudged self.now.inputs (state_of self.now) }
        ensures bars { AreBarred self.now.inputs self.now.quanta (state_of self.now) }
        ensures told { self.now.closed ≡ true → AreEnded self.now.inputs self.now.quanta (state_of self.now) }
        ensures cost { IsWithinLimit self.now.inputs (state_of self.now).kept }
        ensures moments { self.now.closed ≡ false → AreWithin self.now.inputs (state_of self.now) }
        ensures harts { self.now.inputs.settings.harts ≤ MAX_HARTS }
    {
        // For the proof alone: `nodes` says that they are a history.
        let _nodes = self.stored.search.nodes();
    }

    /// Returns whether the hart is runnable and there are fewer quanta than there may be: exactly then a quantum of it can follow,
    /// unless the session was closed. The hart is one of the settings'.
    #[inline(always)]
    pub fn runnable(&self, hart: u32) -> bool
        requires { hart < self.now.inputs.settings.harts }
        ensures exact { result ≡ (nat_lt (length self.now.quanta) MAX_QUANTA && is_runnable (state_of self.now).kept.machine.core hart) }
        ensures open { IsTrue result → is_runnable (state_of self.now).kept.machine.core hart ≡ true }
        ensures few { IsTrue result → length self.now.quanta < MAX_QUANTA }
        ensures halted { self.now.closed ≡ false → result ≡ false → Halted self.now.inputs self.now.quanta hart }
    {
        self.quanta.len() < MAX_QUANTA as usize && self.stored.runnable(HartNo::numbered(hart))
    }

    /// Returns whether no quantum can follow: the list of those that it took is whole.
    pub fn done(&self) -> bool
        requires { self.now.closed ≡ false }
        ensures whole { result ≡ true → IsWhole self.now.inputs self.now.quanta }
        ensures open { result ≡ false
            → (hart : ℕ) × (hart < self.now.inputs.settings.harts) × (Halted self.now.inputs self.now.quanta hart → ⊥) }
    {
        for hart in 0..self.inputs.settings.harts {
            if self.runnable(hart) {
                return false;
            }
        }
        true
    }

    /// Lets the hart take a quantum of at most `turns` turns, asked for by a worker: an admission, if work was done since the last;
    /// the turns; some entries of the agenda; and the work that is due, if it is time. Returns the quantum, which is appended to
    /// the others, and none exactly where the hart can't take one. Then nothing has changed.
    ///
    /// # Errors
    ///
    /// `NoMemory` where memory runs out. Then nothing has changed.
    #[inline(always)]
    pub fn quantum(
        &mut self,
        worker: u32,
        hart: u32,
        turns: u32,
    ) -> Result<Option<Quantum>, NoMemory>
        requires going { self.old.closed ≡ false }
        requires worker { worker < MAX_WORKERS }
        requires hart { hart < self.old.inputs.settings.harts }
        requires turns { (1 ≤ turns) × (turns ≤ MAX_QUANTUM) }
        ensures inputs { self.new.inputs ≡ self.old.inputs }
        ensures closed { self.new.closed ≡ false }
        ensures taken { IfOk result (λ answer. IfSome answer (λ q. self.new.quanta ≡ self.old.quanta ++ q ∷ [])) }
        ensures machine { self.new.machine ≡ (state_of self.new).kept.machine }
        // No hart has more ticks than the budget.
        ensures budget { KeepsBudget self.new.machine.core }
        ensures asked { IfOk result
            (λ answer. IfSome answer (λ q. q ≡ quantum_of self.old.inputs worker hart turns (state_of self.old).kept)) }
        ensures halted { IfOk result (λ answer. IfNone answer (Halted self.old.inputs self.old.quanta hart)) }
        ensures none { IfOk result (λ answer. IfNone answer (self.new ≡ self.old)) }
        ensures going_on { IfOk result (λ answer. IfSome answer (λ q. Halted self.old.inputs self.old.quanta hart → ⊥)) }
        ensures failed { OnErr result (self.new ≡ self.old) }
    {
        if !self.runnable(hart) {
            // For the proof alone: no hart has more ticks than the budget.
            self.laws();
            return Ok(None);
        }
        Ok(Some(self.next_quantum(worker, hart, turns)?))
    }

    /// Does what [`Session::quantum`] does for a hart that can take a quantum, without a look at whether it can.
    ///
    /// # Errors
    ///
    /// `NoMemory` where memory runs out. Then nothing has changed.
    #[inline(always)]
    pub fn next_quantum(&mut self, worker: u32, hart: u32, turns: u32) -> Result<Quantum, NoMemory>
        requires going { self.old.closed ≡ false }
        requires worker { worker < MAX_WORKERS }
        requires hart { hart < self.old.inputs.settings.harts }
        requires turns { (1 ≤ turns) × (turns ≤ MAX_QUANTUM) }
        requires few { length self.old.quanta < MAX_QUANTA }
        requires open { is_runnable (state_of self.old).kept.machine.core hart ≡ true }
        ensures inputs { self.new.inputs ≡ self.old.inputs }
        ensures closed { self.new.closed ≡ false }
        ensures taken { IfOk result (λ q. self.new.quanta ≡ self.old.quanta ++ q ∷ []) }
        ensures machine { self.new.machine ≡ (state_of self.new).kept.machine }
        ensures budget { KeepsBudget self.new.machine.core }
        ensures asked { IfOk result (λ q. q ≡ quantum_of self.old.inputs worker hart turns (state_of self.old).kept) }
        ensures failed { OnErr result (self.new ≡ self.old) }
    {
        self.quanta.reserve(1)?;
        let width = self.inputs.width();
        let looked = admit_from(
            self.alloc,
            &self.inputs,
            &self.wishes,
            self.looked,
            &mut self.stored,
            &mut self.costs,
        )?;
        // From here on nothing fails.
        self.looked += looked;
        let owns = self.stored.tend(HartNo::numbered(hart), turns, width);
        let quantum = Quantum {
            worker: worker as u8,
            hart: hart as u8,
            turns: turns as u16,
            owns: owns as u16,
        };
        put_quantum(&mut self.quanta, quantum);
        Ok(quantum)
    }

    /// Ends the session: each hart that is inside a trampoline takes turns until it is outside, and where time passed since the
    /// last sample, all that is armed is sampled once more. No quantum follows.
    pub fn close(&mut self)
        requires { self.old.closed ≡ false }
        ensures { self.new ≡ session_at self.old.inputs self.old.quanta true }
    {
        self.stored.end();
        self.closed = true;
    }
}
