//! Gives a pair an instrument, for which memory was taken.

ghost use Rattle.std.specs.Prelude.{◌≡◌, ◌<◌, ◌^◌, IfErr, IfOk};
ghost use Rattle.rv_mem.specs.Start.{program_of};
ghost use Rattle.machine.specs.Cores.{In};
ghost use Rattle.prim_code.specs.Counts.{predicted};
ghost use Rattle.instrument.specs.Needs.{need_of};
ghost use Rattle.session_pairs.specs.SampledPairs.{AreLive};
ghost use Rattle.session.specs.Candidates.{IsCandidate, new_pair};
ghost use Rattle.session.specs.Outcomes.{IsFailed, IsInstrumented, IsAdmissionStep};

use crate::candidate::Candidate;
use crate::failure::Failure;
use crate::inputs::Inputs;
use crate::stored::StoredState;
use instrument::InstrumentNo;
use pn_types::Plan;
use prim_code::predicted;
use session_pairs::SampledPair;
use session_spec::MetricFocusPair;
use std::alloc::Global;

/// Returns the pair of an instrument that was admitted with this plan and isn't armed yet.
fn new_pair(inputs: &Inputs, plan: &Plan, candidate: Candidate, number: InstrumentNo) -> SampledPair
    requires { predicted plan.now < 2 ^ 32 }
    ensures { result ≡ new_pair inputs.now plan.now candidate number }
{
    let (first, count) = inputs.tree.harts(&candidate.focus);
    let cost = match candidate.node {
        Some(_) => predicted(plan),
        None => 0,
    };
    SampledPair {
        shown: MetricFocusPair {
            instrument: number,
            node: candidate.node,
            metric: candidate.metric,
            focus: candidate.focus,
            armed: None,
            from: 0,
        },
        cost,
        first,
        count,
        last: 0,
        hist: candidate.hist,
    }
}

impl StoredState {
    /// Admits the plan of a pair, which is ready, under the limit of the cost if there is one, and returns the number of the
    /// instrument, which is the pair's from now on. There is room for it.
    ///
    /// # Errors
    ///
    /// Why it gets none. Then no pair and no instrument has changed, and the room is still there.
    pub(crate) fn instrument(
        &mut self,
        alloc: Global,
        inputs: &Inputs,
        plan: &Plan,
        candidate: Candidate,
        limit: Option<u64>,
    ) -> Result<InstrumentNo, Failure>
        requires room { 0 < self.old.room }
        requires program { self.old.machine.state.core.program ≡ program_of inputs.now.image }
        requires candidate { IsCandidate inputs.now plan.now candidate }
        requires ready { In (need_of plan.now) self.old.machine.ready }
        requires live { AreLive self.old.machine.state.placer self.old.pairs self.old.live }
        ensures ok { IfOk result (IsInstrumented inputs.now plan.now candidate limit self.old self.new) }
        ensures err { IfErr result (IsFailed plan.now candidate.fault limit self.old self.new) }
        ensures step { IsAdmissionStep inputs.now plan.now self.old self.new }
        ensures same { self.new ≡ record self.old {
          machine = self.new.machine;
          pairs = self.new.pairs;
          live = self.new.live;
          room = self.new.room;
        } }
    {
        if let Some(fault) = candidate.fault {
            return Err(Failure::NoPlan(fault));
        }
        match self.machine.admit(alloc, plan, limit) {
            Ok(number) => {
                self.room -= 1;
                self.pairs.put(new_pair(inputs, plan, candidate, number));
                Ok(number)
            }
            Err(refused) => Err(Failure::Refused(refused)),
        }
    }
}
