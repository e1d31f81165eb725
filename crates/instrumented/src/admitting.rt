//! Reserves for plans, and admits them.

ghost use Rattle.std.specs.Prelude.{◌≡◌, ◌+◌, ◌*◌, ◌<◌, ◌≤◌, ◌^◌, Ok, Err, IfErr, IfOk, IfSome, OnErr, OnOk, [], map, ◌⊎◌};
ghost use Rattle.pn_types.specs.declared.plan.Plan.{Plan};
ghost use Rattle.machine.specs.Cores.{In};
ghost use Rattle.prim_code.specs.Counts as table;
ghost use Rattle.instrument.specs.Admission.{slot_count};
ghost use Rattle.instrument.specs.Armable.{IsArmable};
ghost use Rattle.instrument.specs.Needs.{need_of, sites_in, without};
ghost use Rattle.instrument.specs.Placements.{admission};
ghost use Rattle.instrument.specs.Scenes.{Admits, IsPlanFor};
ghost use Rattle.instrumented.specs.Instrumented.{after_act};

use crate::instrumented_machine::InstrumentedMachine;
use instrument::{InstrumentNo, Refused};
use pn_types::{NoMemory, Plan};
use std::alloc::{AllocError, Global};

/// Returns the number of blocks where there are two at each site of these plans, and `beside` others. None where they are more than
/// can be counted.
fn blocks_for(plans: &[Plan], beside: usize) -> Option<u32>
    ensures { IfSome result (λ blocks. beside + 2 * sites_in (map need_of plans.now) ≤ blocks) }
{
    let mut blocks = u32::try_from(beside).ok()?;
    for plan in plans {
        let sites = u32::try_from(plan.sites.as_slice().len()).ok()?;
        blocks = blocks.checked_add(sites.checked_mul(2)?)?;
    }
    Some(blocks)
}

impl InstrumentedMachine {
    /// Reserves memory for the admission of each of these plans, which are ready then, in any order. What was reserved for other
    /// plans is given up.
    ///
    /// # Errors
    ///
    /// `NoMemory` where memory runs out. Then either the plans that were ready before are still ready, or none is.
    pub fn reserve(&mut self, alloc: Global, plans: &[Plan]) -> Result<(), NoMemory>
        requires words { (p : Plan) → In p plans.now → table.predicted p < 2 ^ 32 }
        ensures state { self.new.state ≡ self.old.state }
        ensures ok { OnOk result (self.new.ready ≡ map need_of plans.now) }
        ensures err { OnErr result ((self.new.ready ≡ self.old.ready) ⊎ (self.new.ready ≡ [])) }
    {
        let Some(blocks) = blocks_for(plans, self.placer.agenda_len()) else {
            return Err(AllocError);
        };
        self.machine.reserve(blocks)?;
        self.placer.reserve(alloc, plans)
    }

    /// Admits a plan that is ready, under the search's limit of the cost in words if there is one: the instrument gets its slots
    /// and rooms, and the placing of its sites is put into the agenda. Returns its number. The plan isn't ready any more.
    ///
    /// # Errors
    ///
    /// Why it is refused: it costs too much, there are as many instruments as are allowed, too few slots or words of the tool text
    /// are free, or a word can't be moved. Then no instrument has changed. It is never for memory, which was reserved.
    pub fn admit(
        &mut self,
        alloc: Global,
        plan: &Plan,
        cost: Option<u64>,
    ) -> Result<InstrumentNo, Refused>
        requires plan { IsPlanFor self.old.state.core.program plan.now }
        requires words { table.predicted plan.now < 2 ^ 32 }
        requires slots { slot_count plan.now.vars < 2 ^ 32 }
        requires armable { IsArmable plan.now.opens }
        requires ready { In (need_of plan.now) self.old.ready }
        ensures number { IfOk result (λ number. number.n ≡ self.old.state.placer.count) }
        ensures ok { OnOk result (admission self.old.state.placer plan.now cost ≡ Ok self.new.state.placer) }
        ensures refused { IfErr result (λ refused. admission self.old.state.placer plan.now cost ≡ Err refused) }
        ensures state { self.new.state ≡ after_act (Admits plan.now cost) self.old.state }
        ensures core { self.new.state.core ≡ self.old.state.core }
        ensures ready { self.new.ready ≡ without (need_of plan.now) self.old.ready }
    {
        self.placer.admit(alloc, plan, cost)
    }
}
