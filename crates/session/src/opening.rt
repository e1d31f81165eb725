//! The stored at the beginning, and the memory for wishes.

ghost use Rattle.std.specs.Prelude.{◌≡◌, ◌+◌, ◌<◌, ◌≤◌, ◌^◌, ◌⊎◌, IfOk, None, OnErr, OnOk, [], false, length, map};
ghost use Rattle.std.specs.List.{AllByRecursion};
ghost use Rattle.pn_types.specs.Images.{IsImage, text_of};
ghost use Rattle.rv_word.specs.Names.{scratch_in, words_of};
ghost use Rattle.machine.specs.Cores.{In};
ghost use Rattle.machine.specs.Laws.{IsProgram};
ghost use Rattle.prim_code.specs.Counts.{predicted};
ghost use Rattle.pn_types.specs.declared.plan.Plan.{Plan};
ghost use Rattle.instrument.specs.Needs.{need_of};
ghost use Rattle.mdl_plan.specs.Plans.{at_first};
ghost use Rattle.session.specs.Given.{AreGiven, AreNarrow, IsNarrowConstraint, IsNarrowMetric};
ghost use Rattle.session.specs.Tables.{first_table, table_at_first};

use crate::inputs::Inputs;
use crate::stored::StoredState;
use instrumented::InstrumentedMachine;
use machine::Sample;
use mdl_ast::{Constraint, Metric};
use pn_types::{NoMemory, Plan, Seq};
use session_pairs::SampledPairs;
use std::alloc::Global;
use w3_search::Search;

/// Makes room for the readings of an instrument on `harts` harts.
fn blank_sample(alloc: Global, harts: u32) -> Result<Sample, NoMemory>
    ensures { IfOk result (λ sample. length sample.readings ≡ harts) }
{
    Ok(Sample {
        readings: Seq::from_vec(vec![in alloc; 0; harts as usize]?),
    })
}

/// Returns the value at the beginning, which has 32 bits.
fn begun_at(initially: Option<u32>) -> u32
    ensures { at_first initially < 2 ^ 32 }
{
    initially.unwrap_or(0)
}

/// What holds of any metrics: the value at which each begins has 32 bits.
fn metrics_are_narrow(metrics: &[Metric])
    ensures { AllByRecursion IsNarrowMetric metrics.now }
{
    for metric in metrics {
        // For the proof alone: `begun_at` says that the value has 32 bits.
        let _first = begun_at(metric.initially);
    }
}

/// What holds of any constraints: the value at which each begins has 32 bits.
fn constraints_are_narrow(constraints: &[Constraint])
    ensures { AllByRecursion IsNarrowConstraint constraints.now }
{
    for constraint in constraints {
        // For the proof alone: `begun_at` says that the value has 32 bits.
        let _first = begun_at(constraint.initially);
    }
}

impl StoredState {
    /// Makes the stored of a machine and a search, where nothing was done yet and work is due at the time `due`.
    fn at_first(
        alloc: Global,
        machine: InstrumentedMachine,
        search: Search,
        marks: Vec<u64>,
        sample: Sample,
        due: u64,
    ) -> StoredState
        ensures { result ≡ table_at_first machine search marks.items (length sample.readings) due }
    {
        StoredState {
            machine,
            refused: Vec::new(alloc),
            pairs: SampledPairs {
                all: Vec::new(alloc),
                live: Vec::new(alloc),
            },
            search,
            latest: Vec::new(alloc),
            tests: Vec::new(alloc),
            marks,
            sample,
            room: 0,
            time: 0,
            due,
            worked: false,
            samples: 0,
            last: 0,
            idle: 0,
            observed: 0,
        }
    }

    /// Makes the stored as it is before any wish is looked at.
    ///
    /// # Errors
    ///
    /// `NoMemory` where memory runs out.
    pub(crate) fn new(alloc: Global, inputs: &Inputs) -> Result<StoredState, NoMemory>
        requires { AreGiven inputs.now }
        ensures first { IfOk result (λ stored. stored ≡ first_table inputs.now) }
        ensures program { IfOk result (λ stored. IsProgram inputs.now.image) }
        ensures narrow { IfOk result (λ stored. AreNarrow inputs.now) }
    {
        metrics_are_narrow(inputs.checked.metrics.as_slice());
        constraints_are_narrow(inputs.checked.constraints.as_slice());
        let settings = &inputs.settings;
        let marks = vec![in alloc; 0; settings.harts as usize]?;
        let sample = blank_sample(alloc, settings.harts)?;
        let search = inputs.search(alloc)?;
        let machine = InstrumentedMachine::new(
            alloc,
            &inputs.image,
            settings.harts,
            settings.budget,
            settings.instruments,
        )?;
        Ok(StoredState::at_first(alloc, machine, search, marks, sample, settings.width))
    }

    /// Reserves memory to look at wishes and to take nodes with these plans, one each.
    ///
    /// # Errors
    ///
    /// `NoMemory` where memory runs out. Then no more has changed than which plans are ready.
    pub(crate) fn reserve(&mut self, alloc: Global, plans: &[Plan]) -> Result<(), NoMemory>
        requires { (p : Plan) → In p plans.now → predicted p < 2 ^ 32 }
        ensures same { self.new ≡ record self.old {
          machine = record self.old.machine { ready = self.new.machine.ready };
          room = self.new.room;
        } }
        ensures room { OnOk result (self.new.room ≡ length plans.now) }
        ensures ready { OnOk result (self.new.machine.ready ≡ map need_of plans.now) }
    {
        let more = plans.len();
        self.room = 0;
        self.refused.reserve(more)?;
        self.pairs.all.reserve(more)?;
        self.pairs.live.reserve(more)?;
        let all = self.pairs.all.len() + more;
        self.latest.reserve(all)?;
        self.tests.reserve(all)?;
        self.machine.reserve(alloc, plans)?;
        self.room = more;
        Ok(())
    }
}
