//! What a report shows of a session.

ghost use Rattle.std.specs.Prelude.{◌≡◌, ◌≤◌, ◌<◌, IfOk, Some, length, map, slice_get};
ghost use Rattle.std.specs.Option.{option_map};
ghost use Rattle.session.specs.Parts.{metric_of, name_of, refused_part, shown_part, units_of};
ghost use Rattle.session.specs.Seen.{hart_seen, pair_parts, table_parts};

use crate::inputs::Inputs;
use crate::node_parts::search_part;
use crate::stored::StoredState;
use fold_hist::Hist;
use instrumented::InstrumentedMachine;
use mdl_ast::Metric;
use pn_types::{HartNo, MAX_HARTS, NoMemory, Seq, Settings, Text};
use report::{HartPart, RefusedPart, ReportParts, ShownPart, hart_end};
use session_pairs::SampledPair;
use session_spec::{MetricFocusPair, RefusedWish};
use std::alloc::Global;

/// Returns what a report shows of a hart.
fn hart_part(machine: &InstrumentedMachine, budget: u64, hart: HartNo) -> HartPart
    requires { hart < length machine.now.state.core.harts }
    ensures { slice_get (map (hart_seen budget machine.now.state.core) machine.now.state.core.harts) hart ≡ Some result }
{
    let ticks = machine.ticks(hart);
    HartPart {
        ticks,
        // A hart inside a trampoline is runnable past its budget, so the ticks tell whether the program's could go on.
        stop: hart_end(machine.stop(hart), ticks < budget),
        pc: machine.at(hart),
    }
}

/// Returns what a report shows of each hart.
fn hart_parts(
    alloc: Global,
    machine: &InstrumentedMachine,
    settings: &Settings,
) -> Result<Vec<HartPart>, NoMemory>
    requires harts { settings.now.harts ≡ length machine.now.state.core.harts }
    requires few { settings.now.harts ≤ MAX_HARTS }
    ensures { IfOk result (λ parts. parts.items ≡ map (hart_seen settings.now.budget machine.now.state.core) machine.now.state.core.harts) }
{
    let mut parts = Vec::new(alloc);
    for number in 0..settings.harts {
        let hart = HartNo::numbered(number);
        parts.push(hart_part(machine, settings.budget, hart))?;
    }
    Ok(parts)
}

/// Returns the metric of a number, if there is one.
fn metric(inputs: &Inputs, number: u32) -> Option<&Metric>
    ensures { option_map (λ metric. metric.now) result ≡ metric_of inputs.now number }
{
    inputs.checked.metrics.as_slice().get(number as usize)
}

/// Returns the name of the metric of a number, which is empty where there is none.
fn name(alloc: Global, inputs: &Inputs, number: u32) -> Result<Text, NoMemory>
    ensures { IfOk result (λ name. name ≡ name_of (metric_of inputs.now number)) }
{
    match metric(inputs, number) {
        Some(metric) => metric.name.copy(alloc),
        None => Ok(Text::from_vec(Vec::new(alloc))),
    }
}

/// Returns the units of the metric of a number, which are empty where there is none.
fn units(alloc: Global, inputs: &Inputs, number: u32) -> Result<Text, NoMemory>
    ensures { IfOk result (λ units. units ≡ units_of (metric_of inputs.now number)) }
{
    match metric(inputs, number) {
        Some(metric) => metric.units.copy(alloc),
        None => Ok(Text::from_vec(Vec::new(alloc))),
    }
}

/// Returns what a report shows of a wish that was refused.
pub(crate) fn refused_part(
    alloc: Global,
    inputs: &Inputs,
    refused: &RefusedWish,
) -> Result<RefusedPart, NoMemory>
    ensures { IfOk result (λ part. part ≡ refused_part inputs.now refused.now) }
{
    Ok(RefusedPart {
        show: refused.show,
        metric: name(alloc, inputs, refused.metric)?,
        focus: inputs.tree.focus_text(alloc, &refused.focus)?,
        at: refused.at,
        cause: refused.cause,
    })
}

/// Returns what a report shows of each wish that was refused.
fn refused_parts(
    alloc: Global,
    inputs: &Inputs,
    refused: &[RefusedWish],
) -> Result<Vec<RefusedPart>, NoMemory>
    ensures { IfOk result (λ parts. parts.items ≡ map (refused_part inputs.now) refused.now) }
{
    let mut parts = Vec::new(alloc);
    for wish in refused {
        parts.push(refused_part(alloc, inputs, wish)?)?;
    }
    Ok(parts)
}

/// Returns what a report shows of a pair of metric and focus that is or was shown.
fn shown_part(
    alloc: Global,
    inputs: &Inputs,
    shown: &MetricFocusPair,
    hist: &Hist,
) -> Result<ShownPart, NoMemory>
    ensures { IfOk result (λ part. part ≡ shown_part inputs.now shown.now hist.now) }
{
    let bins = hist.bins().to_vec(alloc)?;
    Ok(ShownPart {
        metric: name(alloc, inputs, shown.metric)?,
        focus: inputs.tree.focus_text(alloc, &shown.focus)?,
        units: units(alloc, inputs, shown.metric)?,
        from: shown.armed,
        width: hist.width(),
        bins: Seq::from_vec(bins),
    })
}

/// Returns what a report shows of each pair that was wished and is or was shown.
fn shown_parts(
    alloc: Global,
    inputs: &Inputs,
    pairs: &[SampledPair],
) -> Result<Vec<ShownPart>, NoMemory>
    ensures { IfOk result (λ parts. parts.items ≡ pair_parts inputs.now pairs.now) }
{
    let mut parts = Vec::new(alloc);
    for pair in pairs {
        if let Some(hist) = &pair.hist {
            parts.push(shown_part(alloc, inputs, &pair.shown, hist)?)?;
        }
    }
    Ok(parts)
}

/// Returns what a report shows of a session, by what it goes on from.
pub(crate) fn stored_parts(
    alloc: Global,
    inputs: &Inputs,
    stored: &StoredState,
) -> Result<ReportParts, NoMemory>
    requires harts { inputs.now.settings.harts ≡ length stored.now.machine.state.core.harts }
    requires few { inputs.now.settings.harts ≤ MAX_HARTS }
    ensures { IfOk result (λ parts. parts ≡ table_parts inputs.now stored.now) }
{
    let output = stored.machine.output().to_vec(alloc)?;
    Ok(ReportParts {
        harts: Seq::from_vec(hart_parts(alloc, &stored.machine, &inputs.settings)?),
        samples: stored.samples,
        output: Text::from_vec(output),
        refused: Seq::from_vec(refused_parts(alloc, inputs, stored.refused.as_slice())?),
        shown: Seq::from_vec(shown_parts(alloc, inputs, stored.pairs.all.as_slice())?),
        search: search_part(alloc, inputs, stored.search.nodes())?,
    })
}
