//! The hypotheses that verdicts speak of, each with its threshold.

ghost use Rattle.std.specs.Prelude.{◌≡◌, ◌<◌, List, ℕ, IfOk, OnOk, bytes_eq};
ghost use Rattle.std.specs.List.{All};
ghost use Rattle.std.specs.Map.{lookup};
ghost use Rattle.advice.specs.Advice.{hypotheses_of, rate, threshold_of, HasTicks};
ghost use Rattle.advice.specs.Lowering.{least_with, lowered};

use crate::verdict::Verdict;
use first_places::FirstPlaces;
use indexmap::IndexMap;
use pn_types::{NoMemory, Text};
use std::alloc::Global;

/// The greatest threshold that a directive can set.
pub const MAX_THRESHOLD: u32 = 2_147_483_647;

/// A hypothesis, and what is advised for it.
#[derive(Drop)]
pub struct Hypothesis {
    /// Its name.
    pub name: Text,
    /// The greatest threshold that keeps its true verdicts true. None where it has none.
    pub threshold: Option<u32>,
}

/// The value per 1,000 ticks, rounded down, or the greatest threshold where that is less.
fn rate(verdict: &Verdict) -> u32
    requires { 0 < verdict.now.ticks }
    ensures { result ≡ rate verdict.now }
{
    let rate = verdict.value as u128 * 1000 / verdict.ticks as u128;
    rate.min(MAX_THRESHOLD as u128) as u32
}

/// The least of a number and of another, if there is one.
fn least_with(number: u32, before: Option<u32>) -> u32
    ensures { result ≡ least_with number before }
{
    match before {
        None => number,
        Some(before) => before.min(number),
    }
}

/// Lowers the threshold of a true verdict's hypothesis to what the verdict allows.
fn lower(
    alloc: Global,
    thresholds: &mut IndexMap<Vec<u8>, u32>,
    verdict: &Verdict,
) -> Result<(), NoMemory>
    requires { 0 < verdict.now.ticks }
    ensures { OnOk result ((name : List ℕ)
        → lookup (λ key. bytes_eq name key.items) thresholds.new.entries
        ≡ lowered verdict.now name (lookup (λ key. bytes_eq name key.items) thresholds.old.entries)) }
{
    let name = verdict.hypothesis.bytes();
    let least = least_with(rate(verdict), thresholds.get(name).copied());
    thresholds.insert(Vec::from_slice(alloc, name)?, least)?;
    Ok(())
}

/// The threshold of each hypothesis that has a true verdict, by its name.
fn thresholds(alloc: Global, verdicts: &[Verdict]) -> Result<IndexMap<Vec<u8>, u32>, NoMemory>
    requires { All HasTicks verdicts.now }
    ensures { IfOk result (λ thresholds. (name : List ℕ)
        → lookup (λ key. bytes_eq name key.items) thresholds.entries ≡ threshold_of verdicts.now name) }
{
    let mut thresholds = IndexMap::new(alloc);
    for verdict in verdicts {
        if verdict.holds {
            lower(alloc, &mut thresholds, verdict)?;
        }
    }
    Ok(thresholds)
}

/// The hypothesis of this name, with its threshold.
fn hypothesis_of(
    alloc: Global,
    thresholds: &IndexMap<Vec<u8>, u32>,
    name: &Text,
) -> Result<Hypothesis, NoMemory>
    ensures name { IfOk result (λ one. one.name ≡ name.now) }
    ensures threshold { IfOk result (λ one. one.threshold ≡ lookup (λ key. bytes_eq name.now key.items) thresholds.now.entries) }
{
    Ok(Hypothesis {
        name: name.copy(alloc)?,
        threshold: thresholds.get(name.bytes()).copied(),
    })
}

/// Returns the hypotheses in the order of their first mention, with their thresholds.
///
/// # Errors
///
/// `NoMemory` where memory runs out.
pub fn hypotheses_of(alloc: Global, verdicts: &[Verdict]) -> Result<Vec<Hypothesis>, NoMemory>
    requires { All HasTicks verdicts.now }
    ensures { IfOk result (λ all. all.items ≡ hypotheses_of verdicts.now) }
{
    let thresholds = thresholds(alloc, verdicts)?;
    let mut mentioned = FirstPlaces::new(alloc);
    let mut hypotheses = Vec::new(alloc);
    for verdict in verdicts {
        let before = mentioned.push(alloc, verdict.hypothesis.bytes())?;
        if !before {
            hypotheses.push(hypothesis_of(alloc, &thresholds, &verdict.hypothesis)?)?;
        }
    }
    Ok(hypotheses)
}
