//! The text of a configuration that asks for metrics at foci.

ghost use Rattle.std.specs.Prelude.{◌≡◌, ◌++◌, flat_map, map, take, IfOk, OnOk};
ghost use Rattle.first_places.specs.Groups.{first_mentions};
ghost use Rattle.pair_wishes.specs.Wishes.{ask_text, pairs, pairs_at, wish_line};
ghost use Rattle.report.specs.ShownTexts.{pair_text};

use crate::distinct::add_distinct;
use first_places::FirstPlaces;
use pn_types::{NoMemory, Text};
use std::alloc::Global;

/// When something is asked for.
#[derive(Clone, Copy, Drop)]
pub struct AskedInterval {
    /// The tick from which on.
    pub from: u32,
    /// The tick at which it ends, where it ends before the run does.
    pub until: Option<u32>,
}

/// Returns a metric at a focus.
fn pair(alloc: Global, metric: &[u8], focus: &[u8]) -> Result<Text, NoMemory>
    ensures { IfOk result (λ pair. pair ≡ pair_text metric.now focus.now) }
{
    let mut text = Vec::from_slice(alloc, metric)?;
    text.push(b' ')?;
    text.extend_from_slice(focus)?;
    Ok(Text::from_vec(text))
}

/// Adds the metrics at a focus, of all pairs each once, and notes that they were seen.
fn add_pairs(
    alloc: Global,
    seen: &mut FirstPlaces,
    distinct: &mut Vec<Text>,
    metrics: &[&[u8]],
    focus: &[u8],
) -> Result<(), NoMemory>
    requires { distinct.old.items ≡ first_mentions seen.old }
    ensures seen { OnOk result (seen.new ≡ seen.old ++ pairs_at (map (λ metric. metric.now) metrics.now) focus.now) }
    ensures distinct { OnOk result (distinct.new.items ≡ first_mentions seen.new) }
{
    for metric in metrics {
        add_distinct(alloc, seen, distinct, pair(alloc, metric, focus)?)?;
    }
    Ok(())
}

/// Returns the distinct pairs of metrics and foci.
fn distinct_pairs(alloc: Global, metrics: &[&[u8]], foci: &[Text]) -> Result<Vec<Text>, NoMemory>
    ensures { IfOk result (λ all. all.items ≡ first_mentions (pairs (map (λ metric. metric.now) metrics.now) foci.now)) }
{
    let mut seen = FirstPlaces::new(alloc);
    let mut distinct = Vec::new(alloc);
    for focus in foci {
        add_pairs(alloc, &mut seen, &mut distinct, metrics, focus.bytes())?;
    }
    Ok(distinct)
}

/// Adds a wish.
fn add_wish(
    alloc: Global,
    out: &mut Vec<u8>,
    at: u32,
    verb: &[u8],
    pair: &[u8],
) -> Result<(), NoMemory>
    ensures { OnOk result (out.new.items ≡ out.old.items ++ wish_line at verb.now pair.now) }
{
    out.extend_from_slice(b"at ")?;
    out.extend_from_slice(format!(in alloc; "{at}")?.as_bytes())?;
    out.extend_from_slice(verb)?;
    out.extend_from_slice(pair)?;
    out.extend_from_slice(b";\n")
}

/// Adds a wish for each of some pairs.
fn add_wishes(
    alloc: Global,
    out: &mut Vec<u8>,
    at: u32,
    verb: &[u8],
    pairs: &[Text],
) -> Result<(), NoMemory>
    ensures { OnOk result (out.new.items ≡ out.old.items ++ flat_map (wish_line at verb.now) pairs.now) }
{
    for pair in pairs {
        add_wish(alloc, out, at, verb, pair.bytes())?;
    }
    Ok(())
}

/// Returns the first so many of some pairs.
fn first_pairs(pairs: &[Text], limit: u32) -> &[Text]
    ensures { result.now ≡ take limit pairs.now }
{
    &pairs[..pairs.len().min(limit as usize)]
}

/// Returns a configuration that asks for the first so many distinct pairs of metrics, by name, and foci: each focus with all metrics,
/// one after another.
///
/// # Errors
///
/// `NoMemory` where memory runs out.
pub fn ask_text(
    alloc: Global,
    metrics: &[&[u8]],
    foci: &[Text],
    limit: u32,
    interval: AskedInterval,
) -> Result<Vec<u8>, NoMemory>
    ensures { IfOk result
        (λ text. text.items ≡ ask_text (map (λ metric. metric.now) metrics.now) foci.now limit interval.from interval.until) }
{
    let pairs = distinct_pairs(alloc, metrics, foci)?;
    let first = first_pairs(&pairs, limit);
    let mut out = Vec::from_slice(alloc, b"include metrics;\n")?;
    add_wishes(alloc, &mut out, interval.from, b" show ", first)?;
    if let Some(until) = interval.until {
        add_wishes(alloc, &mut out, until, b" drop ", first)?;
    }
    Ok(out)
}
