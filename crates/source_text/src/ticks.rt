//! The ticks of words by their sources.

ghost use Rattle.std.specs.Prelude.{◌≡◌, ◌<◌, ◌^◌, Some, IfOk, map, sum_by};
ghost use Rattle.std.specs.List.Sorted.{IsNonDecreasingBy};
ghost use Rattle.std.specs.Ordering.{nat_cmp};
ghost use Rattle.source_text.specs.Ordered.{ordered_by};
ghost use Rattle.source_text.specs.Ticks.{merged, order, order_of, source_ticks, ticks_at};

use crate::rows::source_at;
use crate::source::{Source, SourceTicks};
use line_table::Row;
use pn_types::NoMemory;
use profile_text::NumberedWord;
use std::alloc::Global;
use std::cmp::Ordering;

/// Returns the ticks of each word with its source.
fn word_ticks(
    alloc: Global,
    rows: &[Row],
    words: &[NumberedWord],
) -> Result<Vec<SourceTicks>, NoMemory>
    requires { IsNonDecreasingBy (λ row. row.address) rows.now }
    ensures { IfOk result (λ parts. parts.items ≡ map (ticks_at rows.now) words.now) }
{
    let mut parts = Vec::with_capacity(alloc, words.len())?;
    for word in words {
        parts.push(SourceTicks {
            source: source_at(rows, word.at),
            ticks: word.number,
        })?;
    }
    Ok(parts)
}

/// Compares sources by unit, file and line.
fn compare_known(one: Source, other: Source) -> Ordering
    ensures { result ≡ nat_cmp (order_of (Some one)) (order_of (Some other)) }
{
    one.unit
        .cmp(&other.unit)
        .then(one.file.cmp(&other.file))
        .then(one.line.cmp(&other.line))
}

/// Compares a source with one that may be none, which comes last.
fn compare_with(one: Source, other: Option<Source>) -> Ordering
    ensures { result ≡ nat_cmp (order_of (Some one)) (order_of other) }
{
    match other {
        Some(other) => compare_known(one, other),
        None => Ordering::Less,
    }
}

/// Compares sources by unit, file and line, and no source comes last.
fn compare_sources(one: Option<Source>, other: Option<Source>) -> Ordering
    ensures { result ≡ nat_cmp (order_of one) (order_of other) }
{
    match (one, other) {
        (Some(one), _) => compare_with(one, other),
        (None, Some(other)) => compare_with(other, one).reverse(),
        (None, None) => Ordering::Equal,
    }
}

/// Compares by sources.
fn compare(one: &SourceTicks, other: &SourceTicks) -> Ordering
    ensures { result ≡ nat_cmp (order one.now) (order other.now) }
{
    compare_sources(one.source, other.source)
}

/// Returns neighbours of one source together.
fn merged(alloc: Global, parts: &[SourceTicks]) -> Result<Vec<SourceTicks>, NoMemory>
    requires { sum_by (λ x. x.ticks) parts.now < 2 ^ 64 }
    ensures { IfOk result (λ whole. whole.items ≡ merged parts.now) }
{
    let mut whole = Vec::new(alloc);
    let Some((first, rest)) = parts.split_first() else {
        return Ok(whole);
    };
    let mut last = *first;
    for part in rest {
        if compare(&last, part) == Ordering::Equal {
            last.ticks += part.ticks;
        } else {
            whole.push(last)?;
            last = *part;
        }
    }
    whole.push(last)?;
    Ok(whole)
}

/// Returns the ticks of words at each of their sources, by ascending unit, file and line. The rows are by place.
///
/// # Errors
///
/// `NoMemory` where memory runs out.
pub fn source_ticks(
    alloc: Global,
    rows: &[Row],
    words: &[NumberedWord],
) -> Result<Vec<SourceTicks>, NoMemory>
    requires rows { IsNonDecreasingBy (λ row. row.address) rows.now }
    requires words { sum_by (λ x. x.number) words.now < 2 ^ 64 }
    ensures { IfOk result (λ whole. whole.items ≡ source_ticks rows.now words.now) }
{
    let mut parts = word_ticks(alloc, rows, words)?;
    parts.sort_by(|one, other| compare(one, other))?;
    merged(alloc, &parts)
}
