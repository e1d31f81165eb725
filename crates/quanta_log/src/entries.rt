//! Reading the entries of a log.

ghost use Rattle.std.specs.Prelude.{◌≡◌, ◌+◌, ◌≤◌, ◌<◌, length, None, Some, MatchResult};
ghost use Rattle.quanta_log.specs.Fields.{head_len, entry_len, log_len};
ghost use Rattle.quanta_log.specs.Meaning.{log_harts, count_of, quantum_at, quanta_at, entry_fault, entries_fault, LogRefuses};
ghost use Rattle.quanta_log.specs.Spelling.{IsQuantum};

use crate::fault::{LogError, LogFault};
use crate::numbers::{byte, doubleword, half, is_within, word};
use crate::version::Version;
use pn_types::{MAX_HARTS, MAX_QUANTUM, MAX_WORKERS, Quantum};
use std::alloc::Global;

/// The greatest number of a quantum's own words.
const MAX_OWNS: u64 = 65_535;

/// The first fault of an entry of version 1 at a place.
#[tactic(auto, unfolding(crate::specs::Meaning::entry_fault))]
fn wide_fault(harts: u32, bytes: &[u8], at: usize) -> Option<LogFault>
    requires harts { 1 ≤ harts }
    requires whole { at + 16 ≤ length bytes.now }
    ensures { result ≡ entry_fault Version.One harts bytes.now at }
{
    let place = at as u64;
    if !is_within(0, MAX_WORKERS as u64 - 1, word(bytes, at) as u64) {
        return Some(LogFault::BadField(place));
    }
    if !is_within(0, harts as u64 - 1, word(bytes, at + 4) as u64) {
        return Some(LogFault::BadField(place + 4));
    }
    if !is_within(1, MAX_QUANTUM as u64, word(bytes, at + 8) as u64) {
        return Some(LogFault::BadField(place + 8));
    }
    if !is_within(0, MAX_OWNS, word(bytes, at + 12) as u64) {
        return Some(LogFault::BadField(place + 12));
    }
    None
}

/// The first fault of an entry of version 2 at a place.
#[tactic(auto, unfolding(crate::specs::Meaning::entry_fault))]
fn narrow_fault(harts: u32, bytes: &[u8], at: usize) -> Option<LogFault>
    requires harts { 1 ≤ harts }
    requires whole { at + 8 ≤ length bytes.now }
    ensures { result ≡ entry_fault Version.Two harts bytes.now at }
{
    let place = at as u64;
    if !is_within(0, MAX_WORKERS as u64 - 1, byte(bytes, at) as u64) {
        return Some(LogFault::BadField(place));
    }
    if !is_within(0, harts as u64 - 1, byte(bytes, at + 1) as u64) {
        return Some(LogFault::BadField(place + 1));
    }
    if !is_within(1, MAX_QUANTUM as u64, half(bytes, at + 2) as u64) {
        return Some(LogFault::BadField(place + 2));
    }
    if !is_within(0, MAX_OWNS, half(bytes, at + 4) as u64) {
        return Some(LogFault::BadField(place + 4));
    }
    if !is_within(0, 0, half(bytes, at + 6) as u64) {
        return Some(LogFault::BadField(place + 6));
    }
    None
}

/// The first fault of an entry at a place.
fn entry_fault(version: Version, harts: u32, bytes: &[u8], at: usize) -> Option<LogFault>
    requires harts { 1 ≤ harts }
    requires whole { at + entry_len version ≤ length bytes.now }
    ensures { result ≡ entry_fault version harts bytes.now at }
{
    match version {
        Version::One => wide_fault(harts, bytes, at),
        Version::Two => narrow_fault(harts, bytes, at),
    }
}

/// The quantum of an entry at a place, whose numbers lie in their ranges.
fn quantum_at(version: Version, bytes: &[u8], at: usize) -> Quantum
    requires whole { at + entry_len version ≤ length bytes.now }
    requires right { IsQuantum MAX_HARTS (quantum_at version bytes.now at) }
    ensures { result ≡ quantum_at version bytes.now at }
{
    match version {
        Version::One => Quantum {
            worker: word(bytes, at) as u8,
            hart: word(bytes, at + 4) as u8,
            turns: word(bytes, at + 8) as u16,
            owns: word(bytes, at + 12) as u16,
        },
        Version::Two => Quantum {
            worker: byte(bytes, at),
            hart: byte(bytes, at + 1),
            turns: half(bytes, at + 2),
            owns: half(bytes, at + 4),
        },
    }
}

/// Returns the quanta of all entries.
///
/// # Errors
///
/// The first fault of an entry, or out of memory.
pub fn quanta_of(alloc: Global, version: Version, bytes: &[u8]) -> Result<Vec<Quantum>, LogError>
    requires harts { (1 ≤ log_harts bytes.now) × (log_harts bytes.now ≤ MAX_HARTS) }
    requires whole { log_len version (count_of bytes.now) ≤ length bytes.now }
    ensures { MatchResult result
        (λ quanta. (entries_fault version (log_harts bytes.now) bytes.now (count_of bytes.now) (head_len version) ≡ None)
        × (quanta.items ≡ quanta_at version bytes.now (count_of bytes.now) (head_len version)))
        (λ e. LogRefuses e (λ fault.
        entries_fault version (log_harts bytes.now) bytes.now (count_of bytes.now) (head_len version) ≡ Some fault)) }
{
    let harts = word(bytes, 8);
    let count = doubleword(bytes, 32);
    let mut quanta = Vec::with_capacity(alloc, count as usize)?;
    let mut at = version.head_len();
    for _ in 0..count {
        if let Some(fault) = entry_fault(version, harts, bytes, at) {
            return Err(LogError::Fault(fault));
        }
        quanta.push(quantum_at(version, bytes, at))?;
        at += version.entry_len();
    }
    Ok(quanta)
}
