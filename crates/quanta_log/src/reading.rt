//! Reading a log.

ghost use Rattle.std.specs.Prelude.{◌≡◌, ◌+◌, ◌≤◌, ◌<◌, length, map, None, IfOk};
ghost use Rattle.quanta_log.specs.Fields.{head_len, entry_len, log_len, later_fields};
ghost use Rattle.quanta_log.specs.Meaning.{begins_as, version_of, log_harts, count_of, start_of, settings_of, field_fault, first_fault, head_fault, log_fault, meaning_of, Means};
ghost use Rattle.quanta_log.specs.Spelling.{CanSpell};

use crate::entries::quanta_of;
use crate::fault::{LogError, LogFault};
use crate::numbers::{doubleword, is_within, word};
use crate::version::Version;
use pn_types::{
    MAX_BINS, MAX_BUDGET, MAX_INSTRUMENTS, MAX_QUANTA, MAX_WIDTH, MIN_BINS, Quantum, Settings,
    Start, USUAL_INSTRUMENTS,
};
use std::alloc::Global;

/// Whether the first bytes, up to eight, are those of a version's magic.
fn begins_as(version: Version, bytes: &[u8]) -> bool
    ensures { result ≡ begins_as version bytes.now }
{
    version.magic().starts_with(&bytes[..bytes.len().min(8)])
}

/// The version as which bytes begin. Fewer than eight may begin as both.
fn version_of(bytes: &[u8]) -> Option<Version>
    ensures { result ≡ version_of bytes.now }
{
    if begins_as(Version::Two, bytes) {
        Some(Version::Two)
    } else if begins_as(Version::One, bytes) {
        Some(Version::One)
    } else {
        None
    }
}

/// The first fault of the start and the number of instruments, which version 1 doesn't have.
fn later_fault(version: Version, bytes: &[u8]) -> Option<LogFault>
    requires { head_len version ≤ length bytes.now }
    ensures { result ≡ first_fault (map (field_fault bytes.now) (later_fields version)) }
{
    match version {
        Version::One => None,
        Version::Two => {
            if !is_within(0, 1, word(bytes, 40) as u64) {
                return Some(LogFault::BadField(40));
            }
            if !is_within(1, MAX_INSTRUMENTS as u64, word(bytes, 44) as u64) {
                return Some(LogFault::BadField(44));
            }
            None
        }
    }
}

/// The first fault of the numbers of a head.
#[tactic(auto, unfolding(crate::specs::Meaning::head_fault))]
fn head_fault(version: Version, bytes: &[u8]) -> Option<LogFault>
    requires { head_len version ≤ length bytes.now }
    ensures { result ≡ head_fault version bytes.now }
{
    if !is_within(1, version.most_harts() as u64, word(bytes, 8) as u64) {
        return Some(LogFault::BadField(8));
    }
    if !is_within(MIN_BINS as u64, MAX_BINS as u64, word(bytes, 12) as u64) {
        return Some(LogFault::BadField(12));
    }
    if !is_within(1, MAX_BUDGET, doubleword(bytes, 16)) {
        return Some(LogFault::BadField(16));
    }
    if !is_within(1, MAX_WIDTH, doubleword(bytes, 24)) {
        return Some(LogFault::BadField(24));
    }
    if !is_within(0, MAX_QUANTA as u64, doubleword(bytes, 32)) {
        return Some(LogFault::BadField(32));
    }
    later_fault(version, bytes)
}

/// The start that a number stands for.
fn start_of(number: u32) -> Start
    ensures { result ≡ start_of number }
{
    if number == 0 {
        Start::Cold
    } else {
        Start::Warm
    }
}

/// The settings.
fn settings_of(version: Version, bytes: &[u8]) -> Settings
    requires { head_len version ≤ length bytes.now }
    ensures { result ≡ settings_of version bytes.now }
{
    let (start, instruments) = match version {
        Version::One => (Start::Cold, USUAL_INSTRUMENTS),
        Version::Two => (start_of(word(bytes, 40)), word(bytes, 44)),
    };
    Settings {
        harts: word(bytes, 8),
        budget: doubleword(bytes, 16),
        bins: word(bytes, 12),
        width: doubleword(bytes, 24),
        start,
        instruments,
    }
}

/// Returns the settings and quanta of a log of either version.
///
/// # Errors
///
/// Out of memory, or the first fault of the bytes: of how they begin, whether the head is whole, its fields, whether the
/// entries are whole, their fields, and whether there are bytes after them.
#[tactic(auto, unfolding(crate::specs::Meaning::meaning_of, crate::specs::Meaning::log_fault))]
pub fn read(alloc: Global, bytes: &[u8]) -> Result<(Settings, Vec<Quantum>), LogError>
    ensures meaning { Means result (meaning_of bytes.now) }
    ensures writable { IfOk result (λ log. CanSpell Version.Two log.0 log.1.items) }
{
    let Some(version) = version_of(bytes) else {
        return Err(LogFault::BadHead.into());
    };
    let len = bytes.len() as u64;
    if len < version.head_len() as u64 {
        return Err(LogFault::Short(len).into());
    }
    if let Some(fault) = head_fault(version, bytes) {
        return Err(fault.into());
    }
    let end = version.log_len(doubleword(bytes, 32));
    if len < end {
        return Err(LogFault::Short(len).into());
    }
    let quanta = quanta_of(alloc, version, bytes)?;
    if len > end {
        return Err(LogFault::Trailing(end).into());
    }
    Ok((settings_of(version, bytes), quanta))
}
