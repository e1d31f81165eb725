//! Why a hart ended, and why a metric can't be measured.

ghost use Rattle.std.specs.Prelude.{◌≡◌, ◌<◌, ◌≤◌};
ghost use Rattle.report_lines.specs.Causes.{axis_word_at, bar_of, cause_at, excess_at, lack_at, stop_at, words_of_stop};

use crate::addresses::address_at;
use crate::words::{byte_at, says, short_at};
use advice::number_at;
use pn_types::{Axis, BarCause, PickCause, StopText};

/// Returns how a hart ended, as the words from a place of a line on say.
pub(crate) fn stop_at(place: usize, line: &[u8]) -> StopText
    requires { place < 16 }
    ensures { result ≡ stop_at place line.now }
{
    if says(place, line, b"exit") {
        StopText::Exit(byte_at(place + 1, line))
    } else if says(place, line, b"illegal") {
        StopText::Illegal
    } else if says(place, line, b"break") {
        StopText::Break
    } else if says(place, line, b"misaligned") {
        StopText::Misaligned
    } else if says(place, line, b"access") {
        StopText::Access(address_at(place + 1, line))
    } else if says(place, line, b"text-access") {
        StopText::TextAccess(address_at(place + 1, line))
    } else if says(place, line, b"fetch-outside") {
        StopText::FetchOutside
    } else if says(place, line, b"budget") {
        StopText::Budget
    } else {
        StopText::Cut
    }
}

/// Returns how many words say so.
pub(crate) fn words_of_stop(stop: StopText) -> usize
    ensures count { result ≡ words_of_stop stop }
    ensures few { result ≤ 2 }
{
    match stop {
        StopText::Exit(_) => 2,
        StopText::Access(_) => 2,
        StopText::TextAccess(_) => 2,
        _ => 1,
    }
}

fn axis_word_at(place: usize, line: &[u8]) -> Axis
    ensures { result ≡ axis_word_at place line.now }
{
    if says(place, line, b"Code") {
        Axis::Code
    } else if says(place, line, b"Machine") {
        Axis::Machine
    } else {
        Axis::SyncObject
    }
}

/// What there is none of, as the words from a place on say.
fn lack_at(place: usize, line: &[u8]) -> PickCause
    requires { place < 32 }
    ensures { result ≡ lack_at place line.now }
{
    if says(place, line, b"constraint") {
        PickCause::NoConstraint(axis_word_at(place + 2, line))
    } else if says(place, line, b"slot") {
        PickCause::NoSlot(short_at(place + 2, line))
    } else {
        PickCause::NoRoom(short_at(place + 2, line))
    }
}

/// What there are too many of, as the words from a place on say.
fn excess_at(place: usize, line: &[u8]) -> PickCause
    requires { place < 32 }
    ensures { result ≡ excess_at place line.now }
{
    if says(place, line, b"sites") {
        PickCause::TooManySites(short_at(place + 1, line))
    } else if says(place, line, b"statements") {
        PickCause::TooManyStmts(address_at(place + 2, line))
    } else {
        PickCause::TooMany
    }
}

/// Returns why a metric can't be measured, as the words from a place of a line on say.
pub(crate) fn cause_at(place: usize, line: &[u8]) -> PickCause
    requires { place < 16 }
    ensures { result ≡ cause_at place line.now }
{
    if says(place, line, b"no") {
        lack_at(place + 1, line)
    } else if says(place, line, b"too") {
        excess_at(place + 2, line)
    } else if says(place, line, b"over") {
        PickCause::OverCost(number_at(place + 2, line))
    } else if says(place, line, b"unmovable") {
        PickCause::Unmovable(address_at(place + 2, line))
    } else if says(place, line, b"already") {
        PickCause::AlreadyShown
    } else {
        PickCause::NotShown
    }
}

/// Returns the cause as that of a node, which has no other causes than these.
pub(crate) fn bar_of(cause: PickCause) -> BarCause
    ensures { result ≡ bar_of cause }
{
    match cause {
        PickCause::NoConstraint(axis) => BarCause::NoConstraint(axis),
        PickCause::TooManySites(count) => BarCause::TooManySites(count),
        PickCause::TooManyStmts(at) => BarCause::TooManyStmts(at),
        PickCause::OverCost(cost) => BarCause::OverCost(cost),
        PickCause::NoSlot(count) => BarCause::NoSlot(count),
        PickCause::NoRoom(count) => BarCause::NoRoom(count),
        PickCause::Unmovable(at) => BarCause::Unmovable(at),
        _ => BarCause::NoConstraint(Axis::Code),
    }
}
