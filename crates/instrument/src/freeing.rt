//! The search for a Free that can be done.

ghost use Rattle.std.specs.Prelude.{◌≡◌, ◌<◌, ◌≤◌, [], None, IfNone, IfSome, length, slice_get, take};
ghost use Rattle.std.specs.List.{list_any};
ghost use Rattle.std.specs.VecDeque.{deque_len};
ghost use Rattle.instrument.specs.Agendas.{free_entry, IsFoundAt};
ghost use Rattle.instrument.specs.Books.{unlinks, first_free};

use crate::entry::Entry;
use std::collections::VecDeque;

/// A Free of the agenda.
#[derive(Clone, Copy, PartialEq, Eq, Drop)]
pub struct FreeAt {
    /// Its place in the agenda.
    pub place: usize,
    /// Its point.
    pub point: u64,
}

/// Returns whether an entry before a place unlinks the point. The nearest entries are asked first.
pub fn is_unlinked_before(entries: &VecDeque<Entry>, place: usize, point: u64) -> bool
    requires { place ≤ length entries.now.items }
    ensures { result ≡ list_any (unlinks point) (take place entries.now.items) }
{
    let mut left = place;
    while left > 0 {
        left -= 1;
        if entries[left].unlinks(point) {
            return true;
        }
    }
    false
}

/// Returns the point of the entry at a place, if it is a Free and none before it unlinks the point.
pub fn free_at(entries: &VecDeque<Entry>, place: usize) -> Option<u64>
    requires { place < length entries.now.items }
    ensures { result ≡ free_entry (slice_get entries.now.items place) (take place entries.now.items) }
{
    let point = entries[place].freed_point()?;
    if is_unlinked_before(entries, place, point) {
        None
    } else {
        Some(point)
    }
}

/// Returns the first Free before which no unlinking of its point stands.
pub fn find_free(entries: &VecDeque<Entry>) -> Option<FreeAt>
    ensures none { IfNone result (first_free [] entries.now.items ≡ None) }
    ensures within { IfSome result (λ found. found.place < length entries.now.items) }
    ensures found { IfSome result (λ found. IsFoundAt entries.now.items found.place found.point) }
{
    for place in 0..entries.len() {
        if let Some(point) = free_at(entries, place) {
            return Some(FreeAt { place, point });
        }
    }
    None
}
