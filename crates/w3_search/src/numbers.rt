//! Ascending lists of numbers of nodes, of which there is room for as many as there may be nodes.

ghost use Rattle.std.specs.Prelude.{◌≡◌, ◌<◌, ◌≤◌, ◌+◌, ◌∷◌, ◌++◌, [], if◌then◌else◌, not, IsTrue, IfSome, IfNone, MatchOption, filter, length, vec_len, vec_capacity, insert, remove};
ghost use Rattle.w3_search.specs.Nodes.{is_active_at};
ghost use Rattle.w3_search.specs.Index.{inserted, without};

use crate::node::Node;

/// Puts a number last, if that is wanted.
pub(crate) fn push_if(numbers: &mut Vec<u32>, wanted: bool, number: u32)
    requires room { IsTrue wanted → vec_len numbers.old < vec_capacity numbers.old }
    ensures items { numbers.new.items ≡ (if wanted then numbers.old.items ++ number ∷ [] else numbers.old.items) }
    ensures capacity { vec_capacity numbers.old ≤ vec_capacity numbers.new }
{
    if wanted {
        numbers.push(number).unwrap();
    }
}

/// Puts numbers after others.
pub(crate) fn push_all(numbers: &mut Vec<u32>, others: &[u32])
    requires room { vec_len numbers.old + length others.now ≤ vec_capacity numbers.old }
    ensures items { numbers.new.items ≡ numbers.old.items ++ others.now }
    ensures capacity { vec_capacity numbers.old ≤ vec_capacity numbers.new }
{
    numbers.extend_from_slice(others).unwrap();
}

/// Where a number goes in an ascending list.
fn place_for(numbers: &[u32], number: u32) -> usize
    ensures within { result ≤ length numbers.now }
    ensures place { insert numbers.now result number ≡ inserted number numbers.now }
{
    for (place, other) in numbers.iter().enumerate() {
        if *other >= number {
            return place;
        }
    }
    numbers.len()
}

/// Puts a number into an ascending list.
pub(crate) fn put_in(numbers: &mut Vec<u32>, number: u32)
    requires room { vec_len numbers.old < vec_capacity numbers.old }
    ensures items { numbers.new.items ≡ inserted number numbers.old.items }
    ensures capacity { vec_capacity numbers.old ≤ vec_capacity numbers.new }
{
    let place = place_for(numbers, number);
    numbers.insert(place, number).unwrap();
}

/// Where a number stands.
fn place_of(numbers: &[u32], number: u32) -> Option<usize>
    ensures within { IfSome result (λ place. place < length numbers.now) }
    ensures place { MatchOption result (numbers.now ≡ without number numbers.now)
        (λ place. remove numbers.now place ≡ without number numbers.now) }
{
    for (place, other) in numbers.iter().enumerate() {
        if *other == number {
            return Some(place);
        }
    }
    None
}

/// Takes a number out of a list. The nodes that are taken from those that wait are among the first.
pub(crate) fn take_out(numbers: &mut Vec<u32>, number: u32)
    ensures items { numbers.new.items ≡ without number numbers.old.items }
    ensures capacity { vec_capacity numbers.old ≤ vec_capacity numbers.new }
{
    if let Some(place) = place_of(numbers, number) {
        numbers.remove(place);
    }
}

/// Whether the node of this number is under test.
fn is_active_at(nodes: &[Node], number: u32) -> bool
    ensures { result ≡ is_active_at nodes.now number }
{
    match nodes.get(number as usize) {
        Some(node) => node.state.is_active(),
        None => false,
    }
}

/// Parts numbers into those of nodes that are under test, and those of others.
pub(crate) fn part_active(
    numbers: &[u32],
    nodes: &[Node],
    active: &mut Vec<u32>,
    ended: &mut Vec<u32>,
)
    requires active_room { vec_len active.old + length numbers.now ≤ vec_capacity active.old }
    requires ended_room { vec_len ended.old + length numbers.now ≤ vec_capacity ended.old }
    ensures active { active.new.items ≡ active.old.items ++ filter (is_active_at nodes.now) numbers.now }
    ensures ended { ended.new.items ≡ ended.old.items ++ filter (λ i. not (is_active_at nodes.now i)) numbers.now }
    ensures active_capacity { vec_capacity active.old ≤ vec_capacity active.new }
    ensures ended_capacity { vec_capacity ended.old ≤ vec_capacity ended.new }
{
    for number in numbers {
        let is_active = is_active_at(nodes, *number);
        push_if(active, is_active, *number);
        push_if(ended, !is_active, *number);
    }
}
