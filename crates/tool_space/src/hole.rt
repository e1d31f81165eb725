//! Runs of free units.

ghost use Rattle.std.specs.Prelude.{◌≡◌, ℕ, ◌+◌, ◌<◌, ◌≤◌, IfNone, IfSome, insert, length, slice_index_or, vec_capacity, vec_len};
ghost use Rattle.tool_space.specs.Holes.{InOrder, cut_at, join_at, no_hole, put_at};

/// A run of free units: the first of them, and how many there are.
#[derive(Clone, Copy, PartialEq, Eq, Drop)]
pub struct Hole {
    pub at: u64,
    pub len: u64,
}

/// The place of the first hole that is long enough.
pub fn first_fit(holes: &[Hole], len: u64) -> Option<usize>
    ensures within { IfSome result (λ place. place < length holes.now) }
    ensures fits { IfSome result (λ place. len ≤ (slice_index_or holes.now place no_hole).len) }
    ensures before { IfSome result (λ place.
        (k : ℕ) → k < place → (slice_index_or holes.now k no_hole).len < len) }
    ensures none { IfNone result
        ((k : ℕ) → k < length holes.now → (slice_index_or holes.now k no_hole).len < len) }
{
    holes.iter().position(|hole| hole.len >= len)
}

/// The place of the first hole above a unit, or how many holes there are where none is.
pub fn first_above(holes: &[Hole], at: u64) -> usize
    ensures within { result ≤ length holes.now }
    ensures below { (k : ℕ) → k < result → (slice_index_or holes.now k no_hole).at ≤ at }
    ensures above { result < length holes.now → at < (slice_index_or holes.now result no_hole).at }
{
    let above = holes.iter().position(|hole| at < hole.at);
    above.unwrap_or(holes.len())
}

/// Takes units from the front of a hole that has them. Returns the first.
pub fn cut(holes: &mut Vec<Hole>, place: usize, len: u64) -> u64
    requires place { place < vec_len holes.old }
    requires order { InOrder 0 u64.MAX holes.old.items }
    requires len { len ≤ (slice_index_or holes.old.items place no_hole).len }
    ensures at { result ≡ (slice_index_or holes.old.items place no_hole).at }
    ensures holes { holes.new.items ≡ cut_at len place holes.old.items }
    ensures len { vec_len holes.new ≤ vec_len holes.old }
    ensures capacity { vec_capacity holes.new ≡ vec_capacity holes.old }
{
    let hole = holes[place];
    if hole.len == len {
        holes.remove(place);
    } else {
        holes[place] = Hole {
            at: hole.at + len,
            len: hole.len - len,
        };
    }
    hole.at
}

/// Makes one hole of a hole and the next, where they touch.
fn join(holes: &mut Vec<Hole>, place: usize)
    requires place { place < vec_len holes.old }
    requires order { InOrder 0 u64.MAX holes.old.items }
    ensures holes { holes.new.items ≡ join_at place holes.old.items }
    ensures no_more { vec_len holes.new ≤ vec_len holes.old }
    ensures no_fewer { vec_len holes.old ≤ vec_len holes.new + 1 }
    ensures capacity { vec_capacity holes.new ≡ vec_capacity holes.old }
{
    let next = place + 1;
    if next == holes.len() {
        return;
    }
    let hole = holes[place];
    let after = holes[next];
    if hole.at + hole.len == after.at {
        holes.remove(next);
        holes[place] = Hole {
            at: hole.at,
            len: hole.len + after.len,
        };
    }
}

/// Puts a hole at a place, where it fits between its neighbours, and makes one hole of it and those that it touches.
pub fn put(holes: &mut Vec<Hole>, place: usize, hole: Hole)
    requires place { place ≤ vec_len holes.old }
    requires room { vec_len holes.old < vec_capacity holes.old }
    requires order { InOrder 0 u64.MAX (insert holes.old.items place hole) }
    ensures holes { holes.new.items ≡ put_at hole place holes.old.items }
    ensures len { vec_len holes.new ≤ vec_len holes.old + 1 }
    ensures capacity { vec_capacity holes.new ≡ vec_capacity holes.old }
{
    // There is room, so this doesn't fail.
    let _room_is_there = holes.insert(place, hole);
    join(holes, place);
    if place > 0 {
        join(holes, place - 1);
    }
}
