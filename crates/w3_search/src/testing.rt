//! The test of a hypothesis.

ghost use Rattle.std.specs.Prelude.{◌≡◌, ◌↔◌, IsTrue};
ghost use Rattle.w3_search.specs.Testing.{Holds, holds};

/// Returns whether a hypothesis is true of what was seen: there were ticks, and the value per 1,000 ticks isn't below the
/// threshold.
#[tactic(auto, unfolding(crate::specs::Testing::holds))]
pub fn holds(value: u64, ticks: u64, threshold: u32) -> bool
    ensures test { result ≡ holds value ticks threshold }
    ensures meaning { IsTrue result ↔ Holds value ticks threshold }
{
    ticks > 0 && value as u128 * 1000 >= threshold as u128 * ticks as u128
}
