//! The changes that statements make of values.

ghost use Rattle.std.specs.Prelude.{◌≡◌, ◌<◌, ◌++◌, ◌∷◌, [], length};

use std::marker::Model;

/// How many changes there are at most: a walk has at most 66 addresses, and each lets at most 32 statements act.
pub const MOST_CHANGES: usize = 2_112;

/// A variable, by its number, that gets a value.
#[derive(Clone, Copy, Debug, PartialEq, Eq, Drop)]
pub struct Change {
    pub variable: usize,
    pub value: u64,
}

/// Changes, from the first to the last. Contracts see their list.
#[derive(Drop)]
pub struct Changes {
    places: [Change; MOST_CHANGES],
    len: usize,
}

impl Model for Changes {
    ghost use Rattle.std.specs.Prelude.{◌≤◌, List, take};
    ghost use Rattle.frame_walk.specs.declared.changes.Change.{Change};

    ghost Value = { List Change };

    ghost view = { λ c. take c.len c.places };

    ghost invariant = { λ c. c.len ≤ 2112 };
}

impl Changes {
    /// No changes.
    pub fn new() -> Changes
        ensures { result ≡ [] }
    {
        Changes {
            places: [Change {
                variable: 0,
                value: 0,
            }; MOST_CHANGES],
            len: 0,
        }
    }

    /// One more.
    pub fn push(&mut self, change: Change)
        requires { length self.old < 2112 }
        ensures { self.new ≡ self.old ++ change ∷ [] }
    {
        self.places[self.len] = change;
        self.len += 1;
    }

    /// All of them.
    pub fn as_slice(&self) -> &[Change]
        ensures { result.now ≡ self.now }
    {
        &self.places[..self.len]
    }
}
