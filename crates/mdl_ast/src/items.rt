//! A configuration and its items.

use crate::metric::{Constraint, Metric};
use pn_types::{Seq, Text};

/// The shipped items are taken: `include metrics;` or `include hypotheses;`.
#[derive(Clone, Copy, Drop)]
pub struct Include {
    /// Its line.
    pub line: u32,
    /// The metrics, and not the hypotheses.
    pub metrics: bool,
}

/// Objects whose names begin with this are synchronization objects, as locks: `sync NAME;`.
#[derive(Drop)]
pub struct SyncDecl {
    /// Its line.
    pub line: u32,
    /// How their names begin.
    pub name: Text,
}

/// A hypothesis of the search: `hypothesis NAME { .. }`.
#[derive(Drop)]
pub struct Hypothesis {
    /// Its line.
    pub line: u32,
    /// Its name.
    pub name: Text,
    /// The hypothesis that it makes more precise, if any.
    pub parent: Option<Text>,
    /// The metric that is tested.
    pub metric: Text,
    /// The least value at which it is true.
    pub threshold: u32,
    /// The axes along which it is refined. Empty exactly where they aren't written.
    pub axes: Seq<Text>,
}

/// How the search goes: `search { .. }`.
#[derive(Clone, Copy, Drop)]
pub struct SearchDecl {
    /// Its line.
    pub line: u32,
    /// How many samples a test takes.
    pub window: u32,
    /// The most that the tests may cost together.
    pub cost: u32,
    /// The most that is observed.
    pub observed: u32,
}

/// A phase: `phase NAME at TICK;`.
#[derive(Drop)]
pub struct PhaseDecl {
    /// Its line.
    pub line: u32,
    /// Its name.
    pub name: Text,
    /// The tick at which it begins.
    pub at: u32,
}

/// A metric is to be shown at a focus, or no longer: `at TICK show NAME FOCUS;`.
#[derive(Drop)]
pub struct Wish {
    /// Its line.
    pub line: u32,
    /// The tick from which it is wished.
    pub at: u32,
    /// It is to be shown, and not dropped.
    pub show: bool,
    /// The metric's name.
    pub metric: Text,
    /// The focus as it is written, with the `/` that it begins with.
    pub focus: Text,
}

/// An item of a configuration.
#[derive(Drop)]
pub enum Item {
    /// Shipped items.
    Include(Include),
    /// Names of objects.
    Sync(SyncDecl),
    /// A metric.
    Metric(Metric),
    /// A constraint.
    Constraint(Constraint),
    /// A hypothesis.
    Hypothesis(Hypothesis),
    /// The search.
    Search(SearchDecl),
    /// A phase.
    Phase(PhaseDecl),
    /// A wish.
    Wish(Wish),
}

/// A configuration.
#[derive(Drop)]
pub struct Conf {
    /// Its items.
    pub items: Seq<Item>,
}
