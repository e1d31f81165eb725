//! Metrics and constraints.

use crate::block::Block;
use pn_types::{Seq, Text};

/// A metric: `metric NAME { .. }`.
#[derive(Drop)]
pub struct Metric {
    /// Its line.
    pub line: u32,
    /// Its name.
    pub name: Text,
    /// Its unit, the text between the quotes.
    pub units: Text,
    /// The names of the constraints that it takes.
    pub constraints: Seq<Text>,
    /// It is a timer, and not a counter.
    pub timer: bool,
    /// What it is at first, where that is written.
    pub initially: Option<u32>,
    /// What counts or times it.
    pub blocks: Seq<Block>,
}

/// A constraint: `constraint NAME FOCUS is .. { .. }`.
#[derive(Drop)]
pub struct Constraint {
    /// Its line.
    pub line: u32,
    /// Its name.
    pub name: Text,
    /// The part of the program that it is about, with the `/` that it begins with.
    pub path: Text,
    /// It stands in the place of the metric's own blocks (`replace`), and is no counter.
    pub replace: bool,
    /// What it is at first, where that is written.
    pub initially: Option<u32>,
    /// What it does.
    pub blocks: Seq<Block>,
}
