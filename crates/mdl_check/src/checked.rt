//! A configuration that passed the check.

use mdl_ast::{Constraint, Hypothesis, Metric, PhaseDecl, SearchDecl};
use pn_types::{Focus, Seq};

/// A metric is to be shown at a focus, or no longer.
#[derive(Drop, Debug)]
pub struct CheckedWish {
    /// The tick from which it is wished.
    pub at: u64,
    /// It is to be shown, and not dropped.
    pub show: bool,
    /// The metric's number, from 0.
    pub metric: u32,
    /// The focus.
    pub focus: Focus,
}

/// The items of a configuration, those of an include in its place.
pub struct Checked {
    /// The metrics.
    pub metrics: Seq<Metric>,
    /// The constraints of metrics.
    pub constraints: Seq<Constraint>,
    /// The hypotheses of the search.
    pub hypotheses: Seq<Hypothesis>,
    /// How the search goes, if it is wanted.
    pub search: Option<SearchDecl>,
    /// The phases of the search.
    pub phases: Seq<PhaseDecl>,
    /// The wishes.
    pub wishes: Seq<CheckedWish>,
}

// A function of its own, so that what drops it need not prove the drops of all its parts.
impl Drop for Checked {
    fn drop(self) {
        let Checked {
            metrics: _,
            constraints: _,
            hypotheses: _,
            search: _,
            phases: _,
            wishes: _,
        } = self;
    }
}
