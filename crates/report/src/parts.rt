//! The parts of a report.

use fold_hist::Bin;
use pn_types::{PickCause, Seq, StopText, Text};
use w3_search::Node;

/// What a report says of a hart.
#[derive(Clone, Copy, PartialEq, Eq, Drop)]
pub struct HartPart {
    /// How many words it executed.
    pub ticks: u64,
    /// How it ended.
    pub stop: StopText,
    /// The address of the word at which it ended.
    pub pc: u64,
}

/// What a report says of a wish that was refused while the program ran.
#[derive(Drop)]
pub struct RefusedPart {
    /// The metric was to be shown, and not dropped.
    pub show: bool,
    /// The metric's name.
    pub metric: Text,
    /// The focus, in its canonical form.
    pub focus: Text,
    /// The time at which it was refused, in ticks.
    pub at: u64,
    /// Why.
    pub cause: PickCause,
}

/// What a report says of a metric that was shown at a focus.
#[derive(Drop)]
pub struct ShownPart {
    /// The metric's name.
    pub metric: Text,
    /// The focus, in its canonical form.
    pub focus: Text,
    /// The metric's units.
    pub units: Text,
    /// The time at which its instrument was armed, in ticks, if it was.
    pub from: Option<u64>,
    /// How many samples a bin is of.
    pub width: u64,
    /// The bins.
    pub bins: Seq<Bin>,
}

/// What a report says of a node of the search.
#[derive(Drop)]
pub struct NodePart {
    /// The name of its phase.
    pub phase: Text,
    /// The name of its hypothesis.
    pub hypothesis: Text,
    /// Its focus, in its canonical form.
    pub focus: Text,
    /// The node itself: the number of its parent, what came of it, and the sums over its samples.
    pub node: Node,
}

/// What a report says of the search.
#[derive(Drop)]
pub struct SearchPart {
    /// There are as many nodes as there may be, so that no more were made.
    pub full: bool,
    /// How many samples the test of a node takes.
    pub window: u32,
    /// The nodes, by number.
    pub nodes: Seq<NodePart>,
}

/// What a report says of a run.
#[derive(Drop)]
pub struct ReportParts {
    /// The harts, by number.
    pub harts: Seq<HartPart>,
    /// How many samples were taken.
    pub samples: u64,
    /// What the program wrote.
    pub output: Text,
    /// The wishes that were refused, in order.
    pub refused: Seq<RefusedPart>,
    /// What was shown, in the order of the admissions.
    pub shown: Seq<ShownPart>,
    /// The search, if there was one.
    pub search: Option<SearchPart>,
}
