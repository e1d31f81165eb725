//! What a session keeps of what it shows, and the samples that it tells of.

use instrument::InstrumentNo;
use pn_types::{Focus, PickCause};

/// An instrument that shows or showed a metric at a focus: to the user, or to the search, which tests a node by it.
#[derive(Drop)]
pub struct MetricFocusPair {
    /// The instrument.
    pub instrument: InstrumentNo,
    /// The number of the node that is tested by it. None where it was wished.
    pub node: Option<u32>,
    /// The metric's number, from 0.
    pub metric: u32,
    /// The focus.
    pub focus: Focus,
    /// The time at which it was armed, if it was.
    pub armed: Option<u64>,
    /// The time to which it was sampled: that of its arming at first.
    pub from: u64,
}

/// A wish that was refused.
#[derive(Drop)]
pub struct RefusedWish {
    /// Whether the metric was to be shown, and not dropped.
    pub show: bool,
    /// The metric's number, from 0.
    pub metric: u32,
    /// The focus.
    pub focus: Focus,
    /// The time at which it was refused.
    pub at: u64,
    /// Why.
    pub cause: PickCause,
}

/// A sample of an instrument that was wished.
#[derive(Clone, Copy, PartialEq, Eq, Drop)]
pub struct LatestSample {
    /// The place of the instrument among all that were wished, from 0.
    pub shown: u32,
    /// The time at which its interval begins.
    pub from: u64,
    /// The time at which it ends.
    pub to: u64,
    /// What was measured in it.
    pub sum: u64,
}
