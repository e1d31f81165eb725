//! A pair of metric and focus with its instrument and its samples.

use fold_hist::Hist;
use session_spec::MetricFocusPair;

/// A pair of metric and focus that is or was shown or tested, with its samples.
#[derive(Drop)]
pub struct SampledPair {
    /// The instrument, and from when on it is sampled next.
    pub shown: MetricFocusPair,
    /// What it adds to the costs that the search's limit bounds, in words: the predicted cost of a test, and 0 where it was wished.
    pub cost: u64,
    /// The first hart of the focus.
    pub first: u32,
    /// How many harts the focus has.
    pub count: u32,
    /// The sum of the harts' last readings, modulo 2^64.
    pub last: u64,
    /// The samples, where it was wished. None where a node is tested: the search keeps what it needs of them.
    pub hist: Option<Hist>,
}
