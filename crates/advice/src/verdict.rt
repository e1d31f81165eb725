//! A verdict that a report tells.

use pn_types::Text;

/// What the test of a hypothesis at a focus showed.
#[derive(Drop)]
pub struct Verdict {
    /// The hypothesis's name.
    pub hypothesis: Text,
    /// The test was true.
    pub holds: bool,
    /// The sum of the samples' values, in the metric's units.
    pub value: u64,
    /// The sum of the samples' ticks.
    pub ticks: u64,
}
