//! A node of the search.

ghost use Rattle.std.specs.Prelude.{◌≡◌, ◌<◌, ◌+◌, ◌^◌, if◌then◌else◌, true};
ghost use Rattle.w3_search.specs.Nodes.{node_at_end, is_active, is_confirmed, is_open, sampled};
ghost use Rattle.w3_search.specs.Steps.{with_verdict, may_take};

use crate::hypotheses::Hypotheses;
use crate::testing::holds;
use pn_types::{BarCause, Focus};

/// What came of a node.
#[derive(Clone, Copy, Debug, PartialEq, Eq, Drop)]
pub enum NodeState {
    /// It wasn't tested so far.
    Waiting,
    /// It is under test.
    Active,
    /// The test was true.
    Confirmed,
    /// The test was false.
    Rejected,
    /// It can't be tested.
    Barred(BarCause),
    /// Its phase or the search ended before its window did. It had this many samples.
    Unfinished(u32),
}

/// A hypothesis at a focus in a phase, and what was seen of it.
#[derive(Debug, Drop)]
pub struct Node {
    /// The number of its phase; the first, `global`, is 0.
    pub phase: u32,
    /// The number of the node that it refines. None for a root of its phase.
    pub parent: Option<u32>,
    /// The number of its hypothesis.
    pub hypothesis: u32,
    /// Its focus.
    pub focus: Focus,
    /// What came of it.
    pub state: NodeState,
    /// How many samples were taken.
    pub seen: u32,
    /// The tick at which its first sample began, 0 where it has none.
    pub from: u64,
    /// The tick at which its last sample ended, 0 where it has none.
    pub to: u64,
    /// The sum of the samples' values, modulo 2^64.
    pub value: u64,
    /// The sum of the samples' ticks.
    pub ticks: u64,
}

/// A sample of a node.
#[derive(Clone, Copy, Drop)]
pub struct NodeSample {
    /// The node's number.
    pub node: u32,
    /// The tick at which the sample's interval began.
    pub from: u64,
    /// The value of the node's metric in the interval.
    pub value: u64,
    /// The ticks of the focus's harts in the interval.
    pub ticks: u64,
}

impl NodeState {
    /// Whether it is under test.
    pub(crate) fn is_active(self) -> bool
        ensures { result ≡ is_active self }
    {
        matches!(self, NodeState::Active)
    }

    /// Whether its test was true.
    pub(crate) fn is_confirmed(self) -> bool
        ensures { result ≡ is_confirmed self }
    {
        matches!(self, NodeState::Confirmed)
    }

    /// Whether it waits or is under test.
    fn is_open(self) -> bool
        ensures { result ≡ is_open self }
    {
        matches!(self, NodeState::Waiting | NodeState::Active)
    }
}

impl Node {
    /// Whether it takes a sample: it is under test, and its ticks stay in 64 bits.
    fn may_take(&self, sample: &NodeSample) -> bool
        ensures { result ≡ may_take sample.now self.now }
    {
        self.state.is_active() && self.ticks.checked_add(sample.ticks).is_some()
    }

    /// Adds a sample, which ends at t.
    fn add_sample(&mut self, t: u64, sample: &NodeSample)
        requires seen { self.old.seen + 1 < 2 ^ 32 }
        requires ticks { self.old.ticks + sample.now.ticks < 2 ^ 64 }
        ensures { self.new ≡ sampled t sample.now self.old }
    {
        self.from = if self.seen == 0 {
            sample.from
        } else {
            self.from
        };
        self.seen += 1;
        self.to = t;
        self.value = self.value.wrapping_add(sample.value);
        self.ticks += sample.ticks;
    }

    /// Gives the verdict, where as many samples were taken as the window asks for.
    fn judge(&mut self, hypotheses: &Hypotheses, window: u32)
        ensures { self.new ≡ with_verdict hypotheses.now window self.old }
    {
        if self.seen == window {
            let threshold = hypotheses.threshold(self.hypothesis);
            self.state = if holds(self.value, self.ticks, threshold) {
                NodeState::Confirmed
            } else {
                NodeState::Rejected
            };
        }
    }

    /// Takes a sample, which ends at t, with the verdict that it brings, if it may.
    pub(crate) fn take(&mut self, hypotheses: &Hypotheses, window: u32, t: u64, sample: &NodeSample)
        requires few { is_open self.old.state ≡ true → self.old.seen < window }
        ensures { self.new ≡ (if may_take sample.now self.old
            then with_verdict hypotheses.now window (sampled t sample.now self.old)
            else self.old) }
    {
        if self.may_take(sample) {
            self.add_sample(t, sample);
            self.judge(hypotheses, window);
        }
    }

    /// Ends the node, if it waits or is under test.
    pub(crate) fn end(&mut self)
        ensures { self.new ≡ node_at_end self.old }
    {
        if self.state.is_open() {
            self.state = NodeState::Unfinished(self.seen);
        }
    }
}
