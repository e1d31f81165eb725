//! What holds of what a session tells.

ghost use Rattle.session_spec.specs.Costs.{CostsStay};
ghost use Rattle.session_spec.specs.Laws.{BarsTold, BinsTold, FeedTold, OpensAtZero, PrintedTold, RunsTold, SamplesRead, VerdictsTold};

// ---- The run, and what is measured of it.

/// The machine came about by events of which each could happen, and is the unpatched program's after a legal run of it. No hart has
/// more ticks than the budget.
pub fn runs_told()
    ensures { RunsTold }
{}

/// The samples of each instrument follow one another from its arming on, and so do the bins of its histogram. No interval is empty, and
/// each is what its plan measures over it, on the program's own run.
pub fn bins_told()
    ensures { BinsTold }
{}

/// Each sample is the difference of what was read of its instrument at its two ends, where no hart was inside a trampoline.
pub fn samples_read()
    ensures { SamplesRead }
{}

/// What was told of samples when they were taken is, for each wished pair, what was recorded for it, and nothing was told of any
/// other place.
pub fn feed_told()
    ensures { FeedTold }
{}

/// What was wished for the opening, and wasn't dropped there, is armed at time 0, and stays armed.
pub fn opens_at_zero()
    ensures { OpensAtZero }
{}

/// Where all wishes are for the opening, and none drops a pair, each pair is armed at time 0, and its bins follow one another through the
/// whole run of the program alone. None is empty, and each is what its metric's plan measures over it.
pub fn printed_told()
    ensures { PrintedTold }
{}

// ---- The search.

/// Each node's verdict is that of the samples of an instrument of its own: from its arming on, as many as the window has. It is the
/// verdict on the program's own run from the arming to the last of them, which comes later. After the end each node has its
/// verdict, or was barred when its turn came, or its phase or the search ended before its window did.
pub fn verdicts_told()
    ensures { VerdictsTold }
{}

/// A node that is barred was barred when its turn came: by the cause that planning gave, or admission to what was placed then.
pub fn bars_told()
    ensures { BarsTold }
{}

/// The predicted costs of the search's instruments that aren't gone are within its limit in each state of a session, and at each moment of
/// a quantum. Where the observed cost is above its limit, no node is taken.
pub fn costs_stay()
    ensures { CostsStay }
{}
